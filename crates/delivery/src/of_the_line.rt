//! What the laws on the line take for granted: what an honest outstation may do, when a link is
//! steady, and which service can have no outcome. How an answer comes, and what goes out next.
ghost use Rattle.std.specs.Prelude.{◌≡◌, ◌≢◌, ◌⊎◌, ◌++◌, [], ◌∷◌, ℕ, suc, Bool, true, false};
ghost use Rattle.std.specs.Prelude.{List, Option, Some, None, if◌then◌else◌};
ghost use Rattle.link.specs.declared.procedure.Link.TheVariants.{Next as Up};
ghost use Rattle.link.specs.declared.service.Asked.TheVariants.{Counted};
ghost use Rattle.link.specs.declared.service.Service.TheVariants.{Class1, Class2, Command};
ghost use Rattle.link.specs.AtOnce.{latest_after, began_after};
ghost use Rattle.link.specs.Bursts.{Row, Polls, Commanded, is_answered, row_after};
ghost use Rattle.link.specs.Exchanges.{Sending};
ghost use Rattle.link.specs.Primary.{Outstanding, Primary, sending};
ghost use Rattle.link.specs.Procedure.{has_repeats, is_held, is_service};
ghost use Rattle.link.specs.Runs.{Next, Octets, Due, GivesUp};
ghost use Rattle.link.specs.Turns.{CommandsWaiting, station_at};
ghost use Rattle.delivery.specs.Delivery as by_log;
ghost use Rattle.delivery.specs.NextRequests.{IsOutNoMore};

use link::{new_settings_keep_the_procedures, repeats_come_at_once};

/// A service that had no answer in time goes out again, with its frame count bit, before any other
/// request, if a repeat of it is left. That is so whatever was called before, also behind new
/// settings, whatever octets came meanwhile, and whether there is leave to poll or not.
pub fn unanswered_services_go_out_again()
    ensures { (p q : Primary) (s : Sending) (leave : Bool) (waiting : CommandsWaiting) →
        IsOutNoMore p q s → is_service s.request ≡ true →
        has_repeats q.settings (station_at q.stations s.station).link ≡ true →
        sending q leave waiting ≡ Some s }
{
    repeats_come_at_once();
    new_settings_keep_the_procedures();
}

/// `polls_go_on`, `repeats_come_at_once` and `turns_go_on_behind_held_services` look back at what
/// went out last. A link that is up and holds no service is answered. Each request is the latest
/// once it goes out, and a held service without repeats begins a turn. A new command begins a row
/// in which a poll is next, a new poll of class 2 one without polls of class 1, and a new poll of
/// class 1 one more or the first of a row. Repeats that are left, and calls at which nothing may go
/// out, change nothing of it.
pub fn requests_are_looked_back_at()
    ensures answered { (fcb : Bool) → is_answered (Up fcb) ≡ true }
    ensures latest { (p : Primary) (now : ℕ) (may_poll : Bool) (waiting : CommandsWaiting)
        (latest : Option Sending) → p.outstanding ≡ None →
        latest_after p (Next now may_poll waiting) latest ≡ sending p may_poll waiting }
    ensures turn { (p : Primary) (now : ℕ) (may_poll : Bool) (waiting : CommandsWaiting)
        (s : Sending) (began : Option ℕ) → sending p may_poll waiting ≡ Some s →
        is_held (station_at p.stations s.station).link ≡ true →
        has_repeats p.settings (station_at p.stations s.station).link ≡ false →
        began_after p (Next now may_poll waiting) began ≡ Some s.station }
    ensures command { (p : Primary) (now station : ℕ) (may_poll fcb : Bool)
        (waiting : CommandsWaiting) (asdu : List ℕ) (row : Row) →
        sending p may_poll waiting
        ≡ Some (record { station = station; request = Counted fcb (Command asdu) }) →
        is_held (station_at p.stations station).link ≡ false →
        row_after p (Next now may_poll waiting) row ≡ Commanded station }
    ensures class2 { (p : Primary) (now station : ℕ) (may_poll fcb : Bool)
        (waiting : CommandsWaiting) (row : Row) →
        sending p may_poll waiting
        ≡ Some (record { station = station; request = Counted fcb Class2 }) →
        is_held (station_at p.stations station).link ≡ false →
        row_after p (Next now may_poll waiting) row ≡ Polls station 0 }
    ensures class1 { (p : Primary) (now station many : ℕ) (may_poll fcb : Bool)
        (waiting : CommandsWaiting) →
        sending p may_poll waiting
        ≡ Some (record { station = station; request = Counted fcb Class1 }) →
        is_held (station_at p.stations station).link ≡ false →
        row_after p (Next now may_poll waiting) (Polls station many)
        ≡ Polls station (suc many) }
    ensures first { (p : Primary) (now station : ℕ) (may_poll fcb : Bool)
        (waiting : CommandsWaiting) (row : Row) →
        sending p may_poll waiting
        ≡ Some (record { station = station; request = Counted fcb Class1 }) →
        is_held (station_at p.stations station).link ≡ false →
        ((many : ℕ) → row ≢ Polls station many) →
        row_after p (Next now may_poll waiting) row ≡ Polls station 1 }
    ensures again { (p : Primary) (now many : ℕ) (may_poll : Bool) (waiting : CommandsWaiting)
        (s : Sending) → sending p may_poll waiting ≡ Some s →
        is_held (station_at p.stations s.station).link ≡ true →
        has_repeats p.settings (station_at p.stations s.station).link ≡ true →
        (row_after p (Next now may_poll waiting) (Polls s.station many)
        ≡ Polls s.station many)
        × (row_after p (Next now may_poll waiting) (Commanded s.station)
        ≡ Commanded s.station) }
    ensures out { (p : Primary) (now : ℕ) (may_poll : Bool) (waiting : CommandsWaiting)
        (o : Outstanding) (row : Row) (latest : Option Sending) (began : Option ℕ) →
        p.outstanding ≡ Some o →
        (row_after p (Next now may_poll waiting) row ≡ row)
        × (latest_after p (Next now may_poll waiting) latest ≡ latest)
        × (began_after p (Next now may_poll waiting) began ≡ began) }
    ensures others { (p : Primary) (at station : ℕ) (octets : List ℕ) (row : Row)
        (latest : Option Sending) (began : Option ℕ) →
        ((row_after p (Octets octets) row ≡ row) × (latest_after p (Octets octets) latest ≡ latest)
        × (began_after p (Octets octets) began ≡ began))
        × ((row_after p (Due at) row ≡ row) × (latest_after p (Due at) latest ≡ latest)
        × (began_after p (Due at) began ≡ began))
        × ((row_after p (GivesUp station) row ≡ row)
        × (latest_after p (GivesUp station) latest ≡ latest)
        × (began_after p (GivesUp station) began ≡ began)) }
{}
