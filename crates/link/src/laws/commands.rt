//! Commands that go out for the first time.
ghost use Rattle.std.specs.Prelude.{◌≡◌, ℕ, slice_index, Bool, true, false, List, Some};
ghost use Rattle.ft12.specs.Fronts.{front_of};
ghost use Rattle.link.specs.Answers.{Command, Counted};
ghost use Rattle.link.specs.Exchanges.{Sending, Exchanges};
ghost use Rattle.link.specs.Gaps.{exchanges_at};
ghost use Rattle.link.specs.Procedure.{LinkSettings, is_held};
ghost use Rattle.link.specs.Matching.{Matches};
ghost use Rattle.link.specs.Turns.{CommandsWaiting, station_at};
ghost use Rattle.link.specs.Primary.{Primary, sending, is_command};
ghost use Rattle.link.specs.UnderWay.{is_under_way};

/// A command that goes out for the first time is the one that waits for its station: none is
/// invented, and none is another station's. (That an unanswered one is sent again octet for octet
/// is kept with the frame count bit.)
pub fn commands_are_those_that_wait()
    ensures { (p : Primary) (may_poll : Bool) (waiting : CommandsWaiting) (s : Sending)
        (fcb : Bool) (asdu : List ℕ) →
        sending p may_poll waiting ≡ Some s → s.request ≡ Counted fcb (Command asdu) →
        is_held (station_at p.stations s.station).link ≡ false →
        waiting s.station ≡ Some asdu }
{}

/// A command goes out for the first time only if none that was put on the line is without an
/// outcome while the link is up.
pub fn one_command_at_a_time()
    ensures { (settings : LinkSettings) (addresses : List ℕ) (p : Primary) (e : Exchanges)
        (may_poll : Bool) (waiting : CommandsWaiting) (s : Sending) →
        Matches settings addresses p e → sending p may_poll waiting ≡ Some s →
        is_command s.request ≡ true → is_held (station_at p.stations s.station).link ≡ false →
        is_under_way settings (slice_index addresses s.station)
        (exchanges_at (front_of settings.size) s.station e) ≡ false }
{}
