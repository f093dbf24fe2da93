//! What asking for the next request changes.
ghost use Rattle.std.specs.Prelude.{◌≡◌, ◌<◌, ℕ, Bool, true, false, List, length, Option, Some};
ghost use Rattle.std.specs.Prelude.{None};
ghost use Rattle.link.specs.Exchanges.{Sending};
ghost use Rattle.link.specs.Turns.{CommandsWaiting, station_at};
ghost use Rattle.link.specs.Procedure.{LinkSettings, is_up, holds_command};
ghost use Rattle.link.specs.Primary.{Primary, start, asked, sending};
ghost use Rattle.link.specs.Holding.{IsFitting};
ghost use Rattle.link.specs.Runs.{Call};
ghost use Rattle.link.specs.Timing.{AnswersHaveTheirTime};

/// A request that went out is outstanding: nothing is next, and asking changes nothing. If none is
/// next, none is next after asking, either. A primary that has just been made has a request.
pub fn next_changes_nothing()
    ensures over { (p : Primary) (now : ℕ) (may_poll : Bool) (waiting : CommandsWaiting) →
        sending p may_poll waiting ≡ None →
        sending (asked p now may_poll waiting) may_poll waiting ≡ None }
    ensures out { (p : Primary) (now : ℕ) (may_poll : Bool) (waiting : CommandsWaiting)
        (s : Sending) → sending p may_poll waiting ≡ Some s →
        (later : Bool) (others : CommandsWaiting) →
        sending (asked p now may_poll waiting) later others ≡ None }
    ensures same { (p : Primary) (now : ℕ) (may_poll : Bool) (waiting : CommandsWaiting)
        (s : Sending) → sending p may_poll waiting ≡ Some s →
        (at : ℕ) (later : Bool) (others : CommandsWaiting) →
        asked (asked p now may_poll waiting) at later others ≡ asked p now may_poll waiting }
    ensures begins { (settings : LinkSettings) (addresses : List ℕ) (may_poll : Bool)
        (waiting : CommandsWaiting) → 0 < length addresses →
        sending (start settings addresses) may_poll waiting ≡ None → ⊥ }
    ensures up { (p : Primary) (may_poll : Bool) (waiting : CommandsWaiting) → IsFitting p →
        p.outstanding ≡ None → sending p may_poll waiting ≡ None →
        (i : ℕ) → i < length p.stations → is_up (station_at p.stations i).link ≡ true }
    ensures free { (p : Primary) (may_poll : Bool) (waiting : CommandsWaiting) → IsFitting p →
        p.outstanding ≡ None → sending p may_poll waiting ≡ None →
        (i : ℕ) → i < length p.stations → holds_command (station_at p.stations i).link ≡ false }
{}

/// Whatever is called: a request is awaited for `answer_ms`. A moment that is earlier, counted from
/// the moment at which it went out, changes nothing. One that isn't leaves no request outstanding,
/// whatever octets came meanwhile.
pub fn answers_have_their_time()
    ensures { (settings : LinkSettings) (addresses : List ℕ) (calls : List Call) →
        AnswersHaveTheirTime (start settings addresses) None calls }
{}
