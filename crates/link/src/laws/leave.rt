//! Polls wait for leave: no report comes that the caller has no room for.
ghost use Rattle.std.specs.Prelude.{◌≡◌, ◌<◌, ◌⊎◌, ℕ, Bool, true, false, List, length, Option};
ghost use Rattle.std.specs.Prelude.{Some, None};
ghost use Rattle.ft12.specs.declared.frame.Front.{Front};
ghost use Rattle.link.specs.Exchanges.{Sending};
ghost use Rattle.link.specs.Turns.{CommandsWaiting, station_at};
ghost use Rattle.link.specs.Primary.{Primary, asked, sending, received, received_outcome};
ghost use Rattle.link.specs.Primary.{timed_out};
ghost use Rattle.link.specs.Holding.{IsFitting};
ghost use Rattle.link.specs.Leave.{is_poll_request, is_polling, is_report, IsLeftToPolls};

/// A report comes only while a poll is going on, and ends it. Without leave no poll is begun, by
/// any call: one goes out only to be sent again.
pub fn polls_wait_for_leave()
    ensures without { (p : Primary) (waiting : CommandsWaiting) (s : Sending) →
        sending p false waiting ≡ Some s →
        is_poll_request s.request ≡ true → is_polling p ≡ true }
    ensures next { (p : Primary) (now : ℕ) (may_poll : Bool) (waiting : CommandsWaiting) →
        is_polling (asked p now may_poll waiting) ≡ true →
        (is_polling p ≡ true) ⊎ (may_poll ≡ true) }
    ensures octets { (front : List ℕ → Front) (p : Primary) (octets : List ℕ) →
        is_polling (received front p octets) ≡ true →
        is_polling p ≡ true }
    ensures due { (p : Primary) (at : ℕ) → is_polling (timed_out p at) ≡ true →
        is_polling p ≡ true }
    ensures report { (front : List ℕ → Front) (p : Primary) (octets : List ℕ) →
        is_report (received_outcome front p octets) ≡ true →
        (is_polling p ≡ true) × (is_polling (received front p octets) ≡ false) }
{}

/// If nothing goes out, nothing is left to be asked of any station but data, and that only for want
/// of leave.
pub fn rests_mean()
    ensures leave { (p : Primary) (may_poll : Bool) (waiting : CommandsWaiting) → IsFitting p →
        p.outstanding ≡ None → sending p may_poll waiting ≡ None → may_poll ≡ false }
    ensures stations { (p : Primary) (may_poll : Bool) (waiting : CommandsWaiting) →
        IsFitting p → p.outstanding ≡ None → sending p may_poll waiting ≡ None →
        (i : ℕ) → i < length p.stations →
        IsLeftToPolls (station_at p.stations i) (waiting i) (station_at p.stations i).link }
{}
