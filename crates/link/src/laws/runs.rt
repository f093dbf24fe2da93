//! What holds of every list of calls of a primary station.
ghost use Rattle.std.specs.Prelude.{◌≡◌, ◌≢◌, ◌<◌, ◌+◌, ◌%◌, ◌↔◌, [], ℕ, suc, Bool, true, false};
ghost use Rattle.std.specs.Prelude.{List};
ghost use Rattle.std.specs.Prelude.{All};
ghost use Rattle.std.specs.Prelude.{length, slice_index, Option, Some, None};
ghost use Rattle.ft12.specs.declared.frame.Front.{Front};
ghost use Rattle.ft12.specs.Fronts.{front_of};
ghost use Rattle.link.specs.Answers.{Status};
ghost use Rattle.std.specs.Io.Iter.{u64_saturate};
ghost use Rattle.link.specs.Exchanges.{Exchanges, OpenExchange, Sending, IsOutstanding};
ghost use Rattle.link.specs.Exchanges.{IsUnanswered, no_exchanges, answer_to, all_of, view, views};
ghost use Rattle.link.specs.Exchanges.{with_station, received_octets, timed, is_spoilt};
ghost use Rattle.link.specs.Exchanges.{spoilt_count};
ghost use Rattle.link.specs.Gaps.{gap_at};
ghost use Rattle.link.specs.Procedure.{LinkSettings, Down, KeepsFrameCountBit, after_silence};
ghost use Rattle.link.specs.Procedure.{link_after};
ghost use Rattle.link.specs.Requests.{FitsAddress};
ghost use Rattle.link.specs.Turns.{Wanted, CommandsWaiting, station_at, wanted};
ghost use Rattle.link.specs.Primary.{Primary, start, sending, received, outcome_of, with_gap};
ghost use Rattle.link.specs.Primary.{received_outcome, timed_out, due_outcome};
ghost use Rattle.link.specs.declared.outcome.Outcome.TheVariants as outcome;
ghost use Rattle.link.specs.Matching.{Matches};
ghost use Rattle.link.specs.Runs.{Call, MayCallAll, called_all, exchanged_all, BeginsTurn};
ghost use Rattle.link.specs.Runs.{HaveNone, first_request, nth_after, silence_outcome};

use ft12::front_is_computed;

/// Whatever is called, the exchanges of a primary station keep the frame count bit of each station:
/// a reset is requested only of a station that isn't up, right after a status that was answered; a
/// status only of one that isn't up, or is silent to a service that has no repeat left.
pub fn frame_count_bits_are_kept()
    ensures { (settings : LinkSettings) (addresses : List ℕ) (calls : List Call) (station : ℕ) →
        0 < length addresses → All (FitsAddress settings.size) addresses →
        MayCallAll (start settings addresses) calls →
        KeepsFrameCountBit settings (slice_index addresses station) Down
        (with_station station (views (front_of settings.size)
        (all_of (exchanged_all (start settings addresses) calls no_exchanges)))) }
{
    front_is_computed();
}

/// Turns go round: the present turn goes on as long as it has a request. Then the first station has
/// its turn, round from the one after the last served, that has a request. If none goes out, none
/// has one. Round means in the order of the stations, and behind the last the first again. The
/// first turn is the first station's.
pub fn turns_go_round()
    ensures goes_on { (p : Primary) (may_poll : Bool) (waiting : CommandsWaiting) (w : Wanted) →
        p.outstanding ≡ None → wanted p.settings.burst may_poll p.again
        (station_at p.stations p.turn) (waiting p.turn) p.phase ≡ Some w →
        sending p may_poll waiting
        ≡ Some (record { station = p.turn; request = w.request }) }
    ensures passes_on { (p : Primary) (may_poll : Bool) (waiting : CommandsWaiting)
        (s : Sending) → p.outstanding ≡ None → wanted p.settings.burst may_poll p.again
        (station_at p.stations p.turn) (waiting p.turn) p.phase ≡ None →
        sending p may_poll waiting ≡ Some s → BeginsTurn p may_poll waiting s }
    ensures comes { (p : Primary) (may_poll : Bool) (waiting : CommandsWaiting) (n : ℕ)
        (w : Wanted) → p.outstanding ≡ None → wanted p.settings.burst may_poll p.again
        (station_at p.stations p.turn) (waiting p.turn) p.phase ≡ None →
        n < length p.stations →
        ((m : ℕ) → m < n → first_request p may_poll waiting
        (nth_after (length p.stations) p.turn (suc m)) ≡ None) →
        first_request p may_poll waiting (nth_after (length p.stations) p.turn (suc n))
        ≡ Some w → sending p may_poll waiting ≡ Some (record {
          station = nth_after (length p.stations) p.turn (suc n);
          request = w.request;
        }) }
    ensures rests { (p : Primary) (may_poll : Bool) (waiting : CommandsWaiting) →
        p.outstanding ≡ None →
        sending p may_poll waiting ≡ None → HaveNone p may_poll waiting }
    ensures order { (count place steps : ℕ) → place < count →
        nth_after count place steps ≡ (place + steps) % count }
    ensures first { (settings : LinkSettings) (addresses : List ℕ) (may_poll : Bool)
        (waiting : CommandsWaiting) → 0 < length addresses →
        sending (start settings addresses) may_poll waiting
        ≡ Some (record { station = 0; request = Status }) }
{}

/// What the caller learns of octets is the answer of the exchange that is outstanding, if they
/// complete it. If a moment closes it, the caller learns of a station whose link is down then. If
/// none is outstanding, nothing happens and nothing is reported.
pub fn outcomes_are_answers()
    ensures octets { (settings : LinkSettings) (addresses : List ℕ) (p : Primary) (e : Exchanges)
        (octets : List ℕ) (x : OpenExchange) →
        Matches settings addresses p e → e.current ≡ Some x →
        IsOutstanding (slice_index addresses x.station) (view (front_of settings.size) x).exchange →
        received_outcome (front_of settings.size) p octets
        ≡ with_gap (gap_at (front_of settings.size) addresses x.station e)
        (outcome_of x.station x.request
        (answer_to (slice_index addresses x.station)
        (view (front_of settings.size) (received_octets octets x)).exchange)) }
    ensures due { (settings : LinkSettings) (addresses : List ℕ) (p : Primary) (e : Exchanges)
        (at : ℕ) (x : OpenExchange) →
        Matches settings addresses p e → e.current ≡ Some x →
        IsOutstanding (slice_index addresses x.station) (view (front_of settings.size) x).exchange →
        (timed settings.answer_ms at x).closed ≡ true →
        due_outcome p at ≡ silence_outcome x.station
        (link_after settings (slice_index addresses x.station) Down
        (with_station x.station (views (front_of settings.size) e.ended)))
        (after_silence settings x.request true
        (link_after settings (slice_index addresses x.station) Down
        (with_station x.station (views (front_of settings.size) e.ended)))) }
    ensures early { (settings : LinkSettings) (addresses : List ℕ) (p : Primary) (e : Exchanges)
        (at : ℕ) (x : OpenExchange) →
        Matches settings addresses p e → e.current ≡ Some x →
        IsOutstanding (slice_index addresses x.station) (view (front_of settings.size) x).exchange →
        (timed settings.answer_ms at x).closed ≡ false →
        (timed_out p at ≡ p) × (due_outcome p at ≡ outcome.None) }
    ensures none { (settings : LinkSettings) (addresses : List ℕ) (p : Primary) (e : Exchanges)
        (octets : List ℕ) (at : ℕ) →
        Matches settings addresses p e →
        ((x : OpenExchange) → e.current ≡ Some x →
        IsOutstanding (slice_index addresses x.station) (view (front_of settings.size) x).exchange →
        ⊥) →
        (received (front_of settings.size) p octets ≡ p)
        × (received_outcome (front_of settings.size) p octets ≡ outcome.None)
        × (timed_out p at ≡ p) × (due_outcome p at ≡ outcome.None) }
{}

/// Whatever is called, the count of spoilt exchanges is how many of the line's exchanges were
/// closed, have octets and aren't answered, at most the greatest of 64 bits.
pub fn spoilt_exchanges_are_counted()
    ensures count { (settings : LinkSettings) (addresses : List ℕ) (calls : List Call) →
        0 < length addresses → All (FitsAddress settings.size) addresses →
        MayCallAll (start settings addresses) calls →
        (called_all (start settings addresses) calls).spoilt
        ≡ u64_saturate (spoilt_count (front_of settings.size) (λ i. slice_index addresses i)
        (all_of (exchanged_all (start settings addresses) calls no_exchanges))) }
    ensures spoilt { (front : List ℕ → Front) (address : ℕ) (x : OpenExchange) →
        (is_spoilt front address x ≡ true) ↔
        ((x.octets ≢ []) × IsUnanswered address (view front x).exchange) }
{
    front_is_computed();
}
