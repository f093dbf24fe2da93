//! Gaps reported: which answered resets end a session whose last report may be lost.
ghost use Rattle.std.specs.Prelude.{◌≡◌, ◌⊎◌, ◌++◌, ◌∷◌, ℕ, List, length, Option};
ghost use Rattle.std.specs.Prelude.{if◌then◌else◌};
ghost use Rattle.ft12.specs.declared.frame.LinkSize.{LinkSize};
ghost use Rattle.ft12.specs.Fronts.{front_of};
ghost use Rattle.link.specs.Delivery.{IsHonest, sessions};
ghost use Rattle.link.specs.Exchanges.{Exchange, Exchanges, Sending, received_current};
ghost use Rattle.link.specs.Exchanges.{timed_current};
ghost use Rattle.link.specs.Exchanges.{begun_by};
ghost use Rattle.link.specs.Gaps.{gaps_in, gaps_at, ended_with_gap};
ghost use Rattle.link.specs.Outstation.{Turn};
ghost use Rattle.link.specs.Procedure.{LinkSettings, Down, KeepsFrameCountBit};
ghost use Rattle.link.specs.Primary.{Primary, received, received_outcome};
ghost use Rattle.link.specs.declared.outcome.Outcome.TheVariants as outcome;
ghost use Rattle.link.specs.Matching.{Matches, gap_in_outcome};

use ft12::front_is_computed;

/// Through the calls of a primary station, the sessions of a station that ended with a gap, by its
/// exchanges, grow by exactly those that the outcomes report. (That an answered reset without a gap
/// is reported as a start is said of all outcomes, by `outcomes_are_answers`.)
pub fn gaps_are_reported()
    ensures octets { (settings : LinkSettings) (addresses : List ℕ) (p : Primary) (e : Exchanges)
        (octets : List ℕ) (station : ℕ) → Matches settings addresses p e →
        gaps_at (front_of settings.size) addresses station
        (record { ended = e.ended; current = received_current octets e.current })
        ≡ gaps_at (front_of settings.size) addresses station e
        ++ gap_in_outcome station (received_outcome (front_of p.settings.size) p octets) }
    ensures due { (size : LinkSize) (addresses : List ℕ) (answer_ms at : ℕ) (e : Exchanges)
        (station : ℕ) →
        gaps_at (front_of size) addresses station
        (record { ended = e.ended; current = timed_current answer_ms at e.current })
        ≡ gaps_at (front_of size) addresses station e }
    ensures next { (size : LinkSize) (addresses : List ℕ) (now : ℕ) (s : Option Sending)
        (e : Exchanges)
        (station : ℕ) →
        gaps_at (front_of size) addresses station (begun_by now s e)
        ≡ gaps_at (front_of size) addresses station e }
{
    front_is_computed();
}

/// The sessions that ended with a gap are those, between two confirmed resets and counted from 1,
/// whose latest service is a poll that wasn't answered by data or that there are none: what comes
/// before the first reset is none of them.
pub fn gaps_are_ended_sessions()
    ensures ended { (settings : LinkSettings) (station : ℕ) (xs : List Exchange)
        (turns : List Turn) →
        KeepsFrameCountBit settings station Down xs → length xs ≡ length turns →
        gaps_in station xs ≡ ended_with_gap station 1 (sessions station xs turns) }
    ensures honest { (station : ℕ) (xs : List Exchange) (turns : List Turn) →
        IsHonest station xs turns → length xs ≡ length turns }
{}
