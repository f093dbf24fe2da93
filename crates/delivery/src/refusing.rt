//! What is refused, and by which octets that is said.
ghost use Rattle.std.specs.Prelude.{◌≡◌, ◌<◌, ◌≤◌, ◌%◌, ◌++◌, ◌∷◌, ℕ, List, Option, Some, None};
ghost use Rattle.std.specs.Prelude.{length, slice_index};
ghost use Rattle.command.specs.History.{History, Judged, Refused, Sent, next_for};
ghost use Rattle.command.specs.Standard.{cause_of_fault};
ghost use Rattle.gateway.specs.Course.{Course, Runs};
ghost use Rattle.gateway.specs.Log.{Log};
ghost use Rattle.gateway.specs.Reports.{Setup};
ghost use Rattle.delivery.specs.Refusing.{StaysOnLine, refused_as};

use gateway::courses_keep_commands;

/// An ASDU that is refused comes back with P/N 1 and a cause of its own (IEC 60870-5-101, 7.2.3).
/// Its test bit and all its other octets are as they came. The cause is that of its fault, 44 to 47
/// among them. If nothing is wrong with it, the cause is 7 for an activation and 9 for a
/// deactivation. So it is for a command that its station refused as busy, whatever becomes of other
/// commands meanwhile.
pub fn refused_commands_come_back_with_their_cause()
    ensures fault { (p : Setup) (log : Log) (c : Course) (newer older : History) (now why : ℕ)
        (wall : Option ℕ) (xs answer : List ℕ) → Runs p log c →
        c.works.history ≡ newer ++ Judged now wall xs (Some answer) ∷ older →
        3 ≤ length xs → slice_index xs 2 < 256 →
        cause_of_fault p.sizes p.stations p.max_age_ms wall xs ≡ Some why →
        answer ≡ refused_as why xs }
    ensures activation { (p : Setup) (log : Log) (c : Course) (newer older : History) (now : ℕ)
        (wall : Option ℕ) (xs answer : List ℕ) → Runs p log c →
        c.works.history ≡ newer ++ Judged now wall xs (Some answer) ∷ older →
        3 ≤ length xs → slice_index xs 2 < 256 → slice_index xs 2 % 64 ≡ 6 →
        cause_of_fault p.sizes p.stations p.max_age_ms wall xs ≡ None →
        answer ≡ refused_as 7 xs }
    ensures deactivation { (p : Setup) (log : Log) (c : Course) (newer older : History) (now : ℕ)
        (wall : Option ℕ) (xs answer : List ℕ) → Runs p log c →
        c.works.history ≡ newer ++ Judged now wall xs (Some answer) ∷ older →
        3 ≤ length xs → slice_index xs 2 < 256 → slice_index xs 2 % 64 ≡ 8 →
        cause_of_fault p.sizes p.stations p.max_age_ms wall xs ≡ None →
        answer ≡ refused_as 9 xs }
    ensures busy { (p : Setup) (log : Log) (c : Course) (newer since older : History) (k : ℕ)
        (octets xs : List ℕ) (answer : Option (List ℕ)) → Runs p log c →
        c.works.history ≡ newer ++ Refused k answer ∷ (since ++ Sent k octets ∷ older) →
        StaysOnLine k since →
        next_for p.sizes p.stations p.select_ms p.max_age_ms k older ≡ Some xs →
        3 ≤ length xs → slice_index xs 2 < 256 →
        (slice_index xs 2 % 64 ≡ 6 → answer ≡ Some (refused_as 7 xs))
        × (slice_index xs 2 % 64 ≡ 8 → answer ≡ Some (refused_as 9 xs)) }
{
    courses_keep_commands();
}
