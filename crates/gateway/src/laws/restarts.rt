//! Restarts, on logs.
ghost use Rattle.std.specs.Prelude.{◌≡◌, ◌∷◌, ℕ};
ghost use Rattle.gateway.specs.Log.{Log, Output, Restarted, Came, Went, latest};
ghost use Rattle.gateway.specs.Connections.{present};
ghost use Rattle.gateway.specs.Reports.{Setup};
ghost use Rattle.gateway.specs.Course.{Course, IsLeft, Runs};
ghost use Rattle.gateway.specs.Restarts.{GivesUpCommands};
ghost use Rattle.gateway.specs.Traffic.{IsFaithful};

use link::{giving_up_is_for_one_station, restarts_change_no_link};

/// What a restart is in a log, whose lives are one run. It stands at the moment of the step before.
/// In its course each command without an answer is given up, and the connection is over; of no
/// station is it known then whether it was restarted, too; nothing else changes of what that step
/// left. On each faithful log nothing goes out at a restart: neither
/// a request, nor a frame, nor a close or a gap.
pub fn restarts_give_up_commands()
    ensures course { (p : Setup) (log : Log) (at : ℕ) (c : Course) →
        Runs p (Came at Restarted ∷ log) c →
        (before : Course) × (left : Course) × Runs p log before × IsLeft p log before left
        × (latest (Came at Restarted ∷ log) ≡ latest log)
        × GivesUpCommands (present log).is_open left c }
    ensures quiet { (p : Setup) (log : Log) (at now : ℕ) (action : Output) →
        IsFaithful p (Went now action ∷ Came at Restarted ∷ log) → ⊥ }
{
    giving_up_is_for_one_station();
    restarts_change_no_link();
}
