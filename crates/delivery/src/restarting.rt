//! What a restart leaves of what was on its way.
ghost use Rattle.std.specs.Prelude.{◌≡◌, ◌<◌, ◌∷◌, ◌++◌, ◌⊎◌, ℕ, List, length, false, Some, None};
ghost use Rattle.std.specs.List.{AllByRecursion};
ghost use Rattle.link.specs.Delivery.{pending_after};
ghost use Rattle.link.specs.Procedure.{holds_command, link_after};
ghost use Rattle.link.specs.declared.procedure.Link.TheVariants.{Down};
ghost use Rattle.link.specs.declared.service.Service.TheVariants.{Command};
ghost use Rattle.gateway.specs.Connections.{present};
ghost use Rattle.gateway.specs.Course.{Course, HasTakenAll, Runs};
ghost use Rattle.gateway.specs.Log.{Log, Came, Went, LineOut, Restarted};
ghost use Rattle.gateway.specs.Reports.{Setup, address_at, exchanges_with};
ghost use Rattle.gateway.specs.Traffic.{IsFaithful};
ghost use Rattle.delivery.specs.FirstSendings.{IsBehind, OpensNone, SendsFirst, SendsNoneFirst};
ghost use Rattle.delivery.specs.FirstSendings.{open_arrivals};
ghost use Rattle.delivery.specs.Joined.{IsSetUp};

use crate::commands::the_course_is_the_logs;
use crate::exchanges::the_line_is_its_exchanges;
use crate::laws::promises_hold_at_each_moment;
use command::waiting_commands_stay;
use gateway::{courses_keep_commands, restarts_give_up_commands};
use link::giving_up_is_logged;

/// A command goes out for the first time on the connection on which it came, and on no other. Each
/// request to the line is no first sending of a command, or that of one which the control centre
/// sent on the connection that is open. While none is open, no command goes out for the first time
/// (that a command doesn't outlive its connection is profile).
pub fn commands_go_out_on_their_own_connection()
    ensures open { (p : Setup) (newer log : Log) (now station : ℕ) (octets : List ℕ) →
        IsFaithful p (newer ++ Went now (LineOut octets) ∷ log) → IsSetUp p →
        (c : Course) × Runs p log c × HasTakenAll (present log) c.talk
        × (SendsNoneFirst p station now octets log
        ⊎ SendsFirst p station now octets log (open_arrivals log c)) }
    ensures shut { (p : Setup) (newer log : Log) (now station : ℕ) (octets : List ℕ) →
        IsFaithful p (newer ++ Went now (LineOut octets) ∷ log) → IsSetUp p →
        (present log).is_open ≡ false → SendsNoneFirst p station now octets log }
{
    the_course_is_the_logs();
    promises_hold_at_each_moment();
    courses_keep_commands();
}

/// No command that came before a restart goes out behind it. None goes out for the first time: a
/// command that does came on the connection that is open, and each ASDU of that came behind the
/// restart. Until the next connection is opened, no command goes out for the first time at all.
/// None goes out again: by the exchanges of the log no station holds one then. Each station whose
/// latest service without an outcome is no command keeps its link as it was: a poll that had no
/// answer is sent again, and no report is lost by a restart (profile).
pub fn no_command_outlives_a_restart()
    ensures first { (p : Setup) (newer since older : Log) (now at station : ℕ)
        (octets : List ℕ) → let log : Log = since ++ Came at Restarted ∷ older in
        IsFaithful p (newer ++ Went now (LineOut octets) ∷ log) → IsSetUp p →
        (c : Course) × Runs p log c × HasTakenAll (present log) c.talk
        × (SendsNoneFirst p station now octets log
        ⊎ SendsFirst p station now octets log (open_arrivals log c))
        × AllByRecursion (λ x. IsBehind at older x.log) (open_arrivals log c) }
    ensures none { (p : Setup) (newer since older : Log) (now at station : ℕ)
        (octets : List ℕ) → let log : Log = since ++ Came at Restarted ∷ older in
        IsFaithful p (newer ++ Went now (LineOut octets) ∷ log) → IsSetUp p →
        OpensNone since → SendsNoneFirst p station now octets log }
    ensures again { (p : Setup) (log : Log) (at station : ℕ) →
        IsFaithful p (Came at Restarted ∷ log) → IsSetUp p → station < length p.addresses →
        holds_command (link_after p.link (address_at p.addresses station) Down
        (exchanges_with p station (Came at Restarted ∷ log))) ≡ false }
    ensures polls { (p : Setup) (log : Log) (at station : ℕ) →
        ((asdu : List ℕ) → pending_after (address_at p.addresses station) None
        (exchanges_with p station log) ≡ Some (Command asdu) → ⊥) →
        exchanges_with p station (Came at Restarted ∷ log) ≡ exchanges_with p station log }
{
    commands_go_out_on_their_own_connection();
    promises_hold_at_each_moment();
    restarts_give_up_commands();
    the_line_is_its_exchanges();
    giving_up_is_logged();
    waiting_commands_stay();
}
