//! What is counted of commands.
ghost use Rattle.std.specs.Prelude.{◌≡◌, ◌∷◌, ◌++◌, ◌+◌, ◌^◌, ◌<◌, ℕ, length, drop};
ghost use Rattle.std.specs.List.{flat_map};
ghost use Rattle.std.specs.Io.Iter.{u64_saturate};
ghost use Rattle.ft12.specs.Fronts.{front_of};
ghost use Rattle.link.specs.Exchanges.{all_of, spoilt_count};
ghost use Rattle.gateway.specs.Accounts.{IsAccounted};
ghost use Rattle.gateway.specs.Course.{Course, here_of, Runs};
ghost use Rattle.gateway.specs.Frames.{first_unacknowledged};
ghost use Rattle.gateway.specs.Line.{done_in};
ghost use Rattle.gateway.specs.Log.{Log};
ghost use Rattle.gateway.specs.Objects.{objects};
ghost use Rattle.gateway.specs.Reports.{Setup, address_at, exchanges_of, reports_in, taken_objects};
ghost use Rattle.gateway.specs.State.{State, counts_of};
ghost use Rattle.gateway.specs.Traffic.{IsFaithful};
ghost use Rattle.delivery.specs.Closing.{AreTaken};
ghost use Rattle.delivery.specs.Joined.{IsSetUp, skipped_among};
ghost use Rattle.delivery.specs.Counts.{lost_of, sum_upto, CameStopped};

use crate::commands::the_course_is_the_logs;
use crate::exchanges::the_line_is_its_exchanges;
use command::{commands_keep_the_rules, waiting_commands_stay};
use gateway::{counts_match_commands, courses_keep_commands};

/// What is counted of commands is what the log shows. `lost` is the number of commands whose
/// station's link went down while they stood on its line, over all stations of the settings: each
/// went out, and was neither confirmed nor refused as busy before. `mirrors` is the number of
/// stations' answers to commands that came while data transfer was stopped, or while there was no
/// connection. Both stay at the greatest number of 64 bits.
pub fn counts_of_commands_are_the_logs()
    ensures lost { (p : Setup) (log : Log) (c : Course) → IsFaithful p log → IsSetUp p →
        Runs p log c → (done_in p log c).serial.counts.lost
        ≡ u64_saturate (sum_upto (lost_of p log) (length p.stations)) }
    ensures mirrors { (p : Setup) (log : Log) (c : Course) → IsFaithful p log → IsSetUp p →
        Runs p log c → (n : ℕ) × CameStopped p log n
        × (c.works.serial.counts.mirrors ≡ u64_saturate n) }
{
    the_course_is_the_logs();
    courses_keep_commands();
    commands_keep_the_rules();
    counts_match_commands();
    the_line_is_its_exchanges();
    waiting_commands_stay();
}

/// What a gateway tells of its run is what the log shows. Kept are the objects taken from the line
/// that no connection has acknowledged, the open one among them, in their order. Each number is
/// told under its own name: the reports that had nothing to be passed on, the answers that came
/// while data transfer was stopped, the commands that were lost, and the exchanges that closed with
/// octets but without an answer. Each stays at the greatest number of 64 bits. (`drive_on` promises
/// `IsAccounted` of the gateway that it leaves.)
pub fn what_a_gateway_tells_is_its_logs()
    ensures kept { (p : Setup) (s : State) (log : Log) → IsAccounted p s log →
        (c : Course) × Runs p log c × AreTaken log c.talk
        × (flat_map objects (s.centre.queue.sent ++ s.centre.queue.unsent)
        ≡ drop (first_unacknowledged (here_of c ∷ c.earlier)) (taken_objects p log)) }
    ensures skipped { (p : Setup) (s : State) (log : Log) → IsFaithful p log → IsSetUp p →
        IsAccounted p s log → (counts_of s).skipped
        ≡ u64_saturate (skipped_among p.sizes (reports_in p log)) }
    ensures mirrors { (p : Setup) (s : State) (log : Log) → IsFaithful p log → IsSetUp p →
        IsAccounted p s log → (n : ℕ) × CameStopped p log n
        × ((counts_of s).mirrors ≡ u64_saturate n) }
    ensures lost { (p : Setup) (s : State) (log : Log) → IsFaithful p log → IsSetUp p →
        IsAccounted p s log → (counts_of s).lost
        ≡ u64_saturate (sum_upto (lost_of p log) (length p.stations)) }
    ensures spoilt { (p : Setup) (s : State) (log : Log) → IsAccounted p s log →
        (counts_of s).spoilt ≡ u64_saturate (spoilt_count (front_of p.link.size)
        (address_at p.addresses) (all_of (exchanges_of p log))) }
{
    the_course_is_the_logs();
    counts_of_commands_are_the_logs();
}
