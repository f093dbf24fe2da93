//! What holds of the definitions.
pub(crate) mod going_on;
pub(crate) mod going_out;
pub(crate) mod ordering;
pub(crate) mod passing_on;
pub(crate) mod restarts;
pub(crate) mod stepping;
pub(crate) mod turning;
pub(crate) mod walls;

ghost use Rattle.std.specs.Prelude.{◌≡◌, ◌↔◌, ℕ, List, [], ◌∷◌, Some, None, true};
ghost use Rattle.std.specs.Prelude.{false};
ghost use Rattle.session.specs.declared.kinds.Close.{Close};
ghost use Rattle.gateway.specs.Config.{Settings};
ghost use Rattle.gateway.specs.Setups.{setup_of};
ghost use Rattle.gateway.specs.Log.{Log, Came, LineIn};
ghost use Rattle.gateway.specs.Log.{latest};
ghost use Rattle.gateway.specs.declared.ports.Next.TheVariants as answers;
ghost use Rattle.gateway.specs.Reports.{Setup};
ghost use Rattle.gateway.specs.Connections.{present, ends};
ghost use Rattle.gateway.specs.Course.{Course, HasTakenAll, IsLeft, Runs, came_frames};
ghost use Rattle.gateway.specs.Given.{due_in, GivesWhatIsDue, GivesAnswer, KeepsAnswerBack};
ghost use Rattle.gateway.specs.Serial.{answer_outcome};
ghost use Rattle.gateway.specs.Frames.{transfers};
ghost use Rattle.gateway.specs.Conversation.{KeepsCommands};
ghost use Rattle.gateway.specs.One.{AreOne};
ghost use Rattle.std.specs.Io.Iter.{u64_saturate};
ghost use Rattle.gateway.specs.Line.{done_in};
ghost use Rattle.gateway.specs.Tallies.{given_up_in, unpassed_in};
ghost use Rattle.gateway.specs.Works.{tasks_of};
ghost use Rattle.gateway.specs.State.{State, IsBetweenSteps, counts_of};
ghost use Rattle.gateway.specs.Agrees.{Follows};
ghost use Rattle.gateway.specs.Restored.{HasSettings};
ghost use Rattle.gateway.specs.Traffic.{HasCause};

use apci::{one_front, spellings_cancel};
use asdu::{objects_are_those_of_the_asdu, one_asdu_one_spelling};
use command::{commands_keep_the_rules, faultless_commands_pass};
use link::line_keeps_the_procedures;

/// A log has one course: of two courses one goes on from the other by frames of the latest event's
/// octets. If all whole frames that came are taken, as after each step, they are the same. So each
/// promise about a log speaks of the same connections, the same history, and the same works of the
/// line and of commands.
pub fn one_course()
    ensures so_far { (p : Setup) (log : Log) (c d : Course) → Runs p log c → Runs p log d →
        AreOne p log c d }
    ensures whole { (p : Setup) (log : Log) (c d : Course) → Runs p log c → Runs p log d →
        HasTakenAll (present log) c.talk → HasTakenAll (present log) d.talk → c ≡ d }
{
    one_front();
    spellings_cancel();
    one_asdu_one_spelling();
    objects_are_those_of_the_asdu();
    line_keeps_the_procedures();
}

/// Of a log at most one cause to close the connection stands: so the one that is reported is the
/// first in the order of a step.
pub fn one_cause()
    ensures { (p : Setup) (log : Log) (a b : Close) → ends a ≡ true → ends b ≡ true →
        HasCause p a log → HasCause p b log → a ≡ b }
{
    one_front();
    spellings_cancel();
    one_asdu_one_spelling();
    objects_are_those_of_the_asdu();
    line_keeps_the_procedures();
}

/// What became of commands in a course keeps the rules: each went to the line in turn and once, and
/// each was answered as the first rule that applies has it. As many wait, over all stations, as
/// were forwarded on the connection and not sent, and each that has to pass was forwarded.
pub fn courses_keep_commands()
    // The course folds the commands' machine; these are the standard's rules, of the history that
    // it leaves (docs/DECISIONS.md, "Commands by their machine").
    ensures { (p : Setup) (log : Log) (c : Course) → Runs p log c →
        KeepsCommands p (tasks_of c.works) }
{
    commands_keep_the_rules();
    faultless_commands_pass();
}

/// What is counted of commands (`IsAccounted` speaks of the same numbers) is what became of them in
/// the course: `lost` are those that stood on a line and were given up, `mirrors` the answers of
/// stations to commands that weren't passed on. Both stay at the greatest number of 64 bits. What
/// `Gateway::counts` tells under each name is the number of that name.
pub fn counts_match_commands()
    ensures told { (s : State) → ((counts_of s).skipped ≡ s.serial.counts.skipped)
        × ((counts_of s).mirrors ≡ s.serial.counts.mirrors)
        × ((counts_of s).lost ≡ s.serial.counts.lost)
        × ((counts_of s).spoilt ≡ s.serial.line.spoilt) }
    ensures lost { (p : Setup) (log : Log) (c : Course) → Runs p log c →
        (done_in p log c).serial.counts.lost
        ≡ u64_saturate (given_up_in (done_in p log c).history) }
    ensures mirrors { (p : Setup) (log : Log) (c : Course) → Runs p log c →
        (done_in p log c).serial.counts.mirrors
        ≡ u64_saturate (unpassed_in false (done_in p log c).history) }
{}

/// Between two steps nothing of the step before is left to be reported or to be taken.
pub fn steps_leave_nothing_open()
    ensures { (p : Setup) (s : State) (log : Log) → Follows p s (Some log) → IsBetweenSteps s }
{}

/// A gateway keeps its settings: a state that follows a log of a gateway with these settings has
/// them.
pub fn settings_are_kept()
    ensures { (c : Settings) (s : State) (log : Log) → Follows (setup_of c) s (Some log) →
        HasSettings c s }
{
    commands_keep_the_rules();
}

/// What is due to the control centre is given. An ASDU that isn't forwarded, and a command that a
/// busy station had, is followed in what became of commands by its answer, handed over once, and
/// nothing is left due when an event comes. While data transfer runs a station's answer to a
/// command is handed over by all pieces that carry it, with the tag of the newest command that it
/// may answer, up to one that finds no place (which closes the connection). While it is stopped
/// nothing of such an answer is handed over. Nothing else ever is: no answer and no piece stands
/// twice.
pub fn what_is_due_is_given()
    ensures answers { (p : Setup) (log : Log) (c : Course) → Runs p log c →
        GivesWhatIsDue p.sizes c.works.history × (due_in c.works.history ≡ None) }
    ensures stations { (p : Setup) (log : Log) (at : ℕ) (octets : List ℕ) (c : Course) →
        Runs p (Came at (LineIn octets) ∷ log) c →
        (before : Course) × (left : Course) × Runs p log before × IsLeft p log before left
        × (transfers (came_frames left.talk) ≡ true →
        GivesAnswer p (latest (Came at (LineIn octets) ∷ log))
        (answer_outcome octets left.works.serial) left.works.history c.works.history)
        × (transfers (came_frames left.talk) ≡ false →
        KeepsAnswerBack p (latest (Came at (LineIn octets) ∷ log))
        (answer_outcome octets left.works.serial) left.works.history c.works.history) }
{
    commands_keep_the_rules();
}
