//! The way of a command: the course of a log is that of its exchanges, and each command is one of
//! the control centre's, given once.
ghost use Rattle.std.specs.Prelude.{◌≡◌, ◌⊎◌, ◌<◌, ◌≤◌, ℕ, List, [], ◌∷◌, length, None};
ghost use Rattle.std.specs.Prelude.{◌++◌, Option, true, false};
ghost use Rattle.ft12.specs.declared.frame.LinkSize.TheVariants as link_size;
ghost use Rattle.asdu.specs.declared.sizes.CaSize.TheVariants as ca_size;
ghost use Rattle.link.specs.Outstation.{Turn, all_done};
ghost use Rattle.link.specs.Delivery.{commands};
ghost use Rattle.command.specs.History.{AnswersWholly, History, Judged, IsSelected};
ghost use Rattle.command.specs.Passing.{FindsPlaces};
ghost use Rattle.command.specs.Standard.{cause_of_fault, executes, must_be_selected};
ghost use Rattle.gateway.specs.Course.{Course, here_of, Runs};
ghost use Rattle.gateway.specs.Log.{Log};
ghost use Rattle.gateway.specs.Reports.{Setup, address_at, exchanges_with};
ghost use Rattle.gateway.specs.Traffic.{IsFaithful};
ghost use Rattle.delivery.specs.Arrivals.{arrivals};
ghost use Rattle.delivery.specs.Commands.{first_sendings, AreCommandsOf};
ghost use Rattle.delivery.specs.Delivery.{IsHonest};
ghost use Rattle.delivery.specs.Joined.{IsSetUp, IsJoined};
ghost use Rattle.delivery.specs.OwnAnswers.{GivesAnswers, GivesNoMore};

use crate::exchanges::the_line_is_its_exchanges;
use apci::one_front;
use command::{own_answers_are_given, waiting_commands_stay};
use gateway::{courses_keep_commands, what_is_due_is_given};
use link::{commands_are_accepted, sessions_are_known};

/// The course of a log says of the line what its exchanges say: its primary station is what they
/// make it. Which command went out for the first time, which was confirmed and which found the link
/// busy is, in the same order, what they show. What stands on a line is given up exactly when they
/// show that its link goes down. A station's answer to a command is a report that was taken. What
/// was judged are the ASDUs of the I frames of the log's connections, each with what the wall clock
/// showed by the log at the event that brought the frame's last octet. What it counts as skipped is
/// how many of the log's reports have nothing to be passed on and answer no command.
pub fn the_course_is_the_logs()
    ensures { (p : Setup) (log : Log) (c : Course) → IsFaithful p log → IsSetUp p → Runs p log c →
        IsJoined p log c }
{
    the_line_is_its_exchanges();
    waiting_commands_stay();
    one_front();
}

/// Each command that is put on the line for the first time is the ASDU of one I frame that the
/// log's connections received, in the order in which they came, each at most once. On the line it
/// has the line's sizes, the station's own common address, and no time tag: types 58 to 62 (IEC
/// 60870-5-104, 8) go out as 45 to 49. An activation that came with a time tag had a good one, a
/// wall moment stood before it in the log, and by that the tag was at most `max_age_ms` off when
/// the frame's last octet came. All this holds of each command that an honest outstation accepted
/// too, whatever is lost, whatever times out, and however often the link is reset. (The connections
/// of the course are those of the log: `IsFaithful`.)
pub fn each_command_is_given_once()
    // A sublist, and no equation: a command that still waits when its connection ends is taken back
    // (docs/DECISIONS.md, "The commands' half of the theorem").
    ensures sent { (p : Setup) (log : Log) (i : ℕ) (f : IsFaithful p log) → IsSetUp p →
        AreCommandsOf p i (arrivals log (here_of f.course ∷ f.course.earlier))
        (first_sendings (address_at p.addresses i) None (exchanges_with p i log)) }
    ensures accepted { (p : Setup) (log : Log) (i : ℕ) (turns : List Turn)
        (f : IsFaithful p log) → IsSetUp p → i < length p.addresses → IsHonest p log i turns →
        AreCommandsOf p i (arrivals log (here_of f.course ∷ f.course.earlier))
        (commands (all_done turns)) }
{
    the_course_is_the_logs();
    courses_keep_commands();
    sessions_are_known();
    commands_are_accepted();
}

/// A command that has no fault is forwarded if its station asks for no select. So is each execute
/// that is selected. Both need their places among the 64 commands that may wait. So none of these
/// is refused without a reason (IEC 60870-5-101, 7.2.6; the 64 places are profile).
pub fn faultless_commands_are_forwarded()
    ensures direct { (p : Setup) (log : Log) (c : Course) (newer older : History) (now : ℕ)
        (wall : Option ℕ) (xs : List ℕ) (answer : Option (List ℕ)) → Runs p log c →
        c.works.history ≡ newer ++ Judged now wall xs answer ∷ older →
        cause_of_fault p.sizes p.stations p.max_age_ms wall xs ≡ None →
        FindsPlaces p.stations xs older → must_be_selected p.stations xs ≡ false →
        answer ≡ None }
    ensures selected { (p : Setup) (log : Log) (c : Course) (newer older : History) (now : ℕ)
        (wall : Option ℕ) (xs : List ℕ) (answer : Option (List ℕ)) → Runs p log c →
        c.works.history ≡ newer ++ Judged now wall xs answer ∷ older →
        cause_of_fault p.sizes p.stations p.max_age_ms wall xs ≡ None →
        FindsPlaces p.stations xs older → executes xs ≡ true →
        IsSelected p.sizes p.stations p.select_ms p.max_age_ms xs now older → answer ≡ None }
{
    courses_keep_commands();
}

/// Each ASDU of the control centre that is refused is answered (IEC 60870-5-101, 7.2.3), and so is
/// each command that found its station busy while its connection is open. The answer is the whole
/// ASDU that came, with the cause of the first rule that applies: 44 to 47, or a negative
/// confirmation. It is handed over right behind, once, before anything else becomes of commands.
/// Behind what is forwarded nothing is handed over. Nothing else ever is but stations' answers
/// (`each_answer_is_given_once`). Behind one of these no more is handed over than carries it, even
/// if nothing else becomes of commands for a long time.
pub fn what_is_refused_is_answered()
    ensures given { (p : Setup) (log : Log) (c : Course) → Runs p log c →
        GivesAnswers [] c.works.history }
    ensures no_more { (p : Setup) (log : Log) (c : Course) → Runs p log c →
        GivesNoMore p.sizes 0 c.works.history }
    ensures answers { (p : Setup) (log : Log) (c : Course) → Runs p log c →
        AnswersWholly p.sizes p.stations p.select_ms p.max_age_ms c.works.history }
{
    what_is_due_is_given();
    courses_keep_commands();
    own_answers_are_given();
}
