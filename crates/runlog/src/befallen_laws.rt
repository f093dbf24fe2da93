//! Laws of the station that answers, commands and mishaps are noted of, of what passes a run that
//! is watched, of APDUs that come in a step, and of how a run ends.
ghost use Rattle.std.specs.Prelude.{◌≡◌, ℕ, ◌+◌, ◌%◌, ◌<◌, ◌≤◌, List, ◌∷◌, ◌++◌};
ghost use Rattle.std.specs.Prelude.{[], ◌-◌, take, ◌≢◌, ◌⊎◌};
ghost use Rattle.gateway.specs.Log.{Output};
ghost use Rattle.gateway.specs.State.{State};
ghost use Rattle.gateway.specs.declared.ports.Next.{Next};
ghost use Rattle.live.specs.declared.watched.EndsSight.{EndsSight};
ghost use Rattle.live.specs.declared.watched.Failure.TheVariants as failure;
ghost use Rattle.runlog.specs.Befallen.{IsFollowed, IsWatched};
ghost use Rattle.runlog.specs.Inbox as inbox;
ghost use Rattle.runlog.specs.Latest.{shown_behind};
ghost use Rattle.runlog.specs.Logging.{Book, LogsAction, LogsEach, LogsEventSeeing, LogsLook};
ghost use Rattle.runlog.specs.Passing.{Between, Came, Went};
ghost use Rattle.runlog.specs.declared.fate.CommandFate.TheVariants as fate;
ghost use Rattle.runlog.specs.declared.fate.Mishap.TheVariants as mishap;
ghost use Rattle.runlog.specs.declared.note.LogLine.{LogLine};
ghost use Rattle.runlog.specs.declared.note.Note.TheVariants as note;

/// Each event, each action and each look at the gateway is known to those who look, and has its
/// line if the log goes on: of that very event, with what was seen then, at that moment, and of
/// that very gateway. Of all lines so far, but for those of counts, the latest 20 are known to
/// those who look, none left out, in their order.
pub fn what_passes_is_known_and_logged()
    ensures event { (sight : EndsSight) (old new : Book) (event : Next) (octets : List ℕ) →
        IsWatched old → LogsEventSeeing sight old event octets new →
        IsFollowed (Came event octets sight) old new }
    ensures action { (old new : Book) (now : ℕ) (action : Output) → IsWatched old →
        LogsAction old now action new → IsFollowed (Went now action) old new }
    ensures look { (old new : Book) (gateway : State) → IsWatched old →
        LogsLook old gateway new → IsFollowed (Between gateway) old new }
    ensures latest { (lines before : List LogLine) (old new : Book) → LogsEach lines old new →
        old.watching.latest ≡ take 20 before →
        new.watching.latest ≡ take 20 (shown_behind lines before) }
{}
