//! What of a run's ends is seen by its log and by its page, and what is said of a run.
ghost use Rattle.std.specs.Prelude.{◌≡◌, ◌⊎◌, ◌<◌, ◌+◌, ◌||◌, ◌∷◌, ◌++◌, ℕ, List, not};
ghost use Rattle.std.specs.Prelude.{Bool, None, Result, Some, true};
ghost use Rattle.std.specs.Borrow.{Bor};
ghost use Rattle.std.specs.Option.{is_some, option_or};
ghost use Rattle.clap.specs.Words.{Text};
ghost use Rattle.gateway.specs.Config.{Settings};
ghost use Rattle.gateway.specs.Log.{Log};
ghost use Rattle.gateway.specs.Reports.{Setup};
ghost use Rattle.gateway.specs.Restored.{IsSavable};
ghost use Rattle.gateway.specs.Setups.{setup_of};
ghost use Rattle.gateway.specs.State.{State, IsBetweenSteps};
ghost use Rattle.record.specs.Recording.{Recorded};
ghost use Rattle.settings.specs.Live.{Places};
ghost use Rattle.settings.specs.Site.{SiteNames, SiteValues, names_of};
ghost use Rattle.state.specs.Both.{Both};
ghost use Rattle.state.specs.Deeds.{AreRight, Deeds, heads};
ghost use Rattle.state.specs.Keeping.{Keeping};
ghost use Rattle.state.specs.Returns.{HasReturned};
ghost use Rattle.state.specs.declared.beginning.Origin.{Origin};
ghost use Rattle.live.specs.Ends.{LiveEnds};
ghost use Rattle.live.specs.Redial.{Redial};
ghost use Rattle.live.specs.Runs.{ShowsRun};
ghost use Rattle.live.specs.Streams.{Calls};
ghost use Rattle.live.specs.declared.watched.EndsSight.{EndsSight};
ghost use Rattle.telegate.specs.AllowLists.{IsAllowListOf};
ghost use Rattle.telegate.specs.Asked.{Asked, LineAt, ListenAt, LogAt, RecordAt};
ghost use Rattle.telegate.specs.Asked.{SiteCall, StateIn, StatusAt, call_if};
ghost use Rattle.telegate.specs.CommandLine.{text_of, texts_of};
ghost use Rattle.telegate.specs.ManyLives.{ComesBehind, HasKeptOn, IsHeadIn, IsHeadUpTo};
ghost use Rattle.telegate.specs.ManyLives.{IsLastOfLives, IsUpTo};
ghost use Rattle.telegate.specs.Ran.{HasLivedAs, RunLeft};
ghost use Rattle.telegate.specs.Starts.{StartsIn};
ghost use Rattle.telegate.specs.Turns.{AllLooked, HasGoneOn, RunStanding};
ghost use Rattle.telegate.specs.Wishes.{AreWishes, Said, said_by, said_in, said_of};
ghost use Rattle.telegate.specs.declared.host.Wishes.{Wishes};
ghost use Rattle.telegate.specs.declared.run_words.RunWords.{RunWords};
ghost use Rattle.telegate.specs.declared.running.DeviceFailed.{DeviceFailed};
ghost use Rattle.telegate.specs.declared.site.ProcessLine.TheVariants.{Once, Again};

use crate::living::Kept;
use crate::site::{ReturningLine, RunSite, SystemLine};
use gateway::steps_leave_nothing_open;
use live::{LineSocket, Live, OctetStream, Watched};
use record::Recorder;
use sqlite_disk::Disk;
use state::{Beginning, Store};

/// The line of the program.
type ProgramLine = SystemLine<'static, HostRuntime>;

/// The port of a run that keeps no state.
type PortAnew<T> = Recorder<
    Live<<T as RunSite>::Line, <T as RunSite>::Listener, <T as RunSite>::Clock>,
    <T as RunSite>::Sheet,
>;

/// The port of a run whose state is kept.
type PortKept<T> = Recorder<Kept<T>, <T as RunSite>::Sheet>;

/// The line of the program is there as the stream is that it holds, and says so.
pub fn the_line_is_there_as_its_stream_is()
    ensures once { (line : Calls) →
        ⟦<ProgramLine as OctetStream>⟧.presence (Once line)
        ≡ ⟦<LineSocket as OctetStream>⟧.presence line }
    ensures again { (line : Redial) →
        ⟦<ProgramLine as OctetStream>⟧.presence (Again line)
        ≡ ⟦<ReturningLine<'static, HostRuntime> as OctetStream>⟧.presence line }
{}

/// A sight that shows the port of a run shows the live ends inside it, whatever its record and the
/// lives before it are, and with a state on the disk as without one.
pub fn sights_show_the_ends<T: RunSite>()
    ensures anew { (run : _) (sight : EndsSight) →
        ⟦<PortAnew<T> as Watched>⟧.shows run sight → ShowsRun run.port sight }
    ensures kept { (run : _) (sight : EndsSight) →
        ⟦<PortKept<T> as Watched>⟧.shows run sight → ShowsRun run.port.ends.port sight }
{}

/// Each value of a site's file reaches the run under its own name: flags, the state's directory,
/// who may connect, and the status listener. So does each word. What words say of a value wins, and
/// a flag is set if either says so. What is said is what the run is wished to do.
pub fn what_is_said_keeps_its_name()
    ensures site { (s : SiteValues) → ((said_in s).redial ≡ s.flags.redial)
        × ((said_in s).log ≡ s.flags.log) × ((said_in s).log_severity ≡ s.flags.log_severity)
        × ((said_in s).or_stop ≡ s.flags.state_or_stop) × ((said_in s).state ≡ s.places.state)
        × ((said_in s).recorded ≡ s.flags.record) × ((said_in s).allow ≡ s.places.allow)
        × ((said_in s).status ≡ s.places.status) }
    ensures words { (w : RunWords) → ((said_by w).redial ≡ w.redial) × ((said_by w).log ≡ w.log)
        × ((said_by w).log_severity ≡ w.log_severity) × ((said_by w).recorded ≡ w.record)
        × ((said_by w).or_stop ≡ w.state_or_stop) × ((said_by w).state ≡ text_of w.state)
        × ((said_by w).allow ≡ texts_of w.allow) × ((said_by w).status ≡ text_of w.status) }
    ensures wins { (words site : Said) →
        ((said_of words site).redial ≡ (words.redial || site.redial))
        × ((said_of words site).log ≡ (words.log || site.log))
        × ((said_of words site).log_severity ≡ (words.log_severity || site.log_severity))
        × ((said_of words site).recorded ≡ (words.recorded || site.recorded))
        × ((said_of words site).or_stop ≡ (words.or_stop || site.or_stop))
        × ((said_of words site).state ≡ option_or words.state site.state)
        × ((said_of words site).allow ≡ option_or words.allow site.allow)
        × ((said_of words site).status ≡ option_or words.status site.status) }
    ensures wished { (s : Said) (names : SiteNames) (w : Wishes) → AreWishes s names w →
        (w.redial ≡ s.redial) × (w.log ≡ s.log) × (w.log_severity ≡ s.log_severity)
        × (w.record ≡ s.recorded) × (w.bears_loss ≡ not s.or_stop)
        × (text_of w.state ≡ s.state) × IsAllowListOf s.allow w.allow_list
        × (text_of w.status ≡ s.status) × (names_of w.names.now ≡ names) }
{}

/// What is left of a live run that is over is as its wishes name it: it was logged and recorded if
/// that was wished, watched and shown if a place is named for that, and these could connect. If its
/// state was kept, it bore the loss of that if that was wished.
#[tactic(auto, using(crate::proofs::RanLemmas::as_wished, crate::proofs::RanLemmas::bears_as_wished))]
pub fn runs_are_as_they_were_wished<T: RunSite>()
    ensures all { (c : Settings) (w : Wishes) (old new : Asked) (left : RunLeft)
        (ended : Result (Unit {0}) DeviceFailed) →
        HasLivedAs (StartsIn T.Folder.File.Disk w c old.lineage) c w old new left ended →
        (left.book.is_wished ≡ w.log) × (left.pen.is_wished ≡ w.record)
        × (left.book.is_watching ≡ is_some w.status) × (left.is_shown ≡ is_some w.status)
        × (left.port.allow_list ≡ w.allow_list) }
    ensures bears { (c : Settings) (w : Wishes) (old new : Asked)
        (left : RunLeft) (ended : Result (Unit {0}) DeviceFailed) (directory : Bor Text) →
        HasLivedAs (StartsIn T.Folder.File.Disk w c old.lineage) c w old new left ended →
        w.state ≡ Some directory →
        left.bears_loss ≡ Some w.bears_loss }
{}

/// A live run that is over asked its site, if that notes its calls, for each of these once, and got
/// it: the log, the listener for visitors at the place that is named for them, the record, the
/// directory that is named for the state, the listener and the line at the places of the settings,
/// and one clock. The line was to be reached again if that was wished.
#[tactic(auto, using(crate::proofs::RanLemmas::asked_as_wished))]
pub fn runs_ask_for_the_places_of_their_settings<T: RunSite>()
    ensures { (c : Settings) (w : Wishes) (places : Places) (lineage : Log)
        (before : List SiteCall) (moments : List ℕ) (new : Asked) (left : RunLeft)
        (ended : Result (Unit {0}) DeviceFailed) →
        HasLivedAs (StartsIn T.Folder.File.Disk w c lineage) c w (record {
          places = places;
          lineage = lineage;
          calls = Some before;
          clocks = Some moments;
        }) new left ended →
        (moment : ℕ) × (new.calls ≡ Some (LineAt places.line w.redial true
        ∷ ListenAt places.listen true
        ∷ call_if StateIn w.state ++ RecordAt ∷ call_if StatusAt w.status ++ LogAt ∷ before))
        × (new.clocks ≡ Some (moment ∷ moments)) }
{}

/// The clock of a live run begins where its gateway stands: at 0 if it begins anew, and if it goes
/// on, at the moment of the gateway that it goes on with. So no timer of that stands still for as
/// long as the lives before have lasted. What passed in these is what that gateway begins with.
#[tactic(auto, using(crate::proofs::ClockLaw::clocked_anew, crate::proofs::ClockLaw::clocked_kept))]
pub fn the_clock_of_a_run_begins_where_its_gateway_stands<T: RunSite>()
    ensures anew { (c : Settings) (w : Wishes) (places : Places) (lineage : Log)
        (before : List SiteCall) (moments : List ℕ) (new : Asked) (left : RunLeft)
        (ended : Result (Unit {0}) DeviceFailed) →
        HasLivedAs (StartsIn T.Folder.File.Disk w c lineage) c w (record {
          places = places;
          lineage = lineage;
          calls = Some before;
          clocks = Some moments;
        }) new left ended → w.state ≡ None → new.clocks ≡ Some (0 ∷ moments) }
    ensures kept { (c : Settings) (w : Wishes) (places : Places) (lineage : Log)
        (before : List SiteCall) (moments : List ℕ) (new : Asked) (left : RunLeft)
        (ended : Result (Unit {0}) DeviceFailed) (directory : Bor Text) →
        HasLivedAs (StartsIn T.Folder.File.Disk w c lineage) c w (record {
          places = places;
          lineage = lineage;
          calls = Some before;
          clocks = Some moments;
        }) new left ended → w.state ≡ Some directory →
        (o : Origin) × StartsIn T.Folder.File.Disk w c lineage o
        × (left.pen.before ≡ o.before.entries)
        × ((o.beginning ≡ Beginning.GoesOn) ⊎ (o.beginning ≡ Beginning.LinksReset) →
        new.clocks ≡ Some (o.gateway.moment ∷ moments))
        × ((o.beginning ≡ Beginning.Anew) ⊎ (o.beginning ≡ Beginning.PutAside) →
        new.clocks ≡ Some (0 ∷ moments)) }
{}

/// Behind each event of a run, before the next one comes, all look at its gateway once: the port
/// tends the state on the disk, the log is written, and visitors are shown the run. A gateway that
/// followed the log at first follows it at each look, with all events so far.
#[tactic(auto, using(crate::proofs::Looks::looked_behind_each))]
pub fn behind_each_event_all_look<P: Watched>()
    ensures { (first last : RunStanding P) (n k : ℕ) →
        HasGoneOn P.log P.script P.tends first n last →
        k < n → AllLooked P.log P.tends first (k + 1) }
{}

/// Each log that a run begins on the disk has at its head a state that follows all that had passed
/// by then, in this run and in the lives before. So it is wherever the gateway followed the lives
/// before when the run began. Such a state can be read again. It is that of the first log, of one
/// that was begun at a look, or of one that is begun at the next look.
pub fn each_log_begins_where_the_run_stands<S: Store>()
    ensures heads { (p : Setup) (origin : Origin) (events : ℕ)
        (now : RunStanding (Recorded (Keeping (Both LiveEnds S)))) (head : State × Log) →
        HasKeptOn origin events now → IsUpTo p origin.before.entries origin.gateway →
        IsHeadIn origin now head → IsHeadUpTo p origin.before.entries head }
    ensures readable { (bears : Bool) (deeds : Deeds) (head : State × Log)
        (earlier : List (State × Log)) → AreRight bears deeds → heads deeds ≡ head ∷ earlier →
        IsBetweenSteps head.0 → IsSavable head.0 }
{}

/// Any number of lives, one behind another, are one run. The first one begins anew, and each is cut
/// at some moment. The next one begins over what the crash leaves of the files, with the same
/// settings, whatever else their files say. Then its gateway follows the log of all lives before:
/// with what had passed when the newest log was begun, with the events that were synced behind
/// that, and with the oldest of those that waited. So what `run_kept` promises of all lives
/// together holds of each life.
pub fn all_lives_are_one_run<S: Store, D: Disk>()
    ensures lives { (c : Settings) (origin : Origin) → IsLastOfLives S D.Disk c origin →
        IsUpTo (setup_of c) origin.before.entries origin.gateway }
    ensures next { (c : Settings) (this next : Origin) (b : ComesBehind S D.Disk c this next) →
        IsUpTo (setup_of c) this.before.entries this.gateway →
        HasReturned c (b.head.1 ++ this.before.entries) b.deeds next }
{
    steps_leave_nothing_open();
}
