//! How a live run begins and ends.
ghost use Rattle.std.specs.Prelude.{◌≡◌, ◌⊎◌, ◌+◌, ◌++◌, ℕ, List, [], ◌∷◌, length, true, false};
ghost use Rattle.std.specs.Prelude.{None, Some, Result, Ok, Err, map};
ghost use Rattle.std.specs.Borrow.{Bor};
ghost use Rattle.std.specs.declared.io.ErrorKind.{ErrorKind};
ghost use Rattle.clap.specs.Words.{Text};
ghost use Rattle.gateway.specs.Agrees.{Follows, Rests};
ghost use Rattle.gateway.specs.Config.{Settings};
ghost use Rattle.gateway.specs.Log.{GapOut, Log, events_of};
ghost use Rattle.gateway.specs.Setups.{setup_of};
ghost use Rattle.gateway.specs.Traffic.{IsFaithful};
ghost use Rattle.live.specs.Cuts.{CutsFirst};
ghost use Rattle.live.specs.Runs.{WallFirst};
ghost use Rattle.record.specs.Recording.{all_passed, text_of};
ghost use Rattle.runlog.specs.Logging.{Book, LogsAction, taken_in};
ghost use Rattle.runlog.specs.declared.note.Note.TheVariants as note;
ghost use Rattle.runlog.specs.declared.note.Obstacle.{Obstacle};
ghost use Rattle.runlog.specs.declared.note.Trouble.TheVariants as trouble;
ghost use Rattle.state.specs.declared.beginning.Origin.{Origin};
ghost use Rattle.state.specs.declared.start.Beginning.TheVariants as beginning;
ghost use Rattle.state.specs.StartNotes.{note_of_given_up};
ghost use Rattle.telegate.specs.Asked.{Asked};
ghost use Rattle.telegate.specs.Law.{LogsAll};
ghost use Rattle.telegate.specs.Logged.{IsRefused, IsUnkept, LogsBeginning, LogsWithout};
ghost use Rattle.telegate.specs.Ran.{HasLivedAs, RunLeft};
ghost use Rattle.telegate.specs.Running.{HasRun};
ghost use Rattle.telegate.specs.Starts.{StartsIn};
ghost use Rattle.telegate.specs.declared.fault.RunFault.{RunFault};
ghost use Rattle.telegate.specs.declared.fault.RunFault.TheVariants as fault;
ghost use Rattle.telegate.specs.declared.host.Wishes.{Wishes};
ghost use Rattle.telegate.specs.declared.running.DeviceFailed.{DeviceFailed};
ghost use Rattle.telegate.specs.declared.site.EndRefusal.{EndRefusal};
ghost use Rattle.traces.specs.Printed.{lines_of_log};

use crate::site::RunSite;

/// No run stops by itself. One that ended well has taken 18,446,744,073,709,551,615 events, as many
/// as 64 bits count, behind those of the lives before. One that stopped at a fault has seen its
/// device fail, once.
pub fn no_run_stops_by_itself<T: RunSite>()
    ensures turns { (c : Settings) (w : Wishes) (old new : Asked) (left : RunLeft)
        (ended : Result (Unit {0}) DeviceFailed) (log : Log) →
        HasLivedAs (StartsIn T.Folder.File.Disk w c old.lineage) c w old new left ended →
        ended ≡ Ok tt → all_passed left.pen (Some left.port.log) ≡ Some log →
        length (events_of log) ≡ length (events_of left.pen.before) + 18446744073709551615 }
    ensures device { (before after : ℕ) (ended : Result (Unit {0}) DeviceFailed)
        (why : DeviceFailed) → HasRun before after ended → ended ≡ Err why →
        after ≡ before + 1 }
{}

/// A live run keeps every promise of a gateway with its settings, however it ended: what passed at
/// its port does, behind the lives before it. So does what its record says, as long as nothing
/// passed unwritten. A run that goes on does so if its gateway followed the lives before.
pub fn a_live_run_keeps_the_promises_of_its_settings<T: RunSite>()
    ensures anew { (c : Settings) (w : Wishes) (old new : Asked) (left : RunLeft)
        (ended : Result (Unit {0}) DeviceFailed) (log : Log) →
        HasLivedAs (StartsIn T.Folder.File.Disk w c old.lineage) c w old new left ended →
        w.state ≡ None → all_passed left.pen (Some left.port.log) ≡ Some log →
        IsFaithful (setup_of c) log }
    ensures recorded { (c : Settings) (w : Wishes) (old new : Asked) (left : RunLeft)
        (ended : Result (Unit {0}) DeviceFailed) (text : List ℕ) →
        HasLivedAs (StartsIn T.Folder.File.Disk w c old.lineage) c w old new left ended →
        w.state ≡ None → text_of left.pen ≡ Some text → left.pen.missed ≡ Some [] →
        (log : Log) × (text ≡ lines_of_log log) × IsFaithful (setup_of c) (log ++ left.pen.before) }
    ensures kept { (c : Settings) (w : Wishes) (old new : Asked) (left : RunLeft)
        (ended : Result (Unit {0}) DeviceFailed) (directory : Bor Text) →
        HasLivedAs (StartsIn T.Folder.File.Disk w c old.lineage) c w old new left ended →
        w.state ≡ Some directory →
        (o : Origin) × StartsIn T.Folder.File.Disk w c old.lineage o
        × (left.pen.before ≡ o.before.entries)
        × (Follows (setup_of c) o.gateway (Some left.pen.before) →
        Rests (setup_of c) (Some left.pen.before) → (log : Log) →
        all_passed left.pen (Some left.port.log) ≡ Some log →
        IsFaithful (setup_of c) log) }
{}

/// The first event of a live run says what the wall clock shows. A run that goes on with a state
/// then gives the cut of the connection that was open before: so nothing is sent to one that is
/// gone.
pub fn a_run_that_goes_on_cuts_the_old_connection<T: RunSite>()
    ensures wall { (c : Settings) (w : Wishes) (old new : Asked) (left : RunLeft)
        (ended : Result (Unit {0}) DeviceFailed) →
        HasLivedAs (StartsIn T.Folder.File.Disk w c old.lineage) c w old new left ended →
        WallFirst left.port.log }
    ensures cut { (c : Settings) (w : Wishes) (old new : Asked) (left : RunLeft)
        (ended : Result (Unit {0}) DeviceFailed) (directory : Bor Text) →
        HasLivedAs (StartsIn T.Folder.File.Disk w c old.lineage) c w old new left ended →
        w.state ≡ Some directory →
        (o : Origin) × StartsIn T.Folder.File.Disk w c old.lineage o
        × (left.pen.before ≡ o.before.entries)
        × ((o.beginning ≡ beginning.GoesOn) ⊎ (o.beginning ≡ beginning.LinksReset) →
        CutsFirst left.port.log) }
{}

/// What a start logs of the state in its directory, in this order and nothing else: from where on
/// its log is damaged, what was made of it, that it was kept under other settings, with how many
/// pieces the run goes on, and each command, selection and own answer that is given up for it. If
/// the last step before reported a gap, that is logged again behind these, with its own station and
/// session, at the moment at which the run goes on. A start that runs without its directory logs
/// that.
pub fn a_start_logs_how_the_run_begins()
    ensures anew { (o : Origin) (old new : Book) → LogsBeginning o old new →
        o.damage ≡ None → o.beginning ≡ beginning.Anew → o.is_moved ≡ false → o.moment ≡ None →
        o.gap ≡ None → LogsAll (note.StateBegins ∷ map note_of_given_up o.given_up.items) old new }
    ensures aside { (o : Origin) (old new : Book) → LogsBeginning o old new →
        o.damage ≡ None → o.beginning ≡ beginning.PutAside → o.is_moved ≡ false →
        o.moment ≡ None → o.gap ≡ None →
        LogsAll (note.StatePutAside ∷ map note_of_given_up o.given_up.items) old new }
    ensures goes_on { (o : Origin) (old new : Book) (m : ℕ) → LogsBeginning o old new →
        o.damage ≡ None → o.beginning ≡ beginning.GoesOn → o.is_moved ≡ false →
        o.moment ≡ Some m → o.gap ≡ None → LogsAll (note.StateGoesOn (taken_in o.gateway)
        ∷ map note_of_given_up o.given_up.items) old new }
    ensures stale { (o : Origin) (old new : Book) (m : ℕ) → LogsBeginning o old new →
        o.damage ≡ None → o.beginning ≡ beginning.LinksReset → o.is_moved ≡ false →
        o.moment ≡ Some m → o.gap ≡ None →
        LogsAll (note.StateStale ∷ note.StateGoesOn (taken_in o.gateway)
        ∷ map note_of_given_up o.given_up.items) old new }
    ensures damaged { (o : Origin) (old new : Book) (octet m : ℕ) → LogsBeginning o old new →
        o.damage ≡ Some octet → o.beginning ≡ beginning.LinksReset → o.is_moved ≡ false →
        o.moment ≡ Some m → o.gap ≡ None →
        LogsAll (note.StateDamaged octet ∷ note.StateStale
        ∷ note.StateGoesOn (taken_in o.gateway)
        ∷ map note_of_given_up o.given_up.items) old new }
    ensures moved { (o : Origin) (old new : Book) (m : ℕ) → LogsBeginning o old new →
        o.damage ≡ None → o.beginning ≡ beginning.GoesOn → o.is_moved ≡ true →
        o.moment ≡ Some m → o.gap ≡ None →
        LogsAll (note.SettingsChanged ∷ note.StateGoesOn (taken_in o.gateway)
        ∷ map note_of_given_up o.given_up.items) old new }
    ensures stale_moved { (o : Origin) (old new : Book) (m : ℕ) → LogsBeginning o old new →
        o.damage ≡ None → o.beginning ≡ beginning.LinksReset → o.is_moved ≡ true →
        o.moment ≡ Some m → o.gap ≡ None → LogsAll (note.StateStale ∷ note.SettingsChanged
        ∷ note.StateGoesOn (taken_in o.gateway)
        ∷ map note_of_given_up o.given_up.items) old new }
    ensures gap { (o : Origin) (old new : Book) (m station session : ℕ) →
        LogsBeginning o old new → o.moment ≡ Some m → o.gap ≡ Some (station, session) →
        (before : Book) × LogsAction before m (GapOut station session) new }
    ensures without { (old new : Book) → LogsWithout old new →
        (why : Obstacle) × LogsAll (note.StateRefused why ∷ []) old new }
{}

/// A start that can't have what it needs logs why, once: that another process has the state, that
/// it can't be kept there, or what is wrong with an end. It then ends by that very fault: want of
/// memory is told as such, and any other end as one that can't be had.
pub fn a_start_logs_why_it_ends()
    ensures in_use { (old new : Book) → IsUnkept fault.StateInUse old new →
        LogsAll (note.Trouble trouble.StateInUse ∷ []) old new }
    ensures unusable { (cause : ErrorKind) (old new : Book) →
        IsUnkept (fault.StateUnusable cause) old new → (why : Obstacle) × (why.cause ≡ cause)
        × LogsAll (note.StateUnkept why ∷ []) old new }
    ensures ends { (why : RunFault) (old new : Book) → IsRefused why old new →
        (refusal : EndRefusal) × LogsAll (note.Trouble refusal.trouble ∷ []) old new
        × (refusal.is_memory ≡ true → why ≡ fault.NoMemory)
        × (refusal.is_memory ≡ false → why ≡ fault.EndUnusable) }
{}
