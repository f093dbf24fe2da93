//! What holds of each history.
ghost use Rattle.std.specs.Prelude.{◌≡◌, ◌++◌, ◌∷◌, [], ℕ, ◌+◌, ◌<◌, ◌≤◌, ◌⊎◌, Bool, true, false};
ghost use Rattle.std.specs.Prelude.{List, Option, Ok, Some, None, length, slice_get, slice_index};
ghost use Rattle.std.specs.Prelude.{IsTrue};
ghost use Rattle.std.specs.List.{AllByRecursion};
ghost use Rattle.std.specs.Option.{is_some};
ghost use Rattle.checkpoint.specs.Octets.{IsOctetLine};
ghost use Rattle.gateway.specs.Carried.{carried};
ghost use Rattle.gateway.specs.Config.{Settings};
ghost use Rattle.gateway.specs.Log.{CutOff, Output, TcpIn, Ticked, WallIs};
ghost use Rattle.gateway.specs.Log.{Log, LogEntry, Came, Went, Input, LineIn, GapOut};
ghost use Rattle.gateway.specs.Restored.{HasSettings, IsSavable, state_lines};
ghost use Rattle.gateway.specs.State.{State};
ghost use Rattle.gateway.specs.declared.settings.StationSettings.{StationSettings};
ghost use Rattle.hex.specs.Hex.{IsBytes};
ghost use Rattle.link.specs.Procedure.{is_up};
ghost use Rattle.link.specs.Turns.{station_at};
ghost use Rattle.segments.specs.Crashes.{damage_behind, lines_behind};
ghost use Rattle.segments.specs.Head.{Fits, head_of};
ghost use Rattle.segments.specs.Starts.{IsBlank, IsFoundIn, IsShut};
ghost use Rattle.segments.specs.declared.head.SegmentHead.{SegmentHead};
ghost use Rattle.settings.specs.Settings.{IsReadOfText};
ghost use Rattle.sqlite_disk.specs.Disk.{Holds};
ghost use Rattle.statetext.specs.Sum.{sum_of};
ghost use Rattle.statetext.specs.Text.{lines_in};
ghost use Rattle.state.specs.Beginnings.{IsReadWhole, has_past};
ghost use Rattle.state.specs.Crashed.{AreLeft, HasLog, IsKeptIn};
ghost use Rattle.live.specs.declared.watched.Failure.{Failure};
ghost use Rattle.live.specs.declared.watched.Notice.{Notice};
ghost use Rattle.std.specs.declared.io.ErrorKind.{ErrorKind};
ghost use Rattle.live.specs.declared.watched.Notice.TheVariants.{NotKept, KeptAgain};
ghost use Rattle.state.specs.Deeds.{AreRight, Deeds, GivenUp, IsAllOnDisk, IsSafe, PutOut};
ghost use Rattle.state.specs.Deeds.{Appended, Begun, Received, Synced, appended, arrived, is_kept};
ghost use Rattle.state.specs.Deeds.{loss_of, moment_of, on_disk};
ghost use Rattle.state.specs.Deeds.{grown, waiting, written};
ghost use Rattle.state.specs.Directories.{BeginsOver};
ghost use Rattle.state.specs.Keeping.{HasTended, IsOrderly, Keeping, failure_of};
ghost use Rattle.state.specs.Lines.{IsWritable, is_renewal_due};
ghost use Rattle.state.specs.Logs.{IsOlderBeside};
ghost use Rattle.state.specs.Origins.{IsBegun};
ghost use Rattle.state.specs.Notices.{Asked, Call, Tried, latest, patience_behind, told, tries};
ghost use Rattle.state.specs.Renewals.{is_try_due, notice_of};
ghost use Rattle.state.specs.Replays.{IsQuiet, last_gap, whole_lines};
ghost use Rattle.state.specs.Returns.{GoesOnOver};
ghost use Rattle.state.specs.Sights.{IsSight};
ghost use Rattle.state.specs.Standings.{is_lost, is_stopped};
ghost use Rattle.state.specs.Stores.{led_to_head, safe};
ghost use Rattle.state.specs.Unread.{IsUnread, WasAside};
ghost use Rattle.state.specs.declared.beginning.Origin.{Origin};
ghost use Rattle.state.specs.declared.loss.Loss.{Loss};
ghost use Rattle.state.specs.declared.loss.Loss.TheVariants.{Marked, Unmarked};
ghost use Rattle.state.specs.declared.looking.Sight.{Sight};
ghost use Rattle.state.specs.declared.loss.StoreFault.TheVariants.{Failed, Full, Unwritable};
ghost use Rattle.state.specs.declared.opened.Opened.{Opened};
ghost use Rattle.state.specs.declared.standing.Standing.{Standing};
ghost use Rattle.traces.specs.Printed.{line_of_entry, lines_of_log};
ghost use Rattle.traces.specs.Trace.{logged};

use crate::ends::Ends;
use crate::folder::Folder;
use crate::standing::Standing;
use crate::start::Beginning;
use gateway::no_link_goes_on_but_of_a_station_as_it_was;
use live::Failure;
use sqlite_disk::Disk;

/// Whatever action was handed out: when it was, all received events were on the disk, or the state
/// there was marked as stale; and if a loss isn't borne, they were on the disk. There they led to
/// the state at the head of the log, or their lines behind it are synced. So it is in the history
/// of each keeper ([`crate::Keeper::standing`]).
pub fn nothing_goes_out_before_it_is_on_disk()
    ensures safe { (bears : Bool) (later earlier : Deeds) (action : LogEntry) →
        AreRight bears (later ++ PutOut action ∷ earlier) → IsSafe earlier }
    ensures strict { (later earlier : Deeds) (action : LogEntry) →
        AreRight false (later ++ PutOut action ∷ earlier) → IsAllOnDisk earlier }
    ensures disk { (later earlier : Deeds) (action : LogEntry) →
        AreRight false (later ++ PutOut action ∷ earlier) → (is_kept earlier ≡ true)
        × (arrived earlier ≡ safe earlier ++ led_to_head earlier) }
    ensures borne { (later earlier : Deeds) (action : LogEntry) →
        AreRight true (later ++ PutOut action ∷ earlier) → ((is_kept earlier ≡ true)
        × (arrived earlier ≡ safe earlier ++ led_to_head earlier))
        ⊎ (loss_of earlier ≡ Some Marked) }
    ensures kept { (bears : Bool) (standing : Standing) (later earlier : Deeds)
        (action : LogEntry) → IsOrderly bears standing (later ++ PutOut action ∷ earlier) →
        ((is_kept earlier ≡ true) × (arrived earlier ≡ safe earlier ++ led_to_head earlier))
        ⊎ ((loss_of earlier ≡ Some Marked) × (bears ≡ true)) }
{}

/// No event waits for the disk for a second while others come: when the gateway is about to receive
/// one, less than a second lies between the first and the last of those that wait, unless the store
/// has failed.
pub fn no_event_waits_for_a_second()
    ensures { (bears : Bool) (later earlier : Deeds) (event first last : LogEntry) (between : Log) →
        AreRight bears (later ++ Received event ∷ earlier) → loss_of earlier ≡ None →
        waiting earlier ≡ last ∷ (between ++ first ∷ []) →
        moment_of last < moment_of first + 1000 }
{}

/// The clock of a run that goes on does so at the gateway's moment, and not anew: else no timer of
/// it would run out before the clock is there again. A run that begins anew goes on from nothing.
pub fn a_clock_goes_on_where_the_gateway_stood<D: Disk + Drop>()
    ensures goes_on { (c : Settings) (log : Log) (mark : Option Bool)
        (opened : Opened D D.Disk) (o : Origin) → IsBegun c log mark opened o →
        (o.beginning ≡ Beginning.GoesOn) ⊎ (o.beginning ≡ Beginning.LinksReset) →
        o.moment ≡ Some o.gateway.moment }
    ensures anew { (c : Settings) (log : Log) (mark : Option Bool)
        (opened : Opened D D.Disk) (o : Origin) → IsBegun c log mark opened o →
        (o.beginning ≡ Beginning.Anew) ⊎ (o.beginning ≡ Beginning.PutAside) →
        o.moment ≡ None }
{}

/// A gap that the last step before an end reported is reported again by the next life, since nobody
/// may have seen it. It is the latest one of those behind the latest event, whatever else went out
/// behind it. If an event stands behind it, or there is none, nothing is reported again.
pub fn a_gap_of_the_last_step_is_reported_again()
    ensures gap { (quiet earlier : Log) (now station session : ℕ) → AllByRecursion IsQuiet quiet →
        last_gap (quiet ++ Went now (GapOut station session) ∷ earlier) ≡ Some (station, session) }
    ensures past { (quiet earlier : Log) (now : ℕ) (event : Input) → AllByRecursion IsQuiet quiet →
        last_gap (quiet ++ Came now event ∷ earlier) ≡ None }
    ensures none { (quiet : Log) → AllByRecursion IsQuiet quiet → last_gap quiet ≡ None }
    ensures quiet { (now : ℕ) (action : Output) →
        ((station session : ℕ) → action ≡ GapOut station session → ⊥) →
        IsQuiet (Went now action) }
{}

/// A log is begun anew behind more than 3,900,000 octets of events. One that couldn't be begun is
/// tried again as soon as 10 s have passed since, and not before, in moments of the events. None
/// has to wait if none was tried yet, or the latest was begun.
pub fn a_log_that_could_not_be_begun_is_tried_each_ten_seconds()
    ensures grown { (octets : ℕ) → 3900000 < octets → is_renewal_due octets ≡ true }
    ensures small { (octets : ℕ) → octets ≤ 3900000 → is_renewal_due octets ≡ false }
    ensures first { (calls : List Call) → tries calls ≡ [] →
        is_try_due (patience_behind calls) ≡ true }
    ensures begun { (calls : List Call) (since : ℕ) (earlier : List (ℕ × Bool)) →
        tries calls ≡ (since, false) ∷ earlier → is_try_due (patience_behind calls) ≡ true }
    ensures later { (calls : List Call) (since : ℕ) (earlier : List (ℕ × Bool)) →
        tries calls ≡ (since, true) ∷ earlier → since + 10000 ≤ latest calls →
        is_try_due (patience_behind calls) ≡ true }
    ensures within { (calls : List Call) (since : ℕ) (earlier : List (ℕ × Bool)) →
        tries calls ≡ (since, true) ∷ earlier → latest calls < since + 10000 →
        is_try_due (patience_behind calls) ≡ false }
{}

/// That the state isn't kept is reported at once, then as soon as a minute has passed, and never
/// within one, each time with the cause of then. That it is kept again is reported once, if the
/// other was: nothing else is reported. It is said by what was reported before, over all calls on a
/// keeper.
pub fn a_loss_is_reported_each_minute_until_it_is_over()
    ensures first { (calls : List Call) (why : Option ErrorKind) → told calls ≡ [] →
        notice_of true why (patience_behind calls) ≡ Some (NotKept why) }
    ensures anew { (calls : List Call) (why : Option ErrorKind) (since : ℕ)
        (earlier : List (ℕ × Notice)) → told calls ≡ (since, KeptAgain) ∷ earlier →
        notice_of true why (patience_behind calls) ≡ Some (NotKept why) }
    ensures later { (calls : List Call) (why cause : Option ErrorKind) (since : ℕ)
        (earlier : List (ℕ × Notice)) → told calls ≡ (since, NotKept cause) ∷ earlier →
        since + 60000 ≤ latest calls →
        notice_of true why (patience_behind calls) ≡ Some (NotKept why) }
    ensures within { (calls : List Call) (why cause : Option ErrorKind) (since : ℕ)
        (earlier : List (ℕ × Notice)) → told calls ≡ (since, NotKept cause) ∷ earlier →
        latest calls < since + 60000 → notice_of true why (patience_behind calls) ≡ None }
    ensures over { (calls : List Call) (why cause : Option ErrorKind) (since : ℕ)
        (earlier : List (ℕ × Notice)) → told calls ≡ (since, NotKept cause) ∷ earlier →
        notice_of false why (patience_behind calls) ≡ Some KeptAgain }
    ensures silent { (calls : List Call) (why : Option ErrorKind) → told calls ≡ [] →
        notice_of false why (patience_behind calls) ≡ None }
    ensures once { (calls : List Call) (why : Option ErrorKind) (since : ℕ)
        (earlier : List (ℕ × Notice)) → told calls ≡ (since, KeptAgain) ∷ earlier →
        notice_of false why (patience_behind calls) ≡ None }
{}

/// What a keeper remembers is that of the calls on it, over which the two laws above say when a new
/// log is tried and what is reported. A look asks once what is to be reported, and reports that. It
/// is noted that a new log was tried wherever something was done at the store.
pub fn a_keeper_remembers_what_it_tried_and_reported<E: Ends + Drop>()
    ensures { (old new : Keeping E) (state : State) (notice : Option Notice)
        (calls : List Call) → HasTended E.log E.deeds old state new notice →
        old.patience ≡ patience_behind calls →
        (cause : Option ErrorKind) × (((E.deeds new.ends ≡ E.deeds old.ends)
        × (notice ≡ notice_of (is_lost new.standing) cause (patience_behind calls))
        × (new.patience ≡ patience_behind (Asked (is_lost new.standing) cause ∷ calls)))
        ⊎ ((notice ≡ notice_of (is_lost new.standing) cause
        (patience_behind (Tried (is_lost new.standing) ∷ calls)))
        × (new.patience ≡ patience_behind (Asked (is_lost new.standing) cause
        ∷ (Tried (is_lost new.standing) ∷ calls))))) }
{}

/// What becomes of a run whose store has failed, case by case. It goes on if the loss is borne and
/// the state on the disk is marked as stale, and else it is stopped. Once it was stopped, what has
/// failed is the state, whatever the port says. A store that has failed counts as lost, whether the
/// mark stands or not, and no other does.
pub fn losses_by_example()
    ensures kept { (moment : ℕ) (bears : Bool) → (is_stopped Standing.Synced bears ≡ false)
        × (is_stopped (Standing.Waiting moment) bears ≡ false) }
    ensures marked { (is_stopped (Standing.Lost Marked) true ≡ false)
        × (is_stopped (Standing.Lost Marked) false ≡ true) }
    ensures unmarked { (bears : Bool) → is_stopped (Standing.Lost Unmarked) bears ≡ true }
    ensures lost { (moment : ℕ) (loss : Loss) → (is_lost Standing.Synced ≡ false)
        × (is_lost (Standing.Waiting moment) ≡ false) × (is_lost (Standing.Lost loss) ≡ true) }
    ensures going { (of_port : Option Failure) → failure_of 0 of_port ≡ of_port }
    ensures stopped { (stops : ℕ) (of_port : Option Failure) → 0 < stops →
        failure_of stops of_port ≡ Some Failure.State }
{}

/// The events that are on the disk are those that led to the state at the head of the log, and
/// those whose lines behind it are synced. Each event that was received counts, in its order. A
/// line that was appended waits until the next sync, and each line is synced by that.
pub fn what_is_on_disk_is_in_the_log()
    ensures appended { (deeds : Deeds) → appended deeds ≡ written deeds ++ led_to_head deeds }
    ensures on_disk { (deeds : Deeds) → on_disk deeds ≡ safe deeds ++ led_to_head deeds }
    ensures behind { (deeds : Deeds) → written deeds ≡ waiting deeds ++ safe deeds }
    ensures arrived { (later earlier : Deeds) (event : LogEntry) →
        arrived (later ++ Received event ∷ earlier) ≡ arrived later ++ event ∷ arrived earlier }
    ensures waits { (deeds : Deeds) (event : LogEntry) →
        safe (Appended event ∷ deeds) ≡ safe deeds }
    ensures synced { (deeds : Deeds) → safe (Synced ∷ deeds) ≡ written deeds }
{}

/// A line can hold each event that a port may give: up to the last moment, each number of octets
/// that fits the buffer, and each state of the wall clock. So no store is ever given up for the
/// moment, or for the octets, of an event.
pub fn a_line_can_hold_each_event()
    ensures octets { (now : ℕ) (octets : List ℕ) → now ≤ 999999999999999 → IsBytes octets →
        1 ≤ length octets → length octets ≤ 1024 →
        IsWritable (Came now (LineIn octets)) × IsWritable (Came now (TcpIn octets)) }
    ensures bare { (now : ℕ) → now ≤ 999999999999999 → IsWritable (Came now Input.Opened)
        × IsWritable (Came now CutOff) × IsWritable (Came now Ticked) }
    ensures wall { (now number : ℕ) → now ≤ 999999999999999 → number ≤ 999999999999999 →
        IsWritable (Came now (WallIs number)) }
{}

/// Between two steps a log is begun when one is due, with the state of the gateway there: behind
/// more than 3,900,000 octets of events, and, if the store has failed, as soon as that is to be
/// tried again. Else nothing is done at the store.
pub fn a_log_is_begun_where_one_is_due<E: Ends + Drop>()
    ensures grown { (old new : Keeping E) (state : State) (notice : Option Notice) →
        HasTended E.log E.deeds old state new notice → is_lost old.standing ≡ false →
        3900000 < grown (E.deeds old.ends) →
        (E.deeds new.ends ≡ Begun state ∷ E.deeds old.ends)
        ⊎ ((loss : Loss) × (E.deeds new.ends ≡ GivenUp Failed loss ∷ E.deeds old.ends)) }
    ensures lost { (old new : Keeping E) (state : State) (notice : Option Notice) →
        HasTended E.log E.deeds old state new notice → is_lost old.standing ≡ true →
        is_try_due old.patience ≡ true →
        (E.deeds new.ends ≡ Begun state ∷ E.deeds old.ends)
        ⊎ ((loss : Loss) × (E.deeds new.ends ≡ GivenUp Failed loss ∷ E.deeds old.ends)) }
    ensures small { (old new : Keeping E) (state : State) (notice : Option Notice) →
        HasTended E.log E.deeds old state new notice → is_lost old.standing ≡ false →
        grown (E.deeds old.ends) ≤ 3900000 →
        E.deeds new.ends ≡ E.deeds old.ends }
    ensures waits { (old new : Keeping E) (state : State) (notice : Option Notice) →
        HasTended E.log E.deeds old state new notice → is_lost old.standing ≡ true →
        is_try_due old.patience ≡ false → E.deeds new.ends ≡ E.deeds old.ends }
{}

/// The line of an event has 2,067 octets at most, whatever the event and the settings are: a moment
/// of 15 digits, a letter, 1,024 octets in hexadecimal digits, two spaces and a line feed. The line
/// of the longest events has as many.
pub fn no_line_is_longer_than_2067_octets()
    ensures short { (event : LogEntry) → IsWritable event → length (line_of_entry event) ≤ 2067 }
    ensures longest { (octets : List ℕ) → length octets ≡ 1024 →
        length (line_of_entry (Came 999999999999999 (LineIn octets))) ≡ 2067 }
{}

/// No store is given up for want of room while its log has 3,900,000 octets of events or fewer, and
/// none for an event that a line can hold. Else a disk has failed, or memory was refused.
pub fn a_log_has_room_for_each_line()
    ensures room { (bears : Bool) (later earlier : Deeds) (loss : Loss) →
        AreRight bears (later ++ GivenUp Full loss ∷ earlier) →
        3900000 < grown earlier }
    ensures each { (bears : Bool) (later earlier : Deeds) (loss : Loss) (event : LogEntry)
        (log : Log) → AreRight bears (later ++ GivenUp Unwritable loss ∷ earlier) →
        arrived earlier ≡ event ∷ log → IsWritable event → ⊥ }
{}

/// No crash leaves a line that can't be read. The lines of events were appended behind a
/// checkpoint, and some of them were synced. Whatever a crash leaves of the file, a start reads
/// there the lines of all synced events, those of the oldest events that waited, and nothing else.
/// So a line that can't be read shows damage, and no power cut resets a link by it.
pub fn no_crash_leaves_another_line<D: Disk>()
    ensures left { (mine : D) (number : ℕ) (body : List ℕ) (later synced : Log) (c : List ℕ) →
        HasLog (D.Disk.may_leave mine) number body later synced → D.Disk.may_leave mine c →
        AreLeft later synced (whole_lines (lines_behind body c)) }
    ensures read { (mine : D) (number : ℕ) (body : List ℕ) (later synced : Log) (c : List ℕ) →
        HasLog (D.Disk.may_leave mine) number body later synced → D.Disk.may_leave mine c →
        IsReadWhole c }
{}

/// A start behind a crash goes on. It finds the file of a log that was kept, as a crash left it.
/// Beside it stands a file that it doesn't doubt, in which each segment is older. So does
/// [`crate::Keeper::survives`] say it of both files at any moment between two calls. Suppose that
/// the settings are the same, and that the state with which that log was begun has followed the log
/// of all lives. Then the gateway follows it further: with all events that were synced, the oldest
/// of those that waited, and the restart.
pub fn a_start_goes_on_behind_a_crash<D: Disk + Drop>()
    ensures { (settings : List ℕ) (deeds : Deeds) (file other : List ℕ) →
        IsKeptIn settings deeds file → IsOlderBeside file other →
        GoesOnOver D.Disk settings deeds file other }
{}

/// A state that is damaged is never gone on with as if it was whole. What is gone on with has a
/// checkpoint of the length and the sum that its first line says. If the links go on, each whole
/// line behind that logs an event, no damage ends the log, no first line of a segment as new stands
/// in the other file, and no mark says that the state is stale. And unless the segment is the very
/// first, the other file isn't empty: of a file that was cut to nothing nobody knows what it had.
pub fn a_damaged_state_never_goes_on_as_whole<D: Disk + Drop>()
    ensures whole { (c : Settings) (log : Log) (mark : Option Bool)
        (newest other : D) (o : Origin) → BeginsOver D.Disk c log mark newest other o →
        has_past o.beginning ≡ true → (head : SegmentHead) × (body : List ℕ) ×
        Holds (D.Disk.seen newest) 0 (head_of head) ×
        (0 < length body → Holds (D.Disk.seen newest) 87 body) ×
        (length body ≡ head.octets) × (sum_of body ≡ head.sum) }
    ensures lines { (c : Settings) (log : Log) (mark : Option Bool)
        (newest other : D) (o : Origin) → BeginsOver D.Disk c log mark newest other o →
        o.beginning ≡ Beginning.GoesOn → (head : SegmentHead) (body : List ℕ) → Fits head →
        IsFoundIn (D.Disk.seen newest) head body →
        AllByRecursion (λ line. is_some (logged line) ≡ true)
        (whole_lines (lines_behind body (D.Disk.seen newest)))
        × (damage_behind body (D.Disk.seen newest) ≡ None) }
    ensures newer { (c : Settings) (log : Log) (mark : Option Bool)
        (newest other : D) (o : Origin) → BeginsOver D.Disk c log mark newest other o →
        o.beginning ≡ Beginning.GoesOn → (own head : SegmentHead) → Fits own → Fits head →
        Holds (D.Disk.seen newest) 0 (head_of own) → Holds (D.Disk.seen other) 0 (head_of head) →
        head.number < own.number }
    ensures emptied { (c : Settings) (log : Log) (mark : Option Bool)
        (newest other : D) (o : Origin) → BeginsOver D.Disk c log mark newest other o →
        o.beginning ≡ Beginning.GoesOn → length (D.Disk.seen other) < 2 →
        (slice_index (D.Disk.seen other) 0 ≡ 45 → ⊥) → (own : SegmentHead) → Fits own →
        Holds (D.Disk.seen newest) 0 (head_of own) → own.number ≤ 1 }
    ensures stale { (c : Settings) (log : Log) (newest other : D) (o : Origin) →
        BeginsOver D.Disk c log (Some true) newest other o →
        o.beginning ≡ Beginning.GoesOn → ⊥ }
{}

/// What stands in a directory isn't passed over. A run begins anew beside two files only if both
/// are shut. No link is reset without a reason. If no mark stands, the other file is shut or begins
/// with an older segment's first line, and each line of the log is read, a run goes on with its
/// links. A file with nothing in it is shut in this sense beside the very first segment alone. It
/// goes on with the newer of two segments.
pub fn what_stands_is_not_passed_over<D: Disk + Drop>()
    ensures anew { (c : Settings) (log : Log) (mark : Option Bool)
        (newest other : D) (o : Origin) → BeginsOver D.Disk c log mark newest other o →
        o.beginning ≡ Beginning.Anew → (file : D) → (file ≡ newest) ⊎ (file ≡ other) →
        (length (D.Disk.seen file) < 2) ⊎ (slice_index (D.Disk.seen file) 0 ≡ 45) }
    ensures links { (c : Settings) (log : Log) (newest other : D) (o : Origin) →
        BeginsOver D.Disk c log (Some false) newest other o →
        (IsShut (D.Disk.seen other) × (IsBlank (D.Disk.seen other) → (own : SegmentHead)
        × Fits own × Holds (D.Disk.seen newest) 0 (head_of own) × (own.number ≤ 1)))
        ⊎ ((own head : SegmentHead) × Fits own × Fits head ×
        Holds (D.Disk.seen newest) 0 (head_of own) × Holds (D.Disk.seen other) 0 (head_of head) ×
        (head.number < own.number)) →
        IsReadWhole (D.Disk.seen newest) → o.beginning ≡ Beginning.LinksReset → ⊥ }
    ensures newest { (c : Settings) (log : Log) (mark : Option Bool)
        (newest other : D) (o : Origin) → BeginsOver D.Disk c log mark newest other o →
        has_past o.beginning ≡ true → (own head : SegmentHead) (body others : List ℕ) → Fits own →
        Fits head → IsFoundIn (D.Disk.seen newest) own body →
        IsFoundIn (D.Disk.seen other) head others → head.number ≤ own.number }
{}

/// If each link is to be reset, none is up: the gateway is what a state leads to that isn't
/// trusted, under the settings that wrote it and then under these. (Suppose that the state has a
/// link for each station of the settings that wrote it.) So no frame count bit and no held service
/// goes on, though the settings are the same.
pub fn no_link_is_up_behind_a_reset<D: Disk + Drop>()
    ensures { (c : Settings) (log : Log) (mark : Option Bool) (newest other : D)
        (o : Origin) → BeginsOver D.Disk c log mark newest other o →
        o.beginning ≡ Beginning.LinksReset → (wrote : Settings) × (left : State) ×
        (o.gateway ≡ carried false wrote c left) ×
        (length left.serial.line.stations ≡ length wrote.stations → (place : ℕ)
        (station : StationSettings) → slice_get c.stations place ≡ Some station →
        is_up (station_at o.gateway.serial.line.stations place).link ≡ true → ⊥) }
{
    no_link_goes_on_but_of_a_station_as_it_was();
}

/// A state that a run has written is never put aside by one with the same settings: a checkpoint
/// that is whole and says the settings, a file of settings that can be read, and the state of a
/// gateway with these. And both files are never put aside if they are shut. So it is of what a
/// start has put aside, if each read of the two files has gone well. So it is, too, of what is
/// shown to who looks at a directory: a good state isn't shown as one that can't be read.
pub fn a_state_that_can_be_read_is_not_put_aside<F: Folder + Drop>()
    ensures kept { (c : Settings) (text newest other : List ℕ) (head : SegmentHead)
        (body : List ℕ) (state : State) → Fits head → IsFoundIn newest head body →
        lines_in body ≡ text ∷ state_lines state → IsOctetLine text →
        IsReadOfText text (Ok c) → IsSavable state →
        ((by : Settings) → IsReadOfText text (Ok by) → HasSettings by state) →
        IsUnread newest other → ⊥ }
    ensures shut { (newest other : List ℕ) → IsShut newest → IsShut other →
        IsUnread newest other → ⊥ }
    ensures put { (folder : F) (c : Settings) (text : List ℕ) (head : SegmentHead)
        (body : List ℕ) (state : State) (was : WasAside F.File.Disk (F.aside folder)) →
        IsTrue (F.File.is_clean was.newest) → IsTrue (F.File.is_clean was.other) → Fits head →
        IsFoundIn (F.File.seen was.newest) head body → lines_in body ≡ text ∷ state_lines state →
        IsOctetLine text → IsReadOfText text (Ok c) → IsSavable state →
        ((by : Settings) → IsReadOfText text (Ok by) → HasSettings by state) → ⊥ }
    ensures shown { (log : Log) (is_stale : Bool) (first second text : List ℕ) (s : Sight)
        (shown : IsSight log is_stale first second s) (c : Settings) (head : SegmentHead)
        (body : List ℕ) (state : State) → s.beginning ≡ Beginning.PutAside → Fits head →
        IsFoundIn shown.newest head body → lines_in body ≡ text ∷ state_lines state →
        IsOctetLine text → IsReadOfText text (Ok c) → IsSavable state →
        ((by : Settings) → IsReadOfText text (Ok by) → HasSettings by state) → ⊥ }
    ensures shown_shut { (log : Log) (is_stale : Bool) (first second : List ℕ) (s : Sight)
        (shown : IsSight log is_stale first second s) → s.beginning ≡ Beginning.PutAside →
        IsShut shown.newest → IsShut shown.other → ⊥ }
{}
