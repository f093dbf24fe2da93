//! The log of a run in two files of a directory.
ghost use Rattle.std.specs.Io.Iter.{u64_saturate};
ghost use Rattle.std.specs.Prelude.{◌≡◌, ◌⊎◌, ◌+◌, ◌++◌, ◌∷◌, [], List, ℕ, IfOk, IfSome};
ghost use Rattle.std.specs.Prelude.{IsTrue, IfErr, OnOk};
ghost use Rattle.std.specs.Prelude.{◌<◌, ◌≤◌, Option, Some, length, true, false};
ghost use Rattle.std.specs.List.{concat};
ghost use Rattle.gateway.specs.Restored.{IsSavable, state_lines};
ghost use Rattle.gateway.specs.State.{IsBetweenSteps};
ghost use Rattle.segments.specs.Crash.{AreMixing, IsShut};
ghost use Rattle.segments.specs.Segment.{body_of, file_of, octets_of, open_of, outcomes_of};
ghost use Rattle.segments.specs.Segment.{own_number, size_of, writes_of};
ghost use Rattle.segments.specs.Crashes.{AreOlder, StaysBacked};
ghost use Rattle.segments.specs.Starts.{IsBacked, IsSound};
ghost use Rattle.segments.specs.Writer.{appended_to};
ghost use Rattle.state.specs.Doubts.{AreUndoubted};
ghost use Rattle.state.specs.Lines.{IsRefusedBy, longest_line, most_octets, seal_octets};
ghost use Rattle.state.specs.Logs.{AreAmid, AreFilesOf, HasFreshLog, IsOneOf, WasOpen};
ghost use Rattle.statetext.specs.Text.{lines_in};

use crate::folder::{Folder, FolderFault};
use crate::loss::{Loss, StoreFault};
use crate::opened::{Current, Opened};
use crate::store::Store;
use checkpoint::{Sheet, StateFault};
use gateway::Gateway;
use segments::{
    Failed, Segment, SegmentFault, Side, Writer, is_below, is_sound, newest_side, shut, shut_blank,
};
use sqlite_disk::{Disk, Files};
use statetext::TextSheet;
use std::alloc::Global;
use std::io::ErrorKind;
use std::mem;

/// How many octets the seal of a write has.
const SEAL: usize = 27;

/// A log in two files of a directory, which are written in turn: a segment begins with the settings
/// and the state of a gateway, and then has lines, of which those of a sync are sealed together.
/// The next one goes into the other file, and stands there whole before the one before is touched.
/// A file whose write or sync failed is used no more: both are opened anew when the next segment
/// begins, and what they have says into which one it goes.
#[derive(Drop)]
pub struct DiskStore<F: Folder + Drop> {
    alloc: Global,
    folder: F,
    /// The file of settings of the run.
    settings: Vec<u8>,
    opened: Opened<F::File>,
    /// The number of the next segment.
    number: u64,
    /// It is known that no mark stands on the disk.
    is_unmarked: bool,
    /// What the system said of the latest call that failed, since a segment was begun last.
    cause: Option<ErrorKind>,
    ghost unmarked: { IsTrue is_unmarked → F.mark folder ≡ Some false },
    ghost locked: { F.is_locked folder ≡ true },
}

impl<F: Folder + Drop> DiskStore<F> {
    ghost use Rattle.segments.specs.Crashes.{AreOlder, StaysBacked};
    ghost use Rattle.statetext.specs.Sealed.{AreLines};
    ghost use Rattle.state.specs.Doubts.{AreUndoubted};
    ghost use Rattle.state.specs.Logs.{AreOpen, Bears, HasFreshLog, IsAmid, IsOlderBeside, SpareIs};
    ghost use Rattle.state.specs.Logs.{IsLeftBeside, WasOpened};
    ghost use Rattle.state.specs.Logs.{SurvivesAsLogged, leaves_amid, leaves_behind, leaves_both};
    ghost use Rattle.state.specs.Logs.{stored_in};

    /// One over a directory whose files aren't open. The next segment has this number.
    pub fn new(alloc: Global, folder: F, settings: Vec<u8>, number: u64) -> DiskStore<F>
        requires { F.is_locked folder ≡ true }
        ensures settings { result.settings ≡ settings }
        ensures folder { result.folder ≡ folder }
        ensures opened { result.opened ≡ Opened.Neither }
        ensures number { result.number ≡ number }
    {
        DiskStore {
            alloc,
            folder,
            settings,
            opened: Opened::Neither,
            number,
            is_unmarked: false,
            cause: None,
        }
    }

    /// The same with both files open.
    pub(crate) fn with_files(self, newest: F::File, spare: F::File) -> DiskStore<F>
        ensures opened { result.opened ≡ Opened.Both newest spare }
        ensures folder { result.folder ≡ self.folder }
        ensures settings { result.settings ≡ self.settings }
        ensures number { result.number ≡ self.number }
    {
        let DiskStore {
            alloc,
            folder,
            settings,
            opened: _,
            number,
            is_unmarked,
            cause,
        } = self;
        DiskStore {
            alloc,
            folder,
            settings,
            opened: Opened::Both(newest, spare),
            number,
            is_unmarked,
            cause,
        }
    }

    /// Both files, opened anew and looked at as at a start: that of the newest segment, and the one
    /// for the next. The third says that no start doubts the first.
    fn open_files(&mut self) -> Option<(F::File, F::File, bool)>
        ensures newest { IfSome result (λ files. IsTrue (F.File.is_usable files.0)) }
        ensures spare { IfSome result (λ files. IsTrue (F.File.is_usable files.1)) }
        ensures backed { IfSome result (λ files. IsTrue (F.File.is_clean files.0) →
            IsTrue (F.File.is_clean files.1) →
            StaysBacked (F.File.may_leave files.0) (F.File.seen files.1)) }
        ensures older { IfSome result (λ files. IsTrue (F.File.is_clean files.0) →
            AreOlder (F.File.may_leave files.0) self.old.number) }
        ensures sound { IfSome result (λ files. files.2 ≡ true →
            IsTrue (F.File.is_clean files.0) → AreUndoubted (F.File.may_leave files.0)) }
        ensures others { IfSome result (λ files. files.2 ≡ false →
            IsTrue (F.File.is_clean files.0) → IsSound (F.File.seen files.0) → ⊥) }
        ensures was { IfSome result (λ files. WasOpened F.File.Disk
            (λ one two. (folder : F) × F.answered folder (Some (one, two))) files.0) }
        ensures asks { (folder : F) × (answer : Option (F.File × F.File))
            × F.answered folder answer }
        ensures settings { self.new.settings ≡ self.old.settings }
        ensures number { self.new.number ≡ self.old.number }
        ensures opened { self.new.opened ≡ self.old.opened }
    {
        match self.folder.open() {
            Ok(Files { log, db }) => in_order(self.alloc, log, db, self.number),
            Err(fault) => {
                self.cause = cause_of(fault);
                None
            }
        }
    }

    /// Begins a segment: both files are opened anew first. If that fails they are closed: of what a
    /// crash leaves of them the store then says nothing.
    fn begin_anew(&mut self, gateway: &Gateway) -> bool
        requires { self.old.opened ≡ Opened.Neither }
        ensures begun { result ≡ true → stored_in self.new.opened ≡ record {
          head = self.old.settings.items ∷ state_lines gateway.now;
          safe = [];
          held = [];
          octets = 0;
        } }
        ensures savable { result ≡ true → IsBetweenSteps gateway.now → IsSavable gateway.now }
        ensures mark { result ≡ true → F.mark self.new.folder ≡ Some false }
        ensures bears { result ≡ true → Bears self.old.number self.new.opened }
        ensures above { result ≡ true → self.new.number ≡ u64_saturate (self.old.number + 1) }
        ensures number { (self.new.number ≡ self.old.number)
            ⊎ (self.new.number ≡ u64_saturate (self.old.number + 1)) }
        ensures settings { self.new.settings ≡ self.old.settings }
        ensures closed { result ≡ false → self.new.opened ≡ Opened.Neither }
        ensures beside { (before : Opened F.File F.File.Disk) → result ≡ true → IsLeftBeside
            (λ one two. (folder : F) × F.answered folder (Some (one, two)))
            before self.new.opened }
        ensures asks { (folder : F) × (answer : Option (F.File × F.File))
            × F.answered folder answer }
    {
        let Some((newest, spare, is_sound)) = self.open_files() else {
            return false;
        };
        if self.begin_in(newest, spare, is_sound, gateway) {
            return true;
        }
        self.opened = Opened::Neither;
        false
    }

    /// Begins a segment in the one file, while the newest one stands in the other as it is. What
    /// no crash leaves there is shut once the new segment stands, and an empty file before.
    /// Whichever call of the disk fails, a crash leaves the one file shut, or as it was, or with
    /// the new segment whole, and the other as it was.
    fn begin_in(
        &mut self,
        newest: F::File,
        spare: F::File,
        is_sound: bool,
        gateway: &Gateway,
    ) -> bool
        requires usable { IsTrue (F.File.is_usable spare) }
        requires newest { IsTrue (F.File.is_usable newest) }
        requires sound { is_sound ≡ true → IsTrue (F.File.is_clean newest) →
            AreUndoubted (F.File.may_leave newest) }
        requires backed { IsTrue (F.File.is_clean newest) → IsTrue (F.File.is_clean spare) →
            StaysBacked (F.File.may_leave newest) (F.File.seen spare) }
        requires older { IsTrue (F.File.is_clean newest) →
            AreOlder (F.File.may_leave newest) self.old.number }
        ensures begun { result ≡ true → stored_in self.new.opened ≡ record {
          head = self.old.settings.items ∷ state_lines gateway.now;
          safe = [];
          held = [];
          octets = 0;
        } }
        ensures savable { result ≡ true → IsBetweenSteps gateway.now → IsSavable gateway.now }
        ensures newest { is_sound ≡ true → result ≡ true → SpareIs newest self.new.opened }
        ensures mark { result ≡ true → F.mark self.new.folder ≡ Some false }
        ensures bears { result ≡ true → Bears self.old.number self.new.opened }
        ensures number { self.new.number ≡ u64_saturate (self.old.number + 1) }
        ensures settings { self.new.settings ≡ self.old.settings }
        ensures open { is_sound ≡ true → AreOpen self.new.opened }
        ensures amid { is_sound ≡ true → AreMixing F.File.Disk → (file other : List ℕ) →
            leaves_behind self.new.opened file other → F.File.may_leave newest file
            × IsAmid (F.File.may_leave spare) self.old.number self.old.settings.items
            (state_lines gateway.now) other }
    {
        let number = self.number;
        self.number = number.saturating_add(1);
        let Some(newest) = shut_if_blank(self.alloc, newest, is_sound, &mut self.cause) else {
            self.opened = Opened::Neither;
            return false;
        };
        let settings = &self.settings;
        let segment = write_segment(self.alloc, spare, &newest, number, settings, gateway);
        let segment = match segment {
            Ok(segment) => segment,
            Err(Failed { file: spare, fault }) => {
                self.cause = cause_of(FolderFault::from(fault));
                self.opened = Opened::Both(newest, spare);
                return false;
            }
        };
        let Some(spare) = mended(newest, is_sound, number) else {
            return false;
        };
        let current = Current {
            segment,
            number,
            octets: 0,
            spare,
        };
        self.opened = Opened::Current(current);
        self.cause = None;
        self.unmark()
    }

    /// Whatever a crash leaves now of the file of a log that was begun has what the store says of
    /// it: the head, the lines that are synced, and nothing else but those that wait, all of them
    /// or none. No octet of a line may be 0 or begin a seal.
    #[tactic(auto, using(crate::proofs::Surviving::none_survives))]
    pub fn survives(&self)
        ensures { ((stored_in self.now.opened).head ≡ [] → ⊥) →
            AreLines (stored_in self.now.opened).safe →
            SurvivesAsLogged self.now.opened }
    {
        if let Opened::Current(current) = &self.opened {
            current.segment.survives();
        }
    }

    /// Whatever a crash leaves now of the other file, no start doubts it, and it has segments alone
    /// that are older than the log's. So a start finds the log
    /// ([`crate::a_start_goes_on_behind_a_crash`]). While the next log is begun in the other file,
    /// either that is so, or it has that log whole, and the file of this one is the older.
    #[tactic(auto, using(crate::proofs::Surviving::none_beside, crate::proofs::Surviving::no_amid))]
    pub fn has_older_beside(&self)
        ensures older { ((stored_in self.now.opened).head ≡ [] → ⊥) → (file other : List ℕ) →
            leaves_both self.now.opened file other → IsOlderBeside file other }
        ensures amid { ((stored_in self.now.opened).head ≡ [] → ⊥) → (number : ℕ)
            (settings : List ℕ) (lines : List (List ℕ)) (file other : List ℕ) →
            leaves_amid self.now.opened number settings lines file other →
            IsOlderBeside file other
            ⊎ (HasFreshLog number settings lines other × IsOlderBeside other file) }
    {
        if let Opened::Current(current) = &self.opened {
            current.segment.survives();
        }
    }

    /// Takes the mark away, unless none stands.
    fn unmark(&mut self) -> bool
        ensures mark { result ≡ true → F.mark self.new.folder ≡ Some false }
        ensures opened { self.new.opened ≡ self.old.opened }
        ensures number { self.new.number ≡ self.old.number }
        ensures settings { self.new.settings ≡ self.old.settings }
    {
        if self.is_unmarked {
            return true;
        }
        if let Opened::Current(current) = &self.opened {
            self.is_unmarked = self.folder.unmark(&current.segment);
        }
        self.is_unmarked
    }
}

/// Both files that are open, if no write or sync has failed at either. The next segment has this
/// number.
fn files_of<D: Disk + Drop>(alloc: Global, opened: Opened<D>, number: u64) -> Option<(D, D, bool)>
    ensures own { IfSome result (λ files. AreFilesOf opened files.0 files.1 files.2 number) }
    ensures newest { IfSome result (λ files. IsTrue (D.Disk.is_usable files.0)) }
    ensures spare { IfSome result (λ files. IsTrue (D.Disk.is_usable files.1)) }
    ensures backed { IfSome result (λ files. IsTrue (D.Disk.is_clean files.0) →
        IsTrue (D.Disk.is_clean files.1) →
        StaysBacked (D.Disk.may_leave files.0) (D.Disk.seen files.1)) }
    ensures older { IfSome result (λ files. IsTrue (D.Disk.is_clean files.0) →
        AreOlder (D.Disk.may_leave files.0) number) }
    ensures sound { IfSome result (λ files. files.2 ≡ true → IsTrue (D.Disk.is_clean files.0) →
        AreUndoubted (D.Disk.may_leave files.0)) }
    ensures others { IfSome result (λ files. files.2 ≡ false → IsTrue (D.Disk.is_clean files.0) →
        IsSound (D.Disk.seen files.0) → ⊥) }
    ensures was { IfSome result (λ files. WasOpen opened files.0) }
{
    match opened {
        Opened::Neither => None,
        Opened::Both(newest, spare) => {
            if newest.may_be_used() && spare.may_be_used() {
                in_order(alloc, newest, spare, number)
            } else {
                None
            }
        }
        Opened::Current(current) => files_behind(alloc, current, number),
    }
}

/// The file of this segment, which this run has written, and the other one, if that may be written
/// over. So no checkpoint is read in mid-run, when the stations wait.
fn files_behind<D: Disk + Drop>(
    alloc: Global,
    current: Current<D>,
    number: u64,
) -> Option<(D, D, bool)>
    ensures newest { IfSome result (λ files. IsTrue (D.Disk.is_usable files.0)) }
    ensures spare { IfSome result (λ files. IsTrue (D.Disk.is_usable files.1)) }
    ensures backed { IfSome result (λ files. IsTrue (D.Disk.is_clean files.0) →
        IsTrue (D.Disk.is_clean files.1) →
        StaysBacked (D.Disk.may_leave files.0) (D.Disk.seen files.1)) }
    ensures older { IfSome result (λ files. IsTrue (D.Disk.is_clean files.0) →
        AreOlder (D.Disk.may_leave files.0) number) }
    ensures sound { IfSome result (λ files. files.2 ≡ true → IsTrue (D.Disk.is_clean files.0) →
        AreUndoubted (D.Disk.may_leave files.0)) }
    ensures same { IfSome result (λ files. (files.0 ≡ file_of current.segment)
        × (D.Disk.seen files.1 ≡ D.Disk.seen current.spare)) }
    ensures own { IfSome result (λ files. (files.2 ≡ true) × (current.number < number)) }
    ensures crash { IfSome result (λ files. (file : List ℕ) →
        D.Disk.may_leave files.1 file → D.Disk.may_leave current.spare file) }
{
    let Current {
        segment,
        number: own,
        octets: _,
        spare,
    } = current;
    if own >= number || !segment.is_open() || !spare.may_be_used() {
        return None;
    }
    segment.survives();
    let mut spare = spare;
    match segment.backs(alloc, &mut spare) {
        Ok(true) => {}
        Ok(false) | Err(_) => return None,
    }
    let newest = segment.into_file();
    if newest.may_be_used() {
        Some((newest, spare, true))
    } else {
        None
    }
}

/// Both files: that of the newest segment that is whole, and the other one. `None`: one couldn't be
/// read, or synced.
fn in_order<D: Disk + Drop>(alloc: Global, log: D, db: D, number: u64) -> Option<(D, D, bool)>
    requires log { IsTrue (D.Disk.is_usable log) }
    requires db { IsTrue (D.Disk.is_usable db) }
    ensures newest { IfSome result (λ files. IsTrue (D.Disk.is_usable files.0)) }
    ensures spare { IfSome result (λ files. IsTrue (D.Disk.is_usable files.1)) }
    ensures backed { IfSome result (λ files. IsTrue (D.Disk.is_clean files.0) →
        IsTrue (D.Disk.is_clean files.1) →
        StaysBacked (D.Disk.may_leave files.0) (D.Disk.seen files.1)) }
    ensures older { IfSome result (λ files. IsTrue (D.Disk.is_clean files.0) →
        AreOlder (D.Disk.may_leave files.0) number) }
    ensures sound { IfSome result (λ files. files.2 ≡ true → IsTrue (D.Disk.is_clean files.0) →
        AreUndoubted (D.Disk.may_leave files.0)) }
    ensures others { IfSome result (λ files. files.2 ≡ false → IsTrue (D.Disk.is_clean files.0) →
        IsSound (D.Disk.seen files.0) → ⊥) }
    ensures was { IfSome result (λ files.
        IsOneOf (D.Disk.seen log) (D.Disk.seen db) (D.Disk.seen files.0)) }
{
    let (mut log, mut db) = (log, db);
    match newest_side(alloc, &mut log, &mut db) {
        Ok(Side::Log) => settled(alloc, log, db, number),
        Ok(Side::Db) => settled(alloc, db, log, number),
        Err(_) => None,
    }
}

/// Both files, if the newest segment is older than the next one, and stands on the disk as it
/// reads. Else a crash could take it while the other file is written over: a process that was
/// killed, or a sync that failed, may have left it in the system's memory alone.
fn settled<D: Disk + Drop>(alloc: Global, newest: D, spare: D, number: u64) -> Option<(D, D, bool)>
    requires first { IsTrue (D.Disk.is_usable newest) }
    requires other { IsTrue (D.Disk.is_usable spare) }
    requires behind { IsTrue (D.Disk.is_clean newest) → IsTrue (D.Disk.is_clean spare) →
        IsBacked (D.Disk.seen newest) (D.Disk.seen spare) }
    ensures newest { IfSome result (λ files. IsTrue (D.Disk.is_usable files.0)) }
    ensures spare { IfSome result (λ files. IsTrue (D.Disk.is_usable files.1)) }
    ensures backed { IfSome result (λ files. IsTrue (D.Disk.is_clean files.0) →
        IsTrue (D.Disk.is_clean files.1) →
        StaysBacked (D.Disk.may_leave files.0) (D.Disk.seen files.1)) }
    ensures older { IfSome result (λ files. IsTrue (D.Disk.is_clean files.0) →
        AreOlder (D.Disk.may_leave files.0) number) }
    ensures sound { IfSome result (λ files. files.2 ≡ true → IsTrue (D.Disk.is_clean files.0) →
        AreUndoubted (D.Disk.may_leave files.0)) }
    ensures others { IfSome result (λ files. files.2 ≡ false → IsTrue (D.Disk.is_clean files.0) →
        IsSound (D.Disk.seen files.0) → ⊥) }
    ensures was { IfSome result (λ files. D.Disk.seen files.0 ≡ D.Disk.seen newest) }
{
    let mut newest = newest;
    match is_below(alloc, &mut newest, number) {
        Ok(true) => {}
        Ok(false) | Err(_) => return None,
    }
    let Ok(is_sound) = is_sound(alloc, &mut newest) else {
        return None;
    };
    match newest.sync() {
        Ok(()) => Some((newest, spare, is_sound)),
        Err(_) => None,
    }
}

/// The file of the segment before the new one, which a start looks at beside that. What no crash
/// leaves there is shut, on the disk too: else a start would reset each link. `None`: it couldn't
/// be done.
fn mended<D: Disk + Drop>(newest: D, is_sound: bool, number: u64) -> Option<D>
    requires usable { IsTrue (D.Disk.is_usable newest) }
    requires sound { is_sound ≡ true → IsTrue (D.Disk.is_clean newest) →
        AreUndoubted (D.Disk.may_leave newest) }
    requires older { IsTrue (D.Disk.is_clean newest) → AreOlder (D.Disk.may_leave newest) number }
    ensures same { is_sound ≡ true → result ≡ Some newest }
    ensures sound { IfSome result (λ file. IsTrue (D.Disk.is_clean file) →
        AreUndoubted (D.Disk.may_leave file)) }
    ensures older { IfSome result (λ file. IsTrue (D.Disk.is_clean file) →
        AreOlder (D.Disk.may_leave file) number) }
{
    if is_sound {
        return Some(newest);
    }
    let mut file = newest;
    match shut(&mut file) {
        Ok(()) => Some(file),
        Err(_) => None,
    }
}

/// Puts the head of a log: the settings, and the state of a gateway.
fn put_head<S: Sheet>(
    alloc: Global,
    sheet: &mut S,
    settings: &[u8],
    gateway: &Gateway,
) -> Result<(), StateFault>
    ensures lines { OnOk result (S.written sheet.new
        ≡ S.written sheet.old ++ settings.now ∷ state_lines gateway.now) }
    ensures savable { IsBetweenSteps gateway.now → OnOk result (IsSavable gateway.now) }
{
    sheet.put_octets(settings)?;
    let mut line = Vec::new(alloc);
    gateway.put_state(sheet, &mut line)
}

/// What the system said, where a directory can't be used, if it said anything.
fn cause_of(fault: FolderFault) -> Option<ErrorKind> {
    match fault {
        FolderFault::InUse | FolderFault::Unusable(_, ErrorKind::Other) => None,
        FolderFault::Unusable(_, cause) => Some(cause),
        FolderFault::NoMemory => Some(ErrorKind::OutOfMemory),
    }
}

/// The file beside which the next segment is begun. If nothing was ever begun in it, it is shut
/// first: a start that found the new segment beside an empty file would take that for one that was
/// cut. `None`: it couldn't be done, and the cause is noted.
fn shut_if_blank<D: Disk + Drop>(
    alloc: Global,
    newest: D,
    is_sound: bool,
    cause: &mut Option<ErrorKind>,
) -> Option<D>
    requires { IsTrue (D.Disk.is_usable newest) }
    ensures same { is_sound ≡ true → result ≡ Some newest }
    ensures usable { IfSome result (λ file. IsTrue (D.Disk.is_usable file)) }
    ensures clean { IfSome result (λ file. IsTrue (D.Disk.is_clean file) →
        IsTrue (D.Disk.is_clean newest)) }
    ensures backed { IfSome result (λ file. IsTrue (D.Disk.is_clean file) → (spare : List ℕ) →
        StaysBacked (D.Disk.may_leave newest) spare → StaysBacked (D.Disk.may_leave file) spare) }
    ensures older { IfSome result (λ file. IsTrue (D.Disk.is_clean file) → (number : ℕ) →
        AreOlder (D.Disk.may_leave newest) number → AreOlder (D.Disk.may_leave file) number) }
{
    if is_sound {
        return Some(newest);
    }
    let mut file = newest;
    match shut_blank(alloc, &mut file) {
        Ok(()) => Some(file),
        Err(fault) => {
            *cause = cause_of(FolderFault::from(fault));
            None
        }
    }
}

/// A segment that is begun, with this head. An `Err` gives the file back, which is shut.
#[tactic(auto, using(crate::proofs::LogLemmas::lines_put))]
fn with_head<D: Disk + Drop>(
    alloc: Global,
    writer: Writer<D>,
    settings: &[u8],
    gateway: &Gateway,
) -> Result<Writer<D>, Failed<D>>
    requires { appended_to writer ≡ [] }
    ensures head { IfOk result (λ w. lines_in (appended_to w)
        ≡ settings.now ∷ state_lines gateway.now) }
    ensures savable { IsBetweenSteps gateway.now → OnOk result (IsSavable gateway.now) }
    ensures shut { IfErr result (λ failed. IsShut (D.Disk.may_leave failed.file)) }
{
    let mut sheet = TextSheet::new(alloc, writer);
    match put_head(alloc, &mut sheet, settings, gateway) {
        Ok(()) => Ok(sheet.into_octets()),
        Err(_) => Err(sheet.into_octets().give_up()),
    }
}

/// Writes a segment with this head into a file, with room for lines: if no new log is due yet, for
/// the longest line and its seal. An `Err` gives the file back. Then it is shut, or as it was, or
/// has the segment whole.
fn write_segment<D: Disk + Drop>(
    alloc: Global,
    spare: D,
    newest: &D,
    number: u64,
    settings: &[u8],
    gateway: &Gateway,
) -> Result<Segment<D>, Failed<D>>
    requires usable { IsTrue (D.Disk.is_usable spare) }
    requires backed { IsTrue (D.Disk.is_clean newest.now) → IsTrue (D.Disk.is_clean spare) →
        StaysBacked (D.Disk.may_leave newest.now) (D.Disk.seen spare) }
    ensures head { IfOk result
        (λ s. lines_in (body_of s) ≡ settings.now ∷ state_lines gateway.now) }
    ensures savable { IsBetweenSteps gateway.now → OnOk result (IsSavable gateway.now) }
    ensures writes { IfOk result (λ s. (writes_of s ≡ []) × (open_of s ≡ [])) }
    ensures number { IfOk result (λ s. own_number s ≡ number) }
    ensures octets { IfOk result (λ s. octets_of s ≡ 87 + length (body_of s)) }
    ensures room { IfOk result (λ s.
        octets_of s + most_octets + longest_line + seal_octets ≤ size_of s) }
    ensures fresh { IfOk result (λ s. AreMixing D.Disk → (file : List ℕ) → outcomes_of s file →
        HasFreshLog number settings.now (state_lines gateway.now) file) }
    ensures amid { IfErr result (λ failed. AreMixing D.Disk → AreAmid (D.Disk.may_leave spare)
        number settings.now (state_lines gateway.now) (D.Disk.may_leave failed.file)) }
{
    let writer = match Writer::begin(alloc, spare, newest) {
        Ok(writer) => writer,
        Err(failed) => return Err(failed),
    };
    let writer = with_head(alloc, writer, settings, gateway)?;
    match writer.finish(alloc, number) {
        Ok(segment) => {
            segment.survives();
            Ok(segment)
        }
        Err(failed) => Err(failed),
    }
}

/// Appends a line to a log. If that fails, the cause is noted.
fn append_to<D: Disk + Drop>(
    current: &mut Current<D>,
    lines: &[u8],
    cause: &mut Option<ErrorKind>,
) -> Result<(), StoreFault>
    requires { length lines.now ≤ longest_line }
    ensures held { OnOk result (open_of current.new.segment
        ≡ open_of current.old.segment ++ lines.now) }
    ensures octets { OnOk result (current.new.octets
        ≡ current.old.octets + length lines.now) }
    ensures same { (body_of current.new.segment ≡ body_of current.old.segment)
        × (writes_of current.new.segment ≡ writes_of current.old.segment) }
    ensures refused { IfErr result (λ fault. IsRefusedBy fault [] current.old.octets) }
{
    let Some(octets) = current.octets.checked_add(lines.len()) else {
        return Err(StoreFault::Full);
    };
    current.octets = octets;
    current.segment.survives();
    match current.segment.append(lines) {
        Ok(()) => Ok(()),
        Err(fault) => {
            *cause = cause_of(FolderFault::from(fault));
            Err(refusal(fault))
        }
    }
}

/// Seals and syncs what was appended to a log. `false` says that it failed: the cause is noted.
fn sync_to<D: Disk + Drop>(current: &mut Current<D>, cause: &mut Option<ErrorKind>) -> bool
    ensures synced { result ≡ true → concat (writes_of current.new.segment)
        ≡ concat (writes_of current.old.segment) ++ open_of current.old.segment }
    ensures held { result ≡ true → open_of current.new.segment ≡ [] }
    ensures octets { result ≡ true → current.new.octets ≡ current.old.octets + seal_octets }
    ensures same { body_of current.new.segment ≡ body_of current.old.segment }
{
    let Some(octets) = current.octets.checked_add(SEAL) else {
        return false;
    };
    current.octets = octets;
    match current.segment.sync() {
        Ok(()) => true,
        Err(fault) => {
            *cause = cause_of(FolderFault::from(fault));
            false
        }
    }
}

/// Why a line isn't appended.
fn refusal(fault: SegmentFault) -> StoreFault
    ensures full { result ≡ StoreFault.Full → fault ≡ SegmentFault.Full }
    ensures writable { result ≡ StoreFault.Unwritable → ⊥ }
{
    match fault {
        SegmentFault::Full => StoreFault::Full,
        SegmentFault::Device(_) | SegmentFault::NoMemory => StoreFault::Failed,
    }
}

impl<F: Folder + Drop> Store for DiskStore<F> {
    ghost use Rattle.state.specs.Logs.{Bears, IsReadWell, leaves_amid, leaves_behind, stored_in};
    ghost use Rattle.state.specs.Logs.{IsLeftBeside};

    ghost stored = { λ s. stored_in s.opened };

    ghost settings = { λ s. s.settings.items };

    ghost mark = { λ s. F.mark s.folder };

    ghost refused = { λ s. F.refused s.folder };

    ghost next = { λ s. s.number };

    ghost bears = { λ s number. Bears number s.opened };

    fn append(&mut self, lines: &[u8]) -> Result<(), StoreFault> {
        match &mut self.opened {
            Opened::Current(current) => append_to(current, lines, &mut self.cause),
            Opened::Neither | Opened::Both(..) => Err(StoreFault::Failed),
        }
    }

    fn sync(&mut self) -> bool {
        match &mut self.opened {
            Opened::Current(current) => sync_to(current, &mut self.cause),
            Opened::Neither | Opened::Both(..) => false,
        }
    }

    /// Whichever call of the disk fails, a crash leaves this log's file as it was, and the other
    /// one shut, or as it was, or with the next log whole. If the files had to be opened anew, none
    /// is open behind a call that has failed.
    fn begin(&mut self, gateway: &Gateway) -> bool
        ensures begun { result ≡ true → stored_in self.new.opened ≡ record {
          head = self.old.settings.items ∷ state_lines gateway.now;
          safe = [];
          held = [];
          octets = 0;
        } }
        ensures savable { result ≡ true → IsBetweenSteps gateway.now → IsSavable gateway.now }
        ensures mark { result ≡ true → F.mark self.new.folder ≡ Some false }
        ensures bears { result ≡ true → Bears self.old.number self.new.opened }
        ensures above { result ≡ true → self.new.number ≡ u64_saturate (self.old.number + 1) }
        ensures next { (self.new.number ≡ self.old.number)
            ⊎ (self.new.number ≡ u64_saturate (self.old.number + 1)) }
        ensures settings { self.new.settings.items ≡ self.old.settings.items }
        ensures amid { result ≡ false → AreMixing F.File.Disk → IsReadWell self.old.opened →
            (file other : List ℕ) → leaves_behind self.new.opened file other →
            leaves_amid self.old.opened self.old.number self.old.settings.items
            (state_lines gateway.now) file other }
        // The newest file of before stands beside the new log as it was, also if both had to be
        // opened anew. If neither is open they are asked for.
        ensures beside { result ≡ true → IsLeftBeside
            (λ one two. (folder : F) × F.answered folder (Some (one, two)))
            self.old.opened self.new.opened }
        ensures asks { self.old.opened ≡ Opened.Neither → (folder : F)
            × (answer : Option (F.File × F.File)) × F.answered folder answer }
    {
        let number = self.number;
        let opened = mem::replace(&mut self.opened, Opened::Neither);
        match files_of(self.alloc, opened, number) {
            Some((newest, spare, is_sound)) => self.begin_in(newest, spare, is_sound, gateway),
            None => self.begin_anew(gateway),
        }
    }

    fn event_octets(&self) -> u64 {
        match &self.opened {
            Opened::Current(current) => current.octets as u64,
            Opened::Neither | Opened::Both(..) => 0,
        }
    }

    fn give_up(&mut self) -> Loss {
        self.opened = Opened::Neither;
        self.is_unmarked = false;
        if self.folder.mark_stale() {
            Loss::Marked
        } else {
            Loss::Unmarked
        }
    }

    fn cause(&self) -> Option<ErrorKind> {
        self.cause
    }
}
