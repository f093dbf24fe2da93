//! The segment whose lines are appended.
ghost use Rattle.std.specs.Prelude.{◌≡◌, ◌+◌, ◌-◌, ◌<◌, ◌≤◌, ◌^◌, ◌∷◌, ◌++◌, ℕ, List, []};
ghost use Rattle.std.specs.Prelude.{length, drop, slice_index, take, IsTrue, OnOk, OnErr, IfOk};
ghost use Rattle.std.specs.Prelude.{IfErr};
ghost use Rattle.std.specs.Prelude.{Err, true, false};
ghost use Rattle.std.specs.List.{concat};
ghost use Rattle.std.specs.declared.io.ErrorKind.{ErrorKind};
ghost use Rattle.std.specs.declared.io.ErrorKind.TheVariants.{Other};
ghost use Rattle.segments.specs.Faults.{IsDevice};
ghost use Rattle.segments.specs.declared.fault.SegmentFault.TheVariants.{Device, Full, NoMemory};
ghost use Rattle.segments.specs.Crash.{AreMixing, HasLength, BeginsWith, HasAt, HasNoOther};
ghost use Rattle.segments.specs.Crash.{IsBlankFrom};
ghost use Rattle.segments.specs.Crashes.{StandsIn, StaysBacked, Survives, log_text};
ghost use Rattle.segments.specs.Head.{Fits, head_for, head_of, whole_text};
ghost use Rattle.segments.specs.Room.{is_room};
ghost use Rattle.segments.specs.Starts.{BeginsNewer};
ghost use Rattle.segments.specs.Written.{text_in};
ghost use Rattle.sqlite_disk.specs.Disk.{Only};
ghost use Rattle.statetext.specs.Sealed.{AreWrites, sealed_text};
ghost use Rattle.statetext.specs.Sum.{remainder_after, sum_of};

use crate::SegmentFault;
use crate::room::row_with_room;
use crate::start::{front_at, number_of};
use crate::written::Written;
use sqlite_disk::Disk;
use statetext::{SEAL, Sum, seal_of};
use std::alloc::Global;
use std::io::ErrorKind;

/// How many octets are held at most before they are written.
const PAGE: usize = 65_536;

/// How much room they have: a line of an event, which has fewer octets than 4,096, may be held
/// behind them.
const ROOM: usize = 69_632;

/// A write or a sync has failed before.
const CLOSED: SegmentFault = SegmentFault::Device(ErrorKind::Other);

/// A segment whose lines are appended. Its file was zeroed to its full length and synced before.
/// What is appended between two syncs is a write: the sync puts a seal behind its lines.
#[derive(Drop)]
pub struct Segment<D: Disk> {
    file: D,
    number: u64,
    /// Where the lines behind its checkpoint begin.
    begins: usize,
    /// How many octets of the text are synced. There the write begins that isn't sealed yet.
    durable: usize,
    /// How many octets of the text stand in the file. Zeros stand behind them.
    stored: usize,
    /// How long the file is.
    size: usize,
    /// The octets of the text that are still to be written.
    page: Vec<u8>,
    /// The sum of the first line.
    seed: Sum,
    /// The sum of the first line and of the lines behind the last seal.
    sum: Sum,
    /// No write or sync has failed.
    is_open: bool,
    written: Written,
    ghost begun: { begins ≡ 87 + length written.has.body },
    ghost fits: { Fits (head_for number written.has.body) },
    ghost safe: { durable ≡ length (log_text number written.has.body written.has.writes) },
    ghost ordered: { durable ≤ stored },
    ghost within: { stored + length page.items ≤ size },
    ghost sealable: { durable < stored + length page.items →
        stored + length page.items + 27 ≤ size },
    ghost blocks: { is_room (size - begins) ≡ true },
    ghost sized: { length (D.Disk.seen file) ≡ size },
    ghost usable: { IsTrue is_open → IsTrue (D.Disk.is_usable file) },
    ghost blank: { IsTrue is_open → IsBlankFrom stored (D.Disk.seen file) },
    ghost text: { IsTrue is_open → text_in stored (D.Disk.seen file) page.items
        ≡ log_text number written.has.body written.has.writes ++ written.has.lines },
    ghost long: { HasLength (D.Disk.may_leave file) size },
    ghost kept: { BeginsWith (D.Disk.may_leave file) durable
        (log_text number written.has.body written.has.writes) },
    ghost left: { AreMixing D.Disk → IsTrue is_open → HasNoOther (D.Disk.may_leave file)
        (log_text number written.has.body written.has.writes ++ written.has.lines) },
    ghost mixed: { AreMixing D.Disk → HasNoOther (D.Disk.may_leave file)
        (log_text number written.has.body (written.has.writes ++ written.has.lines ∷ [])) },
    ghost seeded: { seed.remainder
        ≡ remainder_after 0xffffffff (head_of (head_for number written.has.body)) },
    ghost summed: { IsTrue is_open →
        sum.remainder ≡ remainder_after seed.remainder written.has.lines },
}

/// Writes octets where zeros stand.
fn store<D: Disk>(file: &mut D, at: usize, octets: &[u8]) -> Result<usize, SegmentFault>
    requires usable { IsTrue (D.Disk.is_usable file.old) }
    requires some { 0 < length octets.now }
    requires within { at + length octets.now ≤ length (D.Disk.seen file.old) }
    requires small { at + length octets.now < 2 ^ 64 }
    requires blank { IsBlankFrom at (D.Disk.seen file.old) }
    ensures end { IfOk result (λ end. end ≡ at + length octets.now) }
    ensures text { OnOk result (text_in (at + length octets.now) (D.Disk.seen file.new) []
        ≡ text_in at (D.Disk.seen file.old) octets.now) }
    ensures blank { OnOk result (IsBlankFrom (at + length octets.now) (D.Disk.seen file.new)) }
    ensures fault { IfErr result IsDevice }
    ensures sized { length (D.Disk.seen file.new) ≡ length (D.Disk.seen file.old) }
    ensures usable { IsTrue (D.Disk.is_usable file.new) }
    ensures long { HasLength (D.Disk.may_leave file.old) (length (D.Disk.seen file.old))
        → HasLength (D.Disk.may_leave file.new) (length (D.Disk.seen file.old)) }
    ensures kept { (n : ℕ) (text : List ℕ) → n ≤ at
        → HasLength (D.Disk.may_leave file.old) (length (D.Disk.seen file.old))
        → BeginsWith (D.Disk.may_leave file.old) n text
        → BeginsWith (D.Disk.may_leave file.new) n text }
    ensures mixing { D.Disk.is_mixing file.new ≡ D.Disk.is_mixing file.old }
    ensures mixed { (text : List ℕ) → IsTrue (D.Disk.is_mixing file.old)
        → HasLength (D.Disk.may_leave file.old) (length (D.Disk.seen file.old))
        → HasAt at octets.now text
        → HasNoOther (D.Disk.may_leave file.old) text
        → HasNoOther (D.Disk.may_leave file.new) text }
{
    match file.write_at(at, octets) {
        Ok(()) => Ok(at + octets.len()),
        Err(error) => Err(SegmentFault::Device(error.kind())),
    }
}

/// Writes octets where zeros stand, and syncs.
fn commit<D: Disk>(file: &mut D, at: usize, octets: &[u8]) -> Result<usize, SegmentFault>
    requires usable { IsTrue (D.Disk.is_usable file.old) }
    requires some { 0 < length octets.now }
    requires within { at + length octets.now ≤ length (D.Disk.seen file.old) }
    requires small { at + length octets.now < 2 ^ 64 }
    requires blank { IsBlankFrom at (D.Disk.seen file.old) }
    ensures end { IfOk result (λ end. end ≡ at + length octets.now) }
    ensures text { OnOk result (text_in (at + length octets.now) (D.Disk.seen file.new) []
        ≡ text_in at (D.Disk.seen file.old) octets.now) }
    ensures blank { OnOk result (IsBlankFrom (at + length octets.now) (D.Disk.seen file.new)) }
    ensures durable { OnOk result (Only (D.Disk.seen file.new) (D.Disk.may_leave file.new)) }
    ensures usable { OnOk result (IsTrue (D.Disk.is_usable file.new)) }
    ensures fault { IfErr result IsDevice }
    ensures sized { length (D.Disk.seen file.new) ≡ length (D.Disk.seen file.old) }
    ensures long { HasLength (D.Disk.may_leave file.old) (length (D.Disk.seen file.old))
        → HasLength (D.Disk.may_leave file.new) (length (D.Disk.seen file.old)) }
    ensures kept { (n : ℕ) (text : List ℕ) → n ≤ at
        → HasLength (D.Disk.may_leave file.old) (length (D.Disk.seen file.old))
        → BeginsWith (D.Disk.may_leave file.old) n text
        → BeginsWith (D.Disk.may_leave file.new) n text }
    ensures mixed { (text : List ℕ) → IsTrue (D.Disk.is_mixing file.old)
        → HasLength (D.Disk.may_leave file.old) (length (D.Disk.seen file.old))
        → HasAt at octets.now text
        → HasNoOther (D.Disk.may_leave file.old) text
        → HasNoOther (D.Disk.may_leave file.new) text }
{
    let end = store(file, at, octets)?;
    match file.sync() {
        Ok(()) => Ok(end),
        Err(error) => Err(SegmentFault::Device(error.kind())),
    }
}

impl<D: Disk> Segment<D> {
    ghost use Rattle.segments.specs.Segment.{body_of, file_of, fixed_of, is_open, octets_of};
    ghost use Rattle.segments.specs.Segment.{open_of, outcomes_of, own_number, seal_octets};
    ghost use Rattle.segments.specs.Segment.{size_of};
    ghost use Rattle.segments.specs.Segment.{with_write, writes_of};

    /// A segment in a file that is synced: the text ends there, zeros stand behind it. The sum is
    /// that of the first line.
    pub(crate) fn begun(
        file: D,
        number: u64,
        end: usize,
        size: usize,
        seed: Sum,
        alloc: Global,
    ) -> Segment<D>
        requires usable { IsTrue (D.Disk.is_usable file) }
        requires behind { 87 ≤ end }
        requires summed { sum_of (drop 87 (take end (D.Disk.seen file))) < 2 ^ 32 }
        requires whole { take end (D.Disk.seen file)
            ≡ whole_text number (drop 87 (take end (D.Disk.seen file))) }
        requires blocks { is_room (size - end) ≡ true }
        requires within { end ≤ size }
        requires sized { length (D.Disk.seen file) ≡ size }
        requires synced { Only (D.Disk.seen file) (D.Disk.may_leave file) }
        requires blank { IsBlankFrom end (D.Disk.seen file) }
        requires seeded { seed.remainder ≡ remainder_after 0xffffffff (head_of
            (head_for number (drop 87 (take end (D.Disk.seen file))))) }
        ensures number { own_number result ≡ number }
        ensures body { body_of result ≡ drop 87 (take end (D.Disk.seen file)) }
        ensures fits { Fits (head_for number (drop 87 (take end (D.Disk.seen file)))) }
        ensures writes { writes_of result ≡ [] }
        ensures none { open_of result ≡ [] }
        ensures octets { octets_of result ≡ end }
        ensures size { size_of result ≡ size }
        ensures open { is_open result ≡ true }
    {
        let written = Written::of(&file, end);
        Segment {
            file,
            number,
            begins: end,
            durable: end,
            stored: end,
            size,
            page: row_with_room(alloc, ROOM),
            seed,
            sum: seed,
            is_open: true,
            written,
        }
    }

    /// Whether the other file may be written over: no segment begins there that is newer than this
    /// one, which stands whole in its own file, whatever a crash leaves of that. Of the other file
    /// one line is read, and of its own file none. An `Err` says that it couldn't be read.
    pub fn backs(&self, alloc: Global, other: &mut D) -> Result<bool, SegmentFault>
        requires { IsTrue (D.Disk.is_usable other.old) }
        ensures backed { IfOk result (λ backs. backs ≡ true → IsTrue (D.Disk.is_clean other.new) →
            StaysBacked (outcomes_of self.now) (D.Disk.seen other.new)) }
        ensures newer { IfOk result (λ backs. backs ≡ false → IsTrue (D.Disk.is_clean other.new) →
            BeginsNewer (own_number self.now) (D.Disk.seen other.new)) }
        ensures usable { IsTrue (D.Disk.is_usable other.new) }
        ensures seen { D.Disk.seen other.new ≡ D.Disk.seen other.old }
        ensures crash { (c : List ℕ) →
            D.Disk.may_leave other.new c → D.Disk.may_leave other.old c }
    {
        // One line is enough: which file this run has written is known (docs/DECISIONS.md, "The
        // newest log is never written over").
        let front = front_at(alloc, other)?;
        Ok(number_of(front) <= self.number)
    }

    /// The file, with what is held given up.
    pub fn into_file(self) -> D
        ensures { result ≡ file_of self }
    {
        let Segment { file, .. } = self;
        file
    }

    /// Whatever a crash leaves now begins with the checkpoint and the writes that are synced, each
    /// with its seal. If the disk says that a crash leaves each octet old or new, there is nothing
    /// behind them but octets of the write that isn't synced, and zeros.
    pub fn survives(&self)
        ensures stands { StandsIn (outcomes_of self.now) (own_number self.now) }
        // So a start finds its checkpoint and its writes, if no octet of a line is 0 or begins a
        // seal ([`crate::a_start_finds_what_was_synced`]).
        ensures survives { AreWrites (writes_of self.now) → Survives (outcomes_of self.now)
            (own_number self.now) (body_of self.now) (writes_of self.now) }
        ensures mixed { AreMixing D.Disk → HasNoOther (outcomes_of self.now) (log_text
            (own_number self.now) (body_of self.now)
            (writes_of self.now ++ open_of self.now ∷ [])) }
        ensures octets { IsTrue (is_open self.now) → octets_of self.now ≡ length (log_text
            (own_number self.now) (body_of self.now) (writes_of self.now))
            + length (open_of self.now) }
    {
        let _ = &self.file;
    }

    /// No write or sync has failed.
    pub fn is_open(&self) -> bool
        ensures { result ≡ is_open self.now }
    {
        self.is_open
    }

    /// The octets of the text, with the seals.
    pub fn octets(&self) -> usize
        ensures { result ≡ octets_of self.now }
    {
        self.stored + self.page.len()
    }

    /// Appends lines. They are on the disk once a `sync` has answered `Ok`. An `Err` says that
    /// none was appended: `Full`, that there is no room for them and a seal; `Device`, that a write
    /// failed, now or before.
    pub fn append(&mut self, octets: &[u8]) -> Result<(), SegmentFault>
        ensures open { OnOk result (open_of self.new ≡ open_of self.old ++ octets.now) }
        ensures none { OnErr result (open_of self.new ≡ open_of self.old) }
        ensures octets { OnOk result
            (octets_of self.new ≡ octets_of self.old + length octets.now) }
        ensures writes { writes_of self.new ≡ writes_of self.old }
        ensures same { fixed_of self.new ≡ fixed_of self.old }
        ensures shut { is_open self.old ≡ false → result ≡ Err (Device Other) }
        // Octets are too many exactly where the file has no room for them and a seal. Lines that
        // fill it to its last octet are appended.
        ensures full { result ≡ Err Full →
            size_of self.old < octets_of self.old + length octets.now + 27 }
        ensures beyond { is_open self.old ≡ true →
            size_of self.old < octets_of self.old + length octets.now + 27 → result ≡ Err Full }
        ensures device { (cause : ErrorKind) → result ≡ Err (Device cause) →
            is_open self.new ≡ false }
    {
        if !self.is_open {
            return Err(CLOSED);
        }
        let room = self.size - self.octets();
        if octets.len() > room || room - octets.len() < SEAL {
            return Err(SegmentFault::Full);
        }
        if self.page.len() > PAGE {
            self.write()?;
        }
        self.hold(octets)
    }

    /// Holds lines behind those that are held.
    fn hold(&mut self, octets: &[u8]) -> Result<(), SegmentFault>
        requires open { IsTrue (is_open self.old) }
        requires room { octets_of self.old + length octets.now + 27 ≤ size_of self.old }
        ensures open { OnOk result (open_of self.new ≡ open_of self.old ++ octets.now) }
        ensures none { OnErr result (open_of self.new ≡ open_of self.old) }
        ensures octets { OnOk result
            (octets_of self.new ≡ octets_of self.old + length octets.now) }
        ensures writes { writes_of self.new ≡ writes_of self.old }
        ensures same { fixed_of self.new ≡ fixed_of self.old }
        ensures fault { IfErr result (λ e. e ≡ NoMemory) }
    {
        match self.page.extend_from_slice(octets) {
            Ok(()) => {
                self.sum.add(octets);
                self.written = self.written.next(octets);
                Ok(())
            }
            Err(_) => Err(SegmentFault::NoMemory),
        }
    }

    /// Writes what is held.
    fn write(&mut self) -> Result<(), SegmentFault>
        requires open { IsTrue (is_open self.old) }
        ensures lines { open_of self.new ≡ open_of self.old }
        ensures octets { OnOk result (octets_of self.new ≡ octets_of self.old) }
        ensures writes { writes_of self.new ≡ writes_of self.old }
        ensures same { fixed_of self.new ≡ fixed_of self.old }
        ensures open { OnOk result (IsTrue (is_open self.new)) }
        ensures shut { OnErr result (is_open self.new ≡ false) }
        ensures fault { IfErr result IsDevice }
        ensures held { OnOk result (self.new.page.items ≡ []) }
    {
        if self.page.is_empty() {
            return Ok(());
        }
        let _size = self.size;
        // Until the write has answered: nobody knows how much of a failed one stands in the file.
        self.is_open = false;
        match store(&mut self.file, self.stored, &self.page) {
            Ok(end) => {
                self.stored = end;
                self.page.clear();
                self.is_open = true;
                Ok(())
            }
            Err(fault) => Err(fault),
        }
    }

    /// Writes what is held and a seal behind it, if lines came since the last one, and syncs: then
    /// all of the text is on the disk. After an `Err` nothing more can be done with the file: each
    /// later call fails. It takes no memory.
    pub fn sync(&mut self) -> Result<(), SegmentFault>
        ensures synced { OnOk result
            (concat (writes_of self.new) ≡ concat (writes_of self.old) ++ open_of self.old) }
        ensures writes { OnOk result
            (writes_of self.new ≡ with_write (writes_of self.old) (open_of self.old)) }
        ensures open { OnOk result (open_of self.new ≡ []) }
        ensures octets { OnOk result
            (octets_of self.new ≡ octets_of self.old + seal_octets (open_of self.old)) }
        ensures none { OnErr result ((writes_of self.new ≡ writes_of self.old)
            × (open_of self.new ≡ open_of self.old)) }
        ensures same { fixed_of self.new ≡ fixed_of self.old }
        ensures shut { OnErr result (is_open self.new ≡ false) }
        ensures fault { IfErr result IsDevice }
    {
        if !self.is_open {
            return Err(CLOSED);
        }
        self.write()?;
        if self.stored == self.durable {
            self.sync_only()
        } else {
            self.seal()
        }
    }

    /// Syncs when no lines came since the last seal.
    fn sync_only(&mut self) -> Result<(), SegmentFault>
        requires open { IsTrue (is_open self.old) }
        requires held { self.old.page.items ≡ [] }
        requires none { self.old.stored ≡ self.old.durable }
        ensures writes { writes_of self.new ≡ writes_of self.old }
        ensures lines { open_of self.new ≡ open_of self.old }
        ensures octets { octets_of self.new ≡ octets_of self.old }
        ensures same { fixed_of self.new ≡ fixed_of self.old }
        ensures shut { OnErr result (is_open self.new ≡ false) }
        ensures fault { IfErr result IsDevice }
    {
        // A file whose sync failed is used no more (docs/DECISIONS.md, "Two files, written in
        // turn").
        self.is_open = false;
        match self.file.sync() {
            Ok(()) => {
                self.is_open = true;
                Ok(())
            }
            Err(error) => Err(SegmentFault::Device(error.kind())),
        }
    }

    /// Writes a seal behind the lines that came since the last one, and syncs.
    fn seal(&mut self) -> Result<(), SegmentFault>
        requires open { IsTrue (is_open self.old) }
        requires held { self.old.page.items ≡ [] }
        requires some { self.old.durable < self.old.stored }
        ensures writes { OnOk result
            (writes_of self.new ≡ writes_of self.old ++ open_of self.old ∷ []) }
        ensures lines { OnOk result (open_of self.new ≡ []) }
        ensures octets { OnOk result (octets_of self.new ≡ octets_of self.old + 27) }
        ensures none { OnErr result ((writes_of self.new ≡ writes_of self.old)
            × (open_of self.new ≡ open_of self.old)) }
        ensures same { fixed_of self.new ≡ fixed_of self.old }
        ensures shut { OnErr result (is_open self.new ≡ false) }
        ensures fault { IfErr result IsDevice }
    {
        let _size = self.size;
        let place = self.durable - self.begins;
        let seal = seal_of(self.sum, place as u64);
        self.is_open = false;
        match commit(&mut self.file, self.stored, &seal) {
            Ok(end) => {
                self.stored = end;
                self.durable = end;
                self.sum = self.seed;
                self.written = self.written.next(&seal);
                self.is_open = true;
                Ok(())
            }
            Err(fault) => Err(fault),
        }
    }
}
