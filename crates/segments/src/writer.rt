//! The segment that is begun.
ghost use Rattle.std.specs.Prelude.{◌≡◌, ◌+◌, ◌*◌, ◌<◌, ◌≤◌, ◌^◌, ◌++◌, ℕ, List, [], drop, take};
ghost use Rattle.std.specs.Prelude.{◌⊎◌};
ghost use Rattle.std.specs.Prelude.{length, slice_index, bit_xor, IsTrue, IfOk, IfErr, OnOk, OnErr};
ghost use Rattle.std.specs.Prelude.{true, false};
ghost use Rattle.sqlite_disk.specs.Disk.{Only};
ghost use Rattle.segments.specs.Crash.{AreMixing, IsShut, IsLong, IsBlankFrom, IsTextTo};
ghost use Rattle.segments.specs.Crash.{IsTextIfOpen};
ghost use Rattle.segments.specs.Head.{Fits, head_for, head_of, whole_text};
ghost use Rattle.segments.specs.Crashes.{AreShutOr, HasWhole, StaysBacked};
ghost use Rattle.segments.specs.Written.{text_in};
ghost use Rattle.statetext.specs.Sum.{remainder_after};

use crate::gate::{BLOCK, BLOCKS, HEAD, publish, shut, write_behind, write_zeros};
use crate::head::{SegmentHead, print};
use crate::{Segment, SegmentFault};
use checkpoint::StateFault;
use sqlite_disk::Disk;
use statetext::{Octets, Sum};
use std::alloc::Global;

/// How many octets are held at most before they are written.
const PAGE: usize = 65_536;

/// A file whose segment isn't begun or isn't finished, with the fault.
#[derive(Drop)]
pub struct Failed<D: Disk> {
    pub file: D,
    pub fault: SegmentFault,
}

/// A segment that is begun. Until it is finished, the first octet of its file is `-` on the disk:
/// no start takes it for a segment.
#[derive(Drop)]
pub struct Writer<D: Disk> {
    file: D,
    /// How many octets of the text stand in the file, with room for the first line.
    stored: usize,
    /// The octets of the text that are still to be written.
    page: Vec<u8>,
    /// The sum of the octets behind the first line.
    sum: Sum,
    /// No write has failed.
    is_open: bool,
    /// Why the octets that came last weren't appended.
    fault: SegmentFault,
    ghost behind: { 87 ≤ stored },
    ghost sized: { IsTrue is_open → length (D.Disk.seen file) ≡ stored },
    ghost usable: { IsTrue is_open → IsTrue (D.Disk.is_usable file) },
    ghost long: { IsLong (D.Disk.may_leave file) },
    ghost shut: { IsShut (D.Disk.may_leave file) },
    ghost summed: { sum.remainder
        ≡ remainder_after 0xffffffff (drop 87 (text_in stored (D.Disk.seen file) page.items)) },
}

impl<D: Disk> Writer<D> {
    ghost use Rattle.segments.specs.Segment.{body_of, is_open, octets_of, open_of, own_number};
    ghost use Rattle.segments.specs.Segment.{size_of, writes_of};
    ghost use Rattle.segments.specs.Writer.{appended_to};

    /// Begins a segment in a file: first of all the file is shut, on the disk too. What stood there
    /// may go: if it had a segment, the newest file has one that isn't older, whatever a crash
    /// leaves of that file. An `Err` gives the file back; then it is shut, or what it was.
    pub fn begin(alloc: Global, file: D, _newest: &D) -> Result<Writer<D>, Failed<D>>
        requires usable { IsTrue (D.Disk.is_usable file) }
        requires backed { IsTrue (D.Disk.is_clean _newest.now) → IsTrue (D.Disk.is_clean file) →
            StaysBacked (D.Disk.may_leave _newest.now) (D.Disk.seen file) }
        ensures empty { IfOk result (λ w. appended_to w ≡ []) }
        ensures crash { IfErr result (λ failed. IsTrue (D.Disk.is_mixing file)
            → AreShutOr (D.Disk.may_leave failed.file) (D.Disk.may_leave file)) }
    {
        let mut file = file;
        match shut(&mut file) {
            Ok(()) => Ok(Writer {
                file,
                stored: HEAD,
                page: Vec::new(alloc),
                sum: Sum::new(),
                is_open: true,
                fault: SegmentFault::NoMemory,
            }),
            Err(fault) => Err(Failed { file, fault }),
        }
    }

    /// The file, with the segment given up, since octets weren't appended. It stays shut.
    pub fn give_up(self) -> Failed<D>
        ensures { IsShut (D.Disk.may_leave result.file) }
    {
        let Writer { file, fault, .. } = self;
        Failed { file, fault }
    }

    /// Finishes the segment: behind the text come 976 blocks of 4,096 zeros, the room for the lines
    /// to come. All is synced. An `Err` gives the file back; then it is shut, or it has the whole
    /// segment.
    pub fn finish(self, alloc: Global, number: u64) -> Result<Segment<D>, Failed<D>>
        ensures number { IfOk result (λ s. own_number s ≡ number) }
        ensures body { IfOk result (λ s. body_of s ≡ appended_to self) }
        ensures fits { IfOk result (λ _. Fits (head_for number (appended_to self))) }
        ensures writes { IfOk result (λ s. writes_of s ≡ []) }
        ensures none { IfOk result (λ s. open_of s ≡ []) }
        ensures octets { IfOk result (λ s. octets_of s ≡ 87 + length (appended_to self)) }
        ensures room { IfOk result (λ s. size_of s ≡ octets_of s + 976 * 4096) }
        ensures open { IfOk result (λ s. IsTrue (is_open s)) }
        ensures crash { IfErr result (λ failed. IsTextIfOpen (D.Disk.may_leave failed.file)
            (whole_text number (appended_to self))) }
        ensures mixed { IfErr result (λ failed. AreMixing D.Disk →
            AreShutOr (D.Disk.may_leave failed.file) (HasWhole number (appended_to self))) }
    {
        let Writer {
            mut file,
            stored,
            page,
            sum,
            is_open,
            fault,
        } = self;
        if !is_open {
            return Err(Failed { file, fault });
        }
        let _sum = sum.value();
        match fill(alloc, &mut file, stored, &page, number, sum, BLOCKS) {
            Ok((end, size, seed)) => Ok(Segment::begun(file, number, end, size, seed, alloc)),
            Err(fault) => Err(Failed { file, fault }),
        }
    }
}

/// Where the text of a segment ends, where its zeros end, and its first line.
type Parts = (usize, usize, Vec<u8>);

/// Writes what is held and the zeros.
fn prepare<D: Disk>(
    alloc: Global,
    file: &mut D,
    stored: usize,
    page: &[u8],
    number: u64,
    sum: Sum,
    blocks: usize,
) -> Result<Parts, SegmentFault>
    requires usable { IsTrue (D.Disk.is_usable file.old) }
    requires behind { 87 ≤ stored }
    requires sized { length (D.Disk.seen file.old) ≡ stored }
    requires long { IsLong (D.Disk.may_leave file.old) }
    requires shut { IsShut (D.Disk.may_leave file.old) }
    requires summed { sum.remainder
        ≡ remainder_after 0xffffffff (drop 87 (text_in stored (D.Disk.seen file.old) page.now)) }
    ensures text { IfOk result (λ parts.
        parts.2.items ++ drop 87 (text_in parts.0 (D.Disk.seen file.new) [])
        ≡ whole_text number (drop 87 (text_in stored (D.Disk.seen file.old) page.now))) }
    ensures line { IfOk result (λ parts. parts.2.items ≡ head_of (head_for number
        (drop 87 (text_in stored (D.Disk.seen file.old) page.now)))) }
    ensures head { IfOk result (λ parts. length parts.2.items ≡ 87) }
    ensures first { IfOk result (λ parts. slice_index parts.2.items 0 ≡ 116) }
    ensures end { IfOk result (λ parts. parts.0 ≡ stored + length page.now) }
    ensures size { IfOk result (λ parts. parts.1 ≡ parts.0 + blocks * 4096) }
    ensures sized { IfOk result (λ parts. length (D.Disk.seen file.new) ≡ parts.1) }
    ensures blank { IfOk result (λ parts. IsBlankFrom parts.0 (D.Disk.seen file.new)) }
    ensures usable { IsTrue (D.Disk.is_usable file.new) }
    ensures long { IsLong (D.Disk.may_leave file.new) }
    ensures shut { IsShut (D.Disk.may_leave file.new) }
{
    let end = flush(file, stored, page)?;
    let zeros = zeros(alloc, BLOCK)?;
    let size = size_of(end, blocks)?;
    write_zeros(file, end, &zeros, blocks)?;
    let head = head_line(alloc, number, end - HEAD, sum)?;
    Ok((end, size, head))
}

/// Writes what is held, the zeros and the first line, and says where the text and the file end, and
/// the sum of the first line.
fn fill<D: Disk>(
    alloc: Global,
    file: &mut D,
    stored: usize,
    page: &[u8],
    number: u64,
    sum: Sum,
    blocks: usize,
) -> Result<(usize, usize, Sum), SegmentFault>
    requires usable { IsTrue (D.Disk.is_usable file.old) }
    requires behind { 87 ≤ stored }
    requires sized { length (D.Disk.seen file.old) ≡ stored }
    requires long { IsLong (D.Disk.may_leave file.old) }
    requires shut { IsShut (D.Disk.may_leave file.old) }
    requires summed { sum.remainder
        ≡ remainder_after 0xffffffff (drop 87 (text_in stored (D.Disk.seen file.old) page.now)) }
    ensures text { IfOk result (λ ends. text_in ends.0 (D.Disk.seen file.new) []
        ≡ whole_text number (drop 87 (text_in stored (D.Disk.seen file.old) page.now))) }
    ensures end { IfOk result (λ ends. length (text_in ends.0 (D.Disk.seen file.new) []) ≡ ends.0) }
    ensures size { IfOk result (λ ends. ends.1 ≡ ends.0 + blocks * 4096) }
    ensures sized { IfOk result (λ ends. length (D.Disk.seen file.new) ≡ ends.1) }
    ensures seed { IfOk result (λ ends. ends.2.remainder ≡ remainder_after 0xffffffff (head_of
        (head_for number (drop 87 (text_in stored (D.Disk.seen file.old) page.now))))) }
    ensures blank { IfOk result (λ ends. IsBlankFrom ends.0 (D.Disk.seen file.new)) }
    ensures synced { OnOk result (Only (D.Disk.seen file.new) (D.Disk.may_leave file.new)) }
    ensures usable { OnOk result (IsTrue (D.Disk.is_usable file.new)) }
    ensures crash { OnErr result (IsTextIfOpen (D.Disk.may_leave file.new)
        (whole_text number (drop 87 (text_in stored (D.Disk.seen file.old) page.now)))) }
    ensures mixed { OnErr result (AreMixing D.Disk → AreShutOr (D.Disk.may_leave file.new)
        (IsTextTo (stored + length page.now + blocks * 4096)
        (whole_text number (drop 87 (text_in stored (D.Disk.seen file.old) page.now))))) }
    ensures few { OnErr result (IsShut (D.Disk.may_leave file.new)
        ⊎ (stored + length page.now < 2 ^ 64)) }
{
    let (end, size, head) = prepare(alloc, file, stored, page, number, sum, blocks)?;
    let mut seed = Sum::new();
    seed.add(&head);
    match publish(file, &head) {
        Ok(()) => Ok((end, size, seed)),
        Err(fault) => Err(fault),
    }
}

/// So many zeros.
fn zeros(alloc: Global, n: usize) -> Result<Vec<u8>, SegmentFault>
    ensures blank { IfOk result (λ row. IsBlankFrom 0 row.items) }
    ensures count { IfOk result (λ row. length row.items ≡ n) }
{
    match vec![in alloc; 0; n] {
        Ok(row) => Ok(row),
        Err(_) => Err(SegmentFault::NoMemory),
    }
}

/// Where the zeros end.
fn size_of(end: usize, blocks: usize) -> Result<usize, SegmentFault>
    ensures { IfOk result (λ size. size ≡ end + blocks * 4096) }
{
    let Some(room) = blocks.checked_mul(BLOCK) else {
        return Err(SegmentFault::Full);
    };
    match end.checked_add(room) {
        Some(size) => Ok(size),
        None => Err(SegmentFault::Full),
    }
}

/// The first line of a segment whose checkpoint has so many octets and this sum.
#[tactic(auto, unfolding(crate::specs::Head::whole_text))]
fn head_line(alloc: Global, number: u64, octets: usize, sum: Sum) -> Result<Vec<u8>, SegmentFault>
    ensures text { (body : List ℕ) → octets ≡ length body
        → sum.remainder ≡ remainder_after 0xffffffff body
        → IfOk result (λ row. row.items ++ body ≡ whole_text number body) }
    ensures line { (body : List ℕ) → octets ≡ length body
        → sum.remainder ≡ remainder_after 0xffffffff body
        → IfOk result (λ row. row.items ≡ head_of (head_for number body)) }
    ensures octets { IfOk result (λ row. length row.items ≡ 87) }
    ensures first { IfOk result (λ row. slice_index row.items 0 ≡ 116) }
{
    let head = SegmentHead {
        number,
        octets: octets as u64,
        sum: sum.value(),
        is_sealed: true,
    };
    match print(alloc, &head) {
        Ok(row) => Ok(row),
        Err(_) => Err(SegmentFault::NoMemory),
    }
}

/// Writes what is held, and says where the text ends.
fn flush<D: Disk>(file: &mut D, stored: usize, page: &[u8]) -> Result<usize, SegmentFault>
    requires usable { IsTrue (D.Disk.is_usable file.old) }
    requires behind { 87 ≤ stored }
    requires sized { length (D.Disk.seen file.old) ≡ stored }
    requires long { IsLong (D.Disk.may_leave file.old) }
    requires shut { IsShut (D.Disk.may_leave file.old) }
    ensures end { IfOk result (λ end. end ≡ stored + length page.now) }
    ensures sized { IfOk result (λ end. length (D.Disk.seen file.new) ≡ end) }
    ensures text { IfOk result (λ end. text_in end (D.Disk.seen file.new) []
        ≡ text_in stored (D.Disk.seen file.old) page.now) }
    ensures usable { IsTrue (D.Disk.is_usable file.new) }
    ensures long { IsLong (D.Disk.may_leave file.new) }
    ensures shut { IsShut (D.Disk.may_leave file.new) }
{
    let Some(end) = stored.checked_add(page.len()) else {
        return Err(SegmentFault::Full);
    };
    if page.is_empty() {
        return Ok(end);
    }
    write_behind(file, stored, page)?;
    Ok(end)
}

impl<D: Disk> Octets for Writer<D> {
    ghost appended = { λ w. drop 87 (text_in w.stored (D.Disk.seen w.file) w.page.items) };

    fn append(&mut self, octets: &[u8]) -> Result<(), StateFault> {
        if !self.is_open {
            return Err(StateFault::Device);
        }
        if self.page.len() > PAGE {
            self.write()?;
        }
        self.hold(octets)
    }
}

impl<D: Disk> Writer<D> {
    ghost use Rattle.segments.specs.Writer.{appended_to};

    /// Writes what is held.
    fn write(&mut self) -> Result<(), StateFault>
        requires open { IsTrue (self.old.is_open) }
        requires some { 0 < length self.old.page.items }
        ensures same { appended_to self.new ≡ appended_to self.old }
        ensures open { OnOk result (IsTrue (self.new.is_open)) }
        ensures sum { self.new.sum ≡ self.old.sum }
    {
        // Until the write has answered, as with a segment: nobody knows how much of a failed write
        // stands in the file.
        self.is_open = false;
        let Some(end) = self.stored.checked_add(self.page.len()) else {
            return Err(StateFault::Device);
        };
        match write_behind(&mut self.file, self.stored, &self.page) {
            Ok(()) => {
                self.stored = end;
                self.page.clear();
                self.is_open = true;
                Ok(())
            }
            Err(fault) => {
                self.fault = fault;
                Err(StateFault::Device)
            }
        }
    }

    /// Holds octets behind those that are held.
    fn hold(&mut self, octets: &[u8]) -> Result<(), StateFault>
        requires { IsTrue self.old.is_open }
        ensures put { OnOk result (appended_to self.new ≡ appended_to self.old ++ octets.now) }
        ensures none { OnErr result (appended_to self.new ≡ appended_to self.old) }
    {
        match self.page.extend_from_slice(octets) {
            Ok(()) => {
                self.sum.add(octets);
                Ok(())
            }
            Err(_) => Err(StateFault::NoMemory),
        }
    }
}
