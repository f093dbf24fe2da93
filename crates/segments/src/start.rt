//! What a start finds in the two files.
ghost use Rattle.std.specs.Option.{ForSome, is_some};
ghost use Rattle.std.specs.Io.Iter.{u64_saturate};
ghost use Rattle.std.specs.Prelude.{◌≡◌, ◌⊎◌, ◌==◌, max, ℕ, ◌+◌, ◌-◌, ◌<◌, ◌≤◌, ◌^◌, false, true};
ghost use Rattle.std.specs.Prelude.{List, None};
ghost use Rattle.std.specs.Prelude.{◌&&◌};
ghost use Rattle.std.specs.Prelude.{drop, length, take, position, IsTrue, IfOk, IfNone, OnOk};
ghost use Rattle.std.specs.Prelude.{IfSome, Some};
ghost use Rattle.std.specs.Prelude.{if◌then◌else◌};
ghost use Rattle.sqlite_disk.specs.Disk.{Holds};
ghost use Rattle.segments.specs.Head.{Fits, head_of};
ghost use Rattle.segments.specs.Room.{is_room, before_zero, damage_in, log_in};
ghost use Rattle.segments.specs.Starts.{ArePlaced, BeginsNewer, FitsIn, HasNoNewer, HasNone};
ghost use Rattle.segments.specs.Crash.{IsShut as IsShutThere};
ghost use Rattle.segments.specs.Starts.{IsAbove, IsBlank, first_number};
ghost use Rattle.segments.specs.Starts.{IsBacked, IsBackedBy, IsBelow, IsFoundIn, IsWholeIn};
ghost use Rattle.segments.specs.Starts.{IsHeadIn, IsNewest, IsNext, IsShut, IsSound};
ghost use Rattle.segments.specs.Starts.{is_shut, may_have_newer, number_in, other_side};
ghost use Rattle.segments.specs.declared.head.SegmentHead.{SegmentHead};
ghost use Rattle.segments.specs.declared.start.FileFront.TheVariants.{Head};
ghost use Rattle.statetext.specs.Sum.{sum_of};

use crate::SegmentFault;
use crate::gate::{BLOCK, BLOCKS, HEAD, SHUT, done, shut};
use crate::head::{SegmentHead, parse, print};
use sqlite_disk::{Disk, Files};
use statetext::{Sum, read_sealed};
use std::alloc::Global;
use std::io::ErrorKind;

/// How many octets are read at once.
const PIECE: usize = 65_536;

/// Which of the two files.
#[derive(Clone, Copy, PartialEq, Eq)]
pub enum Side {
    /// `log` of [`Files`].
    Log,
    /// `db` of [`Files`].
    Db,
}

impl Side {
    /// The other one.
    pub fn other(self) -> Side
        ensures { result ≡ other_side self }
    {
        match self {
            Side::Log => Side::Db,
            Side::Db => Side::Log,
        }
    }

    /// This one, if it is the one, or else the other.
    fn or_other(self, is: bool) -> Side
        ensures { result ≡ (if is then self else other_side self) }
    {
        if is { self } else { self.other() }
    }
}

/// How a file begins.
#[derive(Clone, Copy)]
pub(crate) enum FileFront {
    /// It is shut: it has no segment.
    Shut,
    /// It has no octet, or one that isn't `-`: nothing was ever begun there, or nothing is left.
    Blank,
    /// With the first line of a segment.
    Head(SegmentHead),
    /// With something else.
    Other,
}

/// How a file begins. No crash leaves one that isn't shut and has no segment.
pub(crate) fn front_at<D: Disk>(alloc: Global, file: &mut D) -> Result<FileFront, SegmentFault>
    requires { IsTrue (D.Disk.is_usable file.old) }
    ensures head { IfOk result (λ front. IsTrue (D.Disk.is_clean file.new) →
        IsHeadIn (D.Disk.seen file.new) front) }
    ensures fits { IfOk result FitsIn }
    ensures usable { IsTrue (D.Disk.is_usable file.new) }
    ensures clean { IsTrue (D.Disk.is_clean file.new) → IsTrue (D.Disk.is_clean file.old) }
    ensures seen { D.Disk.seen file.new ≡ D.Disk.seen file.old }
    ensures crash { (c : List ℕ) → D.Disk.may_leave file.new c → D.Disk.may_leave file.old c }
{
    let octets = match file.len() {
        Ok(octets) => octets,
        Err(error) => return Err(SegmentFault::Device(error.kind())),
    };
    if octets == 0 {
        return Ok(FileFront::Blank);
    }
    if octets < HEAD {
        let mut first = [0];
        done(file.read_at(0, &mut first))?;
        if first[0] == SHUT {
            return Ok(FileFront::Shut);
        }
        if octets < 2 {
            return Ok(FileFront::Blank);
        }
        return Ok(FileFront::Other);
    }
    let mut row = [0; HEAD];
    done(file.read_at(0, &mut row))?;
    // This octet is written last: until then the segment isn't finished, and the file is shut.
    if row[0] == SHUT {
        return Ok(FileFront::Shut);
    }
    match parse(alloc, &row) {
        Ok(Some(head)) => Ok(FileFront::Head(head)),
        Ok(None) => Ok(FileFront::Other),
        Err(_) => Err(SegmentFault::NoMemory),
    }
}

/// So many octets from a place on.
fn octets_at<D: Disk>(
    alloc: Global,
    file: &mut D,
    at: usize,
    octets: usize,
) -> Result<Vec<u8>, SegmentFault>
    requires { IsTrue (D.Disk.is_usable file.old) }
    ensures text { IfOk result (λ text. IsTrue (D.Disk.is_clean file.new) →
        0 < length text.items → Holds (D.Disk.seen file.new) at text.items) }
    ensures octets { IfOk result (λ text. length text.items ≡ octets) }
    ensures usable { IsTrue (D.Disk.is_usable file.new) }
    ensures clean { IsTrue (D.Disk.is_clean file.new) → IsTrue (D.Disk.is_clean file.old) }
    ensures seen { D.Disk.seen file.new ≡ D.Disk.seen file.old }
{
    let Ok(mut text) = vec![in alloc; 0; octets] else {
        return Err(SegmentFault::NoMemory);
    };
    if text.is_empty() {
        return Ok(text);
    }
    match file.read_at(at, &mut text) {
        Ok(()) => Ok(text),
        Err(error) => Err(SegmentFault::Device(error.kind())),
    }
}

/// The sum of a text.
fn sum_of(text: &[u8]) -> u32
    ensures { result ≡ sum_of text.now }
{
    let mut sum = Sum::new();
    sum.add(text);
    sum.value()
}

/// How many octets the checkpoint behind a first line has, if the file is as long.
fn octets_behind<D: Disk>(file: &mut D, head: &SegmentHead) -> Result<Option<usize>, SegmentFault>
    requires { IsTrue (D.Disk.is_usable file.old) }
    ensures octets { IfOk result (λ found. IfSome found (λ octets. octets ≡ head.now.octets)) }
    ensures small { IfOk result (λ found. IfSome found (λ octets. 87 + octets < 2 ^ 64)) }
    ensures within { IfOk result (λ found. IfSome found (λ octets.
        IsTrue (D.Disk.is_clean file.new) → 87 + octets ≤ length (D.Disk.seen file.new))) }
    ensures none { IfOk result (λ found. IfNone found (IsTrue (D.Disk.is_clean file.new) →
        (text : List ℕ) → IsFoundIn (D.Disk.seen file.new) head.now text → ⊥)) }
    ensures usable { IsTrue (D.Disk.is_usable file.new) }
    ensures clean { IsTrue (D.Disk.is_clean file.new) → IsTrue (D.Disk.is_clean file.old) }
    ensures seen { D.Disk.seen file.new ≡ D.Disk.seen file.old }
{
    let Ok(octets) = usize::try_from(head.octets) else {
        return Ok(None);
    };
    let all = match file.len() {
        Ok(all) => all,
        Err(error) => return Err(SegmentFault::Device(error.kind())),
    };
    if all < HEAD || all - HEAD < octets {
        return Ok(None);
    }
    Ok(Some(octets))
}

/// The text of the checkpoint behind the first line, if it is whole and has its sum.
fn text_at<D: Disk>(
    alloc: Global,
    file: &mut D,
    head: &SegmentHead,
) -> Result<Option<Vec<u8>>, SegmentFault>
    requires { IsTrue (D.Disk.is_usable file.old) }
    ensures text { IfOk result (λ found. IfSome found (λ text. IsTrue (D.Disk.is_clean file.new)
        → 0 < length text.items → Holds (D.Disk.seen file.old) 87 text.items)) }
    ensures octets { IfOk result (λ found. IfSome found
        (λ text. length text.items ≡ head.now.octets)) }
    ensures sum { IfOk result (λ found. IfSome found (λ text. sum_of text.items ≡ head.now.sum)) }
    ensures none { IfOk result (λ found. IfNone found (IsTrue (D.Disk.is_clean file.new) →
        (text : List ℕ) → IsFoundIn (D.Disk.seen file.old) head.now text → ⊥)) }
    ensures usable { IsTrue (D.Disk.is_usable file.new) }
    ensures clean { IsTrue (D.Disk.is_clean file.new) → IsTrue (D.Disk.is_clean file.old) }
    ensures seen { D.Disk.seen file.new ≡ D.Disk.seen file.old }
{
    let Some(octets) = octets_behind(file, head)? else {
        return Ok(None);
    };
    let text = octets_at(alloc, file, HEAD, octets)?;
    if sum_of(&text) == head.sum {
        Ok(Some(text))
    } else {
        Ok(None)
    }
}

/// The sum of so many octets behind the first line. They are read in pieces, since a checkpoint may
/// be as long as the queue.
fn sum_behind<D: Disk>(alloc: Global, file: &mut D, octets: usize) -> Result<u32, SegmentFault>
    requires usable { IsTrue (D.Disk.is_usable file.old) }
    requires small { 87 + octets < 2 ^ 64 }
    ensures sum { IfOk result (λ sum. IsTrue (D.Disk.is_clean file.new) →
        sum ≡ sum_of (take octets (drop 87 (D.Disk.seen file.new)))) }
    ensures usable { IsTrue (D.Disk.is_usable file.new) }
    ensures clean { IsTrue (D.Disk.is_clean file.new) → IsTrue (D.Disk.is_clean file.old) }
    ensures seen { D.Disk.seen file.new ≡ D.Disk.seen file.old }
{
    let mut sum = Sum::new();
    let mut at = 0;
    while at < octets {
        let piece = (octets - at).min(PIECE);
        let text = octets_at(alloc, file, HEAD + at, piece)?;
        sum.add(&text);
        at += piece;
    }
    Ok(sum.value())
}

/// The octets from a place on, up to the file's end.
fn rest_at<D: Disk>(alloc: Global, file: &mut D, at: usize) -> Result<Vec<u8>, SegmentFault>
    requires { IsTrue (D.Disk.is_usable file.old) }
    ensures text { IfOk result (λ text. IsTrue (D.Disk.is_clean file.new) →
        0 < length text.items → Holds (D.Disk.seen file.new) at text.items) }
    ensures octets { IfOk result (λ text. IsTrue (D.Disk.is_clean file.new) →
        length text.items ≡ length (D.Disk.seen file.new) - at) }
    ensures small { IfOk result (λ text. at + length text.items < 2 ^ 64) }
    ensures usable { IsTrue (D.Disk.is_usable file.new) }
    ensures clean { IsTrue (D.Disk.is_clean file.new) → IsTrue (D.Disk.is_clean file.old) }
    ensures seen { D.Disk.seen file.new ≡ D.Disk.seen file.old }
{
    let all = match file.len() {
        Ok(all) => all,
        Err(error) => return Err(SegmentFault::Device(error.kind())),
    };
    octets_at(alloc, file, at, all.saturating_sub(at))
}

/// Cuts a text off at its first octet 0.
fn cut_at_zero(text: &mut Vec<u8>)
    ensures { text.new.items ≡ before_zero text.old.items }
{
    // No line has an octet 0, and zeros were there before the lines (docs/DECISIONS.md, "A line
    // that can't be read").
    if let Some(end) = place_of_zero(text) {
        text.truncate(end);
    }
}

/// The place of the first octet 0.
fn place_of_zero(text: &[u8]) -> Option<usize>
    ensures { result ≡ position (λ c. c == 0) text.now }
{
    text.iter().position(|octet| *octet == 0)
}

/// The lines behind a checkpoint.
#[derive(Drop)]
pub struct FoundLog {
    /// The lines of the writes that are whole, one behind another, without the seals.
    pub lines: Vec<u8>,
    /// The octet of the file from which on nothing is read, if that is for damage: no crash leaves
    /// what stands there, or the file was cut.
    pub damage: Option<usize>,
}

/// Whether so many octets are the room for the lines of a segment, as it was reserved.
fn is_room(octets: usize) -> bool
    ensures { result ≡ is_room octets }
{
    octets == BLOCKS * BLOCK
}

/// The place, if there is damage.
fn damage_at(is_damaged: bool, place: usize) -> Option<usize>
    ensures { result ≡ (if is_damaged then Some place else None) }
{
    if is_damaged { Some(place) } else { None }
}

/// Reads the text behind a checkpoint that ends at this place of a file.
fn log_behind(
    alloc: Global,
    head: &SegmentHead,
    at: usize,
    text: Vec<u8>,
) -> Result<FoundLog, SegmentFault>
    requires { at + length text.items < 2 ^ 64 }
    ensures lines { (file : List ℕ) → Holds file 0 (head_of head.now) → text.items ≡ drop at file →
        IfOk result (λ log. log.lines.items ≡ log_in at file) }
    ensures damage { (file : List ℕ) → Holds file 0 (head_of head.now) →
        text.items ≡ drop at file → IfOk result (λ log. log.damage ≡ damage_in at file) }
{
    let mut text = text;
    if !head.is_sealed {
        cut_at_zero(&mut text);
        return Ok(FoundLog {
            lines: text,
            damage: None,
        });
    }
    let Ok(row) = print(alloc, head) else {
        return Err(SegmentFault::NoMemory);
    };
    let mut sum = Sum::new();
    sum.add(&row);
    let room = text.as_slice();
    let Ok(read) = read_sealed(alloc, sum, room) else {
        return Err(SegmentFault::NoMemory);
    };
    let is_damaged = read.is_damaged || !is_room(room.len());
    Ok(FoundLog {
        lines: read.lines,
        damage: damage_at(is_damaged, at + read.end),
    })
}

/// A checkpoint, and the first line before it.
#[derive(Drop)]
pub struct FoundHead {
    pub head: SegmentHead,
    pub text: Vec<u8>,
}

/// What a start finds: the newest segment that is whole, its checkpoint in memory, and the other
/// file, into which the next segment goes.
#[derive(Drop)]
pub struct Start<D: Disk> {
    newest: D,
    other: D,
    /// Where the newest segment stands.
    side: Side,
    /// How its file begins.
    front: FileFront,
    /// Its checkpoint, until it is taken.
    checkpoint: Option<FoundHead>,
    /// Where the lines behind it begin.
    at: usize,
    /// Above the number of each segment that stands in a file, whole or not.
    number: u64,
    /// A file that isn't shut has no whole segment, and might have had a newer one.
    is_doubtful: bool,
    ghost usable: { IsTrue (D.Disk.is_usable newest) },
    ghost other_usable: { IsTrue (D.Disk.is_usable other) },
    ghost begins: { IsTrue (D.Disk.is_clean newest) → (head : SegmentHead) →
        front ≡ Head head → Holds (D.Disk.seen newest) 0 (head_of head) },
    ghost stands: { ForSome checkpoint (λ c. (at ≡ 87 + length c.text.items)
        × (IsTrue (D.Disk.is_clean newest) →
        IsFoundIn (D.Disk.seen newest) c.head c.text.items)) },
}

/// Whether a file is shut, or nothing was begun in it.
fn is_shut(front: FileFront) -> bool
    ensures { result ≡ is_shut front }
{
    matches!(front, FileFront::Shut | FileFront::Blank)
}

/// Whether both files are shut.
fn are_shut(front: FileFront, other_front: FileFront) -> bool
    ensures { result ≡ (is_shut front && is_shut other_front) }
{
    is_shut(front) && is_shut(other_front)
}

/// Whether a file that begins so may have had a segment as new as the one with this number.
fn may_have_newer(number: u64, front: FileFront) -> bool
    ensures { result ≡ may_have_newer number front }
{
    match front {
        FileFront::Shut => false,
        // Beside a segment of this version no crash leaves an empty file (docs/DECISIONS.md, "An
        // empty file").
        FileFront::Blank => FIRST <= number,
        // As new too: which of two with one number came later, nobody knows (docs/DECISIONS.md,
        // "Two logs of one number").
        FileFront::Head(head) => number <= head.number,
        FileFront::Other => true,
    }
}

/// The number of a segment, or 0.
pub(crate) fn number_of(front: FileFront) -> u64
    ensures { result ≡ number_in front }
{
    match front {
        FileFront::Head(head) => head.number,
        FileFront::Shut | FileFront::Blank | FileFront::Other => 0,
    }
}

/// The number of the first segment. Only that of an older version was 1, which left the other file
/// empty beside it (docs/DECISIONS.md, "An empty file").
const FIRST: u64 = 2;

/// The number behind this one, which is 0 if no segment stands.
fn next_number(number: u64) -> u64
    ensures { result ≡ max first_number (u64_saturate (number + 1)) }
{
    FIRST.max(number.saturating_add(1))
}

/// The checkpoint of a file that begins so.
fn found_in<D: Disk>(
    alloc: Global,
    file: &mut D,
    front: FileFront,
) -> Result<Option<FoundHead>, SegmentFault>
    requires usable { IsTrue (D.Disk.is_usable file.old) }
    requires head { IsTrue (D.Disk.is_clean file.old) → IsHeadIn (D.Disk.seen file.old) front }
    ensures found { IfOk result (λ found. IfSome found (λ c. IsTrue (D.Disk.is_clean file.new) →
        IsFoundIn (D.Disk.seen file.new) c.head c.text.items)) }
    ensures head { IfOk result (λ found. IfSome found (λ c. front ≡ FileFront.Head c.head)) }
    ensures none { IfOk result (λ found. IfNone found (IsTrue (D.Disk.is_clean file.new) →
        HasNone (D.Disk.seen file.new))) }
    ensures usable { IsTrue (D.Disk.is_usable file.new) }
    ensures clean { IsTrue (D.Disk.is_clean file.new) → IsTrue (D.Disk.is_clean file.old) }
    ensures seen { D.Disk.seen file.new ≡ D.Disk.seen file.old }
{
    let FileFront::Head(head) = front else {
        return Ok(None);
    };
    match text_at(alloc, file, &head)? {
        Some(text) => Ok(Some(FoundHead { head, text })),
        None => Ok(None),
    }
}

/// Whether a file that begins so has a segment that is whole.
fn is_whole<D: Disk>(alloc: Global, file: &mut D, front: FileFront) -> Result<bool, SegmentFault>
    requires usable { IsTrue (D.Disk.is_usable file.old) }
    requires head { IsTrue (D.Disk.is_clean file.old) → IsHeadIn (D.Disk.seen file.old) front }
    ensures some { IfOk result (λ is. is ≡ true → IsTrue (D.Disk.is_clean file.new) →
        IsWholeIn (D.Disk.seen file.new) front) }
    ensures none { IfOk result (λ is. is ≡ false → IsTrue (D.Disk.is_clean file.new) →
        HasNone (D.Disk.seen file.new)) }
    ensures usable { IsTrue (D.Disk.is_usable file.new) }
    ensures clean { IsTrue (D.Disk.is_clean file.new) → IsTrue (D.Disk.is_clean file.old) }
    ensures seen { D.Disk.seen file.new ≡ D.Disk.seen file.old }
{
    let FileFront::Head(head) = front else {
        return Ok(false);
    };
    let Some(octets) = octets_behind(file, &head)? else {
        return Ok(false);
    };
    let sum = sum_behind(alloc, file, octets)?;
    Ok(sum == head.sum)
}

/// Whether no start doubts a file beside the next segment: its first octet says that it is shut, or
/// it has a segment that is whole.
pub fn is_sound<D: Disk>(alloc: Global, file: &mut D) -> Result<bool, SegmentFault>
    requires { IsTrue (D.Disk.is_usable file.old) }
    ensures sound { IfOk result (λ is. is ≡ true → IsTrue (D.Disk.is_clean file.new) →
        IsSound (D.Disk.seen file.new)) }
    ensures others { IfOk result (λ is. is ≡ false → IsTrue (D.Disk.is_clean file.new) →
        IsSound (D.Disk.seen file.new) → ⊥) }
    ensures usable { IsTrue (D.Disk.is_usable file.new) }
    ensures clean { IsTrue (D.Disk.is_clean file.new) → IsTrue (D.Disk.is_clean file.old) }
    ensures seen { D.Disk.seen file.new ≡ D.Disk.seen file.old }
{
    let front = front_at(alloc, file)?;
    if let FileFront::Shut = front {
        return Ok(true);
    }
    is_whole(alloc, file, front)
}

/// Shuts a file in which nothing was ever begun, on the disk too. Each other one stays as it is.
pub fn shut_blank<D: Disk>(alloc: Global, file: &mut D) -> Result<(), SegmentFault>
    requires { IsTrue (D.Disk.is_usable file.old) }
    ensures left { OnOk result (IsTrue (D.Disk.is_clean file.new) →
        (IsBlank (D.Disk.seen file.old) × IsShutThere (D.Disk.may_leave file.new))
        ⊎ ((c : List ℕ) → D.Disk.may_leave file.new c → D.Disk.may_leave file.old c)) }
    ensures usable { OnOk result (IsTrue (D.Disk.is_usable file.new)) }
    ensures clean { IsTrue (D.Disk.is_clean file.new) → IsTrue (D.Disk.is_clean file.old) }
{
    match front_at(alloc, file)? {
        FileFront::Blank => shut(file),
        FileFront::Shut | FileFront::Head(_) | FileFront::Other => Ok(()),
    }
}

/// In which of two files the newest segment stands. The other one may be written over: if it has a
/// segment, this one has one that isn't older. An `Err` says that a file couldn't be read.
pub fn newest_side<D: Disk>(alloc: Global, log: &mut D, db: &mut D) -> Result<Side, SegmentFault>
    requires log { IsTrue (D.Disk.is_usable log.old) }
    requires db { IsTrue (D.Disk.is_usable db.old) }
    ensures backed { IfOk result (λ side. IsTrue (D.Disk.is_clean log.new) →
        IsTrue (D.Disk.is_clean db.new) →
        IsBackedBy side (D.Disk.seen log.new) (D.Disk.seen db.new)) }
    ensures log { IsTrue (D.Disk.is_usable log.new) }
    ensures db { IsTrue (D.Disk.is_usable db.new) }
    ensures seen { (D.Disk.seen log.new ≡ D.Disk.seen log.old)
        × (D.Disk.seen db.new ≡ D.Disk.seen db.old) }
{
    let first = front_at(alloc, log)?;
    let second = front_at(alloc, db)?;
    if number_of(second) > number_of(first) {
        // Only a whole one counts: the other file may have all that is left (docs/DECISIONS.md,
        // "The newest log is never written over").
        let is_newest = is_whole(alloc, db, second)?;
        Ok(Side::Db.or_other(is_newest))
    } else {
        let is_newest = is_whole(alloc, log, first)?;
        Ok(Side::Log.or_other(is_newest))
    }
}

/// Whether each segment that a file has is older than the one with this number. If it isn't so, the
/// file begins with the first line of one that is as new. One line is read.
pub fn is_below<D: Disk>(alloc: Global, file: &mut D, number: u64) -> Result<bool, SegmentFault>
    requires { IsTrue (D.Disk.is_usable file.old) }
    ensures below { IfOk result (λ is. is ≡ true → IsTrue (D.Disk.is_clean file.new) →
        IsBelow number (D.Disk.seen file.new)) }
    ensures others { IfOk result (λ is. is ≡ false → IsTrue (D.Disk.is_clean file.new) →
        0 < number → BeginsNewer (number - 1) (D.Disk.seen file.new)) }
    ensures usable { IsTrue (D.Disk.is_usable file.new) }
    ensures clean { IsTrue (D.Disk.is_clean file.new) → IsTrue (D.Disk.is_clean file.old) }
    ensures seen { D.Disk.seen file.new ≡ D.Disk.seen file.old }
{
    let front = front_at(alloc, file)?;
    Ok(number_of(front) < number)
}

impl<D: Disk + Drop> Start<D> {
    ghost use Rattle.segments.specs.Found.{AreClean, newest_in, newest_of, other_in, other_of};

    /// Looks at both files. If the segment of the higher number isn't whole, the other counts, and
    /// that is doubtful: no crash leaves such a file.
    pub fn open(alloc: Global, files: Files<D>) -> Result<Start<D>, SegmentFault>
        requires log { IsTrue (D.Disk.is_usable files.log) }
        requires db { IsTrue (D.Disk.is_usable files.db) }
        // Of two segments the newer one counts; and if none was found there is none.
        ensures newest { IfOk result (λ s. AreClean s → IsNewest (newest_in s) (other_in s)) }
        ensures none { IfOk result (λ s. AreClean s → is_some s.checkpoint ≡ false →
            HasNone (newest_in s) × HasNone (other_in s)) }
        ensures fits { IfOk result (λ s. IfSome s.checkpoint (λ c. Fits c.head)) }
        // So the other one may be written over.
        ensures backed { IfOk result (λ s. AreClean s → IsBacked (newest_in s) (other_in s)) }
        // A start changes neither file, and answers in which one the newest segment stands.
        ensures placed { IfOk result (λ s. ArePlaced s.side (D.Disk.seen files.log)
            (D.Disk.seen files.db) (newest_in s) (other_in s)) }
        // The next segment's number is above that of each first line that stands in a file, whether
        // or not its segment is whole.
        ensures above { IfOk result (λ s. AreClean s →
            IsAbove s.number (newest_in s) × IsAbove s.number (other_in s)) }
        // It is the next one behind such a line, or the first: no number is left out.
        ensures next { IfOk result (λ s. AreClean s →
            IsNext s.number (newest_in s) (other_in s)) }
        // If nothing is doubtful, no segment as new as that one ever stood in the other file.
        ensures sure { IfOk result (λ s. AreClean s → is_some s.checkpoint ≡ true →
            s.is_doubtful ≡ false → HasNoNewer (newest_in s) (other_in s)) }
        // And nothing else is doubtful. So if none was found both files are shut, or that is.
        ensures only { IfOk result (λ s. AreClean s → is_some s.checkpoint ≡ true →
            HasNoNewer (newest_in s) (other_in s) → s.is_doubtful ≡ false) }
        ensures blank { IfOk result (λ s. AreClean s → is_some s.checkpoint ≡ false →
            IsShut (newest_in s) → IsShut (other_in s) → s.is_doubtful ≡ false) }
        ensures shut { IfOk result (λ s. AreClean s → is_some s.checkpoint ≡ false →
            s.is_doubtful ≡ false → IsShut (newest_in s) × IsShut (other_in s)) }
    {
        let Files { mut log, mut db } = files;
        let first = front_at(alloc, &mut log)?;
        let second = front_at(alloc, &mut db)?;
        let number = next_number(number_of(first).max(number_of(second)));
        if number_of(first) >= number_of(second) {
            Start::choose(alloc, log, first, db, second, Side::Log, number)
        } else {
            Start::choose(alloc, db, second, log, first, Side::Db, number)
        }
    }

    /// The segment of the higher number counts, if it is whole.
    fn choose(
        alloc: Global,
        newer: D,
        front: FileFront,
        older: D,
        other_front: FileFront,
        side: Side,
        number: u64,
    ) -> Result<Start<D>, SegmentFault>
        requires newer { IsTrue (D.Disk.is_usable newer) }
        requires older { IsTrue (D.Disk.is_usable older) }
        requires head { IsTrue (D.Disk.is_clean newer) → IsHeadIn (D.Disk.seen newer) front }
        requires other { IsTrue (D.Disk.is_clean older) → IsHeadIn (D.Disk.seen older) other_front }
        requires fits { FitsIn front }
        requires both { FitsIn other_front }
        requires order { number_in other_front ≤ number_in front }
        requires next { number ≡ max first_number (u64_saturate (number_in front + 1)) }
        ensures placed { (log db : List ℕ) →
            ArePlaced side log db (D.Disk.seen newer) (D.Disk.seen older) →
            IfOk result (λ s. ArePlaced s.side log db (newest_in s) (other_in s)) }
        ensures above { IfOk result (λ s. AreClean s →
            IsAbove s.number (newest_in s) × IsAbove s.number (other_in s)) }
        ensures next { IfOk result (λ s. AreClean s →
            IsNext s.number (newest_in s) (other_in s)) }
        ensures sure { IfOk result (λ s. AreClean s → is_some s.checkpoint ≡ true →
            s.is_doubtful ≡ false → HasNoNewer (newest_in s) (other_in s)) }
        ensures newest { IfOk result (λ s. AreClean s → IsNewest (newest_in s) (other_in s)) }
        ensures backed { IfOk result (λ s. AreClean s → IsBacked (newest_in s) (other_in s)) }
        ensures none { IfOk result (λ s. AreClean s → is_some s.checkpoint ≡ false →
            HasNone (newest_in s) × HasNone (other_in s)) }
        ensures only { IfOk result (λ s. AreClean s → is_some s.checkpoint ≡ true →
            HasNoNewer (newest_in s) (other_in s) → s.is_doubtful ≡ false) }
        ensures blank { IfOk result (λ s. AreClean s → is_some s.checkpoint ≡ false →
            IsShut (newest_in s) → IsShut (other_in s) → s.is_doubtful ≡ false) }
        ensures shut { IfOk result (λ s. AreClean s → is_some s.checkpoint ≡ false →
            s.is_doubtful ≡ false → IsShut (newest_in s) × IsShut (other_in s)) }
    {
        let (mut newer, mut older) = (newer, older);
        if let Some(found) = found_in(alloc, &mut newer, front)? {
            let is_doubtful = may_have_newer(found.head.number, other_front);
            return Start::made(newer, front, older, side, Some(found), number, is_doubtful);
        }
        let side = side.other();
        if let Some(found) = found_in(alloc, &mut older, other_front)? {
            let is_doubtful = may_have_newer(found.head.number, front);
            return Start::made(
                older,
                other_front,
                newer,
                side,
                Some(found),
                number,
                is_doubtful,
            );
        }
        let is_doubtful = !are_shut(front, other_front);
        Start::made(older, other_front, newer, side, None, number, is_doubtful)
    }

    fn made(
        newest: D,
        front: FileFront,
        other: D,
        side: Side,
        checkpoint: Option<FoundHead>,
        number: u64,
        is_doubtful: bool,
    ) -> Result<Start<D>, SegmentFault>
        requires newest { IsTrue (D.Disk.is_usable newest) }
        requires other { IsTrue (D.Disk.is_usable other) }
        requires head { IsTrue (D.Disk.is_clean newest) → IsHeadIn (D.Disk.seen newest) front }
        requires stands { IfSome checkpoint (λ c. IsTrue (D.Disk.is_clean newest) →
            IsFoundIn (D.Disk.seen newest) c.head c.text.items) }
        ensures newest { IfOk result (λ s. newest_of s ≡ newest) }
        ensures other { IfOk result (λ s. other_of s ≡ other) }
        ensures found { IfOk result (λ s. s.checkpoint ≡ checkpoint) }
        ensures doubtful { IfOk result (λ s. s.is_doubtful ≡ is_doubtful) }
        ensures side { IfOk result (λ s. s.side ≡ side) }
        ensures number { IfOk result (λ s. s.number ≡ number) }
    {
        let at = match &checkpoint {
            Some(found) => HEAD.checked_add(found.text.len()),
            None => Some(0),
        };
        let Some(at) = at else {
            return Err(SegmentFault::NoMemory);
        };
        Ok(Start {
            newest,
            other,
            side,
            front,
            checkpoint,
            at,
            number,
            is_doubtful,
        })
    }
}

impl<D: Disk> Start<D> {
    ghost use Rattle.segments.specs.Found.{begins_at, damage_of, events_in, newest_of, next_of};
    ghost use Rattle.segments.specs.Found.{other_of};

    /// Whether a segment was found, and its checkpoint wasn't taken yet.
    pub fn is_found(&self) -> bool
        ensures { result ≡ is_some self.now.checkpoint }
    {
        self.checkpoint.is_some()
    }

    /// Whether a file that isn't shut has no whole segment. No crash leaves such a file. If a
    /// segment was found, a newer one may be lost. If none was found, what is there can't be read.
    pub fn is_doubtful(&self) -> bool
        ensures { result ≡ self.now.is_doubtful }
    {
        self.is_doubtful
    }

    /// The number for the next segment: above that of each that stands in a file.
    pub fn next_number(&self) -> u64
        ensures { result ≡ self.now.number }
    {
        self.number
    }

    /// Where the segment that was found stands. The next one goes into the other file.
    pub fn side(&self) -> Side
        ensures { result ≡ self.now.side }
    {
        self.side
    }

    /// The checkpoint, once.
    pub fn checkpoint(&mut self) -> Option<FoundHead>
        ensures found { IfSome result (λ c. IsTrue (D.Disk.is_clean (newest_of self.new)) →
            IsFoundIn (D.Disk.seen (newest_of self.new)) c.head c.text.items) }
        ensures behind { IfSome result (λ c. begins_at self.new ≡ 87 + length c.text.items) }
        ensures fits { IfSome result (λ c. Fits c.head) }
        ensures taken { is_some result ≡ is_some self.old.checkpoint }
        ensures newest { newest_of self.new ≡ newest_of self.old }
        ensures other { other_of self.new ≡ other_of self.old }
        ensures next { next_of self.new ≡ next_of self.old }
    {
        self.checkpoint.take()
    }

    /// The lines behind the checkpoint, up to the first write that isn't whole, and where they end
    /// for damage. A log of an older version, whose writes have no seals, is read up to its first
    /// octet 0.
    ///
    /// What a crash leaves of the last write is no damage, and its lines aren't read. So damage
    /// that can't be told from that isn't seen: the last write is spoilt so that a part of it reads
    /// as zeros, or its seal's first octet is another; or all from some write on reads as zeros.
    ///
    /// The octets are read once at each call. An `Err` is `Device` if no segment was found, too.
    pub fn log(&mut self, alloc: Global) -> Result<FoundLog, SegmentFault>
        ensures text { IfOk result (λ log. IsTrue (D.Disk.is_clean (newest_of self.new)) →
            log.lines.items ≡ events_in self.new) }
        ensures damage { IfOk result (λ log. IsTrue (D.Disk.is_clean (newest_of self.new)) →
            log.damage ≡ damage_of self.new) }
        ensures seen { D.Disk.seen (newest_of self.new) ≡ D.Disk.seen (newest_of self.old) }
        ensures clean { IsTrue (D.Disk.is_clean (newest_of self.new)) →
            IsTrue (D.Disk.is_clean (newest_of self.old)) }
        ensures same { begins_at self.new ≡ begins_at self.old }
        ensures taken { self.new.checkpoint ≡ self.old.checkpoint }
        ensures other { other_of self.new ≡ other_of self.old }
        ensures next { next_of self.new ≡ next_of self.old }
    {
        let FileFront::Head(head) = self.front else {
            return Err(SegmentFault::Device(ErrorKind::NotFound));
        };
        let text = rest_at(alloc, &mut self.newest, self.at)?;
        log_behind(alloc, &head, self.at, text)
    }

    /// The two files: that of the segment that was found, and the one for the next segment.
    pub fn into_files(self) -> (D, D)
        ensures found { IsTrue (D.Disk.is_usable result.0) }
        ensures newest { result.0 ≡ newest_of self }
        ensures next { IsTrue (D.Disk.is_usable result.1) }
        ensures other { result.1 ≡ other_of self }
    {
        let Start { newest, other, .. } = self;
        (newest, other)
    }
}
