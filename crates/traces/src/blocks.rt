//! A text is read on, block by block. Each block is whole lines, so that a long text takes a buffer
//! of 32,768 octets, and more only if one line is longer.
//!
//! Proved, if it is known what the reader will give: the blocks are the text, and two of them are
//! parted by one line feed, which belongs to neither. So nothing is lost, nothing comes twice, and
//! nothing comes after the last block. [`Blocks::advance`] answers `false` only after the last
//! block, and a fault loses nothing. Not proved is that no octet is searched twice, how much memory
//! is taken, and which of the faults comes.
ghost use Rattle.std.specs.Prelude.{◌≡◌, ◌-◌, ◌<◌, ◌≤◌, [], true, false, length, take, drop};
ghost use Rattle.std.specs.Prelude.{slice_index, MatchOption, IfSome, IfOk, OnOk, OnErr};
ghost use Rattle.std.specs.Io.{ReadsAtMost};
ghost use Rattle.std.specs.Io.KnownBytes.{IsAtEnd, Keeps, ReadConsumes};
ghost use Rattle.traces.specs.Blocks.{IsGiven, held_and_left};

use crate::reading::LINE_FEED;
use memchr::memrchr;
use std::alloc::Global;
use std::io::{ErrorKind, Read};
use std::marker::Model;
use thiserror::Error;

/// Why no more of a text is had.
#[derive(Clone, Copy, Debug, PartialEq, Eq, Error)]
pub enum BlockFault {
    /// A read failed.
    #[error("the text cannot be read")]
    Unread,
    /// Memory was refused.
    #[error("no memory")]
    NoMemory,
}

/// A text that is read on, block by block. No more of it is held than the latest block and the
/// octets that were read behind it. The first block takes 32,768 octets of memory; then none is
/// taken, but twice as many octets each time that one line doesn't fit.
#[derive(Drop)]
pub struct Blocks<R: Read> {
    reader: R,
    /// The latest block, its line feed, what was read behind that, and room.
    buf: Vec<u8>,
    /// Where the latest block ends.
    end: usize,
    /// Where the octets behind the latest block and its line feed begin.
    next: usize,
    /// Where they end. No line feed is among them.
    filled: usize,
    is_over: bool,
}

impl<R: Read> Model for Blocks<R> {
    ghost use Rattle.std.specs.Prelude.{◌≤◌, length, take, drop};
    ghost use Rattle.std.specs.Io.KnownBytes.{prepend_known};
    ghost use Rattle.traces.specs.Blocks.{Reading};

    ghost Value = { Reading };

    ghost view = { λ b. record {
      lines = take b.end b.buf.items;
      is_over = b.is_over;
      coming = prepend_known (drop b.next (take b.filled b.buf.items)) (R.remaining b.reader);
    } };

    ghost invariant = { λ b. (b.end ≤ b.next) × (b.next ≤ b.filled)
        × (b.filled ≤ length b.buf.items) };
}

/// Half of the room that is made at first, in octets. All of it is filled, which a short text pays
/// for, and a page of its lines' actions grows with it.
const HALF_ROOM: usize = 16_384;

/// Moves the octets from `start` to `end` to the front, and answers how many these are.
fn shift(buf: &mut Vec<u8>, start: usize, end: usize) -> usize
    requires order { start ≤ end }
    requires within { end ≤ length buf.old.items }
    ensures count { result ≡ end - start }
    ensures moved { take result buf.new.items ≡ drop start (take end buf.old.items) }
    ensures length { length buf.new.items ≡ length buf.old.items }
{
    buf.copy_within(start..end, 0);
    end - start
}

/// Makes room behind the first octets, unless there is. What stands in it means nothing.
fn make_room(buf: &mut Vec<u8>, filled: usize) -> Result<(), BlockFault>
    requires { filled ≤ length buf.old.items }
    ensures same { take filled buf.new.items ≡ take filled buf.old.items }
    ensures some { OnOk result (filled < length buf.new.items) }
    ensures grown { length buf.old.items ≤ length buf.new.items }
{
    if filled < buf.len() {
        return Ok(());
    }
    let Some(wanted) = buf.len().max(HALF_ROOM).checked_mul(2) else {
        return Err(BlockFault::NoMemory);
    };
    match buf.resize(wanted, 0) {
        Ok(()) => Ok(()),
        Err(_) => Err(BlockFault::NoMemory),
    }
}

/// Reads octets, and answers how many came: none at the end of the text.
fn read_some<R: Read>(reader: &mut R, room: &mut [u8]) -> Result<usize, BlockFault>
    ensures bound { ReadsAtMost result room.new }
    ensures bytes { ReadConsumes (R.remaining reader.old) (R.remaining reader.new) result
        room.new }
{
    'reading: for _ in 0..u64::MAX {
        match reader.read(room) {
            Ok(count) => return Ok(count),
            Err(fault) => match fault.kind() {
                // A signal came first.
                ErrorKind::Interrupted => {}
                ErrorKind::OutOfMemory => return Err(BlockFault::NoMemory),
                _ => return Err(BlockFault::Unread),
            },
        }
    }
    // No reader is stopped so often.
    Err(BlockFault::Unread)
}

/// Reads octets behind the first ones, and answers where they end.
fn read_behind<R: Read>(reader: &mut R, row: &mut [u8], filled: usize) -> Result<usize, BlockFault>
    requires { filled < length row.old }
    ensures within { IfOk result (λ end. (filled ≤ end) × (end ≤ length row.new)) }
    ensures read { IfOk result (λ end. Keeps
        (held_and_left filled row.old (R.remaining reader.old))
        (held_and_left end row.new (R.remaining reader.new))) }
    ensures over { IfOk result (λ end. end ≡ filled → IsAtEnd (R.remaining reader.new)) }
    ensures kept { OnErr result (Keeps
        (held_and_left filled row.old (R.remaining reader.old))
        (held_and_left filled row.new (R.remaining reader.new))) }
{
    let count = read_some(reader, &mut row[filled..])?;
    Ok(filled + count)
}

/// Reads on until a line feed comes, and answers the place of the last one, or none at the end of
/// the text. Only what comes is searched.
fn fill<R: Read>(
    reader: &mut R,
    buf: &mut Vec<u8>,
    filled: &mut usize,
) -> Result<Option<usize>, BlockFault>
    requires { filled.old ≤ length buf.old.items }
    ensures within { filled.new ≤ length buf.new.items }
    ensures kept { Keeps (held_and_left filled.old buf.old.items (R.remaining reader.old))
        (held_and_left filled.new buf.new.items (R.remaining reader.new)) }
    ensures found { IfOk result (λ found. MatchOption found (IsAtEnd (R.remaining reader.new))
        (λ place. (place < filled.new) × (slice_index buf.new.items place ≡ 10))) }
{
    'filling: for _ in 0..u64::MAX {
        make_room(buf, *filled)?;
        let start = *filled;
        *filled = read_behind(reader, buf.as_mut_slice(), start)?;
        if *filled == start {
            return Ok(None);
        }
        if let Some(place) = memrchr(LINE_FEED, &buf[start..*filled]) {
            return Ok(Some(start + place));
        }
    }
    // No memory holds so many octets.
    Err(BlockFault::NoMemory)
}

impl<R: Read> Blocks<R> {
    /// The blocks of what a reader will give. It takes no memory and reads nothing, so the latest
    /// block is empty at first.
    pub fn new(alloc: Global, reader: R) -> Blocks<R>
        ensures { result ≡ record { lines = []; is_over = false; coming = R.remaining reader } }
    {
        Blocks {
            reader,
            buf: Vec::new(alloc),
            end: 0,
            next: 0,
            filled: 0,
            is_over: false,
        }
    }

    /// Goes on to the next block: answers whether there was one more. There is at least one, which
    /// is empty if the text is. A text that ends in a line feed may have an empty last block. A
    /// read that a signal stopped is tried again.
    ///
    /// `Unread` says that a read failed; `NoMemory`, that memory was refused, here or to the
    /// reader. Then the latest block is empty, and nothing of the text is lost: the next call tries
    /// again.
    pub fn advance(&mut self) -> Result<bool, BlockFault>
        ensures block { IfOk result (λ more. more ≡ true → (self.old.is_over ≡ false)
            × IfSome self.old.coming (λ text. IsGiven text self.new)) }
        ensures over { IfOk result (λ more. more ≡ false → (self.old.is_over ≡ true)
            × (self.new ≡ self.old)) }
        ensures kept { OnErr result ((self.new.lines ≡ []) × (self.new.is_over ≡ false)
            × Keeps self.old.coming self.new.coming) }
    {
        if self.is_over {
            return Ok(false);
        }
        self.filled = shift(&mut self.buf, self.next, self.filled);
        self.end = 0;
        self.next = 0;
        match fill(&mut self.reader, &mut self.buf, &mut self.filled)? {
            Some(place) => {
                self.end = place;
                self.next = place + 1;
            }
            None => {
                self.end = self.filled;
                self.next = self.filled;
                self.is_over = true;
            }
        }
        Ok(true)
    }

    /// The latest block, without the line feed behind its last line.
    pub fn lines(&self) -> &[u8]
        ensures { result.now ≡ self.now.lines }
    {
        &self.buf[..self.end]
    }

    /// Whether the latest block is the last one.
    pub fn is_over(&self) -> bool
        ensures { result ≡ self.now.is_over }
    {
        self.is_over
    }
}
