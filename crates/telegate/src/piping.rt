//! The commands that show frames which come by a pipe.
ghost use Rattle.std.specs.Prelude.{◌≡◌, ℕ, Bool, List, Option, IfErr, IfOk, OnOk, string_bytes};
ghost use Rattle.std.specs.Io.KnownBytes.{Appends};
ghost use Rattle.traces.specs.Trace.{lines_of};
ghost use Rattle.words.specs.Pipes.{octets_in};
ghost use Rattle.telegate.specs.Parts.{IsWant};
ghost use Rattle.telegate.specs.Piping.{AreFrames, AreLinesShown, IsAdded, IsShownAs, Pipes};
ghost use Rattle.telegate.specs.Piping.{status_of_pipe, wrong_line};
ghost use Rattle.telegate.specs.Source.{Gives};
ghost use Rattle.telegate.specs.declared.piping.Piped.{Piped};

use crate::fault::{BAD_CONTENT, DONE, Fault};
use crate::performing::write_fault;
use crate::replay::{advance, open};
use crate::source::Source;
use std::alloc::{AllocError, Global};
use std::io;
use std::io::{Read, Write};
use traces::{Blocks, cut, print};
use words::{
    Condition, LineSizes, Shown, both, describe_apdus, describe_line_frames, read_line_of_octets,
};

/// What frames come by a pipe.
#[derive(Clone, Copy)]
pub(crate) enum Piped {
    /// Those of a line whose addresses have these sizes.
    Line(LineSizes),
    /// APDUs of a connection.
    Connection,
}

/// Shows the frames of a text, which is read line by line: octets in hexadecimal, with a frame or
/// several a line. Each is shown as it is alone, in one line of words or with a fact a line. A line
/// that is no octets is written with its number to `err`, and the others go on. Answers whether all
/// was as it should be.
pub(crate) fn pipe<S: Source, W: Write, E: Write>(
    alloc: Global,
    text: &S,
    piped: Piped,
    words: bool,
    out: &mut W,
    err: &mut E,
) -> Result<Condition, Fault>
    ensures { Pipes piped words (S.has text.now) (W.contents out.old) (W.contents out.new) result }
{
    let text = open(text)?;
    pipe_text(alloc, text, piped, words, out, err)
}

/// The exit status of that, and the line of its fault.
pub(crate) fn end_pipe<E: Write>(ended: &Result<Condition, Fault>, err: &mut E) -> u8
    ensures { result ≡ status_of_pipe ended.now }
{
    match ended {
        Ok(Condition::Good) => DONE,
        Ok(Condition::Faulty) => BAD_CONTENT,
        Err(fault) => write_fault(fault, err),
    }
}

/// The frames of a text, block by block.
fn pipe_text<R: Read + Drop, W: Write, E: Write>(
    alloc: Global,
    text: R,
    piped: Piped,
    words: bool,
    out: &mut W,
    err: &mut E,
) -> Result<Condition, Fault>
    ensures { Pipes piped words (Gives (R.remaining text)) (W.contents out.old)
        (W.contents out.new) result }
{
    let mut blocks = Blocks::new(alloc, text);
    let mut condition = Condition::Good;
    let mut next = 1;
    'piping: for _ in 0..u64::MAX {
        advance(&mut blocks)?;
        let lines = blocks.lines();
        let (shown, number) = show_lines(alloc, lines, next, piped, words, err)?;
        match print(shown.lines.as_bytes(), out) {
            Ok(()) => {}
            Err(_) => return Err(Fault::Device),
        }
        condition = both(condition, shown.condition);
        next = number;
        if blocks.is_over() {
            return Ok(condition);
        }
    }
    // No memory holds so many blocks.
    Err(Fault::NoMemory)
}

/// The frames of lines, of which the first has this number. Answers that of the line behind them
/// too.
fn show_lines<E: Write>(
    alloc: Global,
    text: &[u8],
    first: u64,
    piped: Piped,
    words: bool,
    err: &mut E,
) -> Result<(Shown, u64), Fault>
    ensures shown { IfOk result (λ shown. AreLinesShown piped words (lines_of text.now)
        (string_bytes shown.0.lines) shown.0.condition) }
    ensures fault { IfErr result IsWant }
{
    let mut lines = String::new(alloc);
    let mut condition = Condition::Good;
    let mut left = Some(text);
    'showing: for number in first..u64::MAX {
        let Some(text) = left else {
            return Ok((Shown { lines, condition }, number));
        };
        let (line, rest) = cut(text, b'\n');
        let shown = show_text_line(alloc, line, piped, words)?;
        condition = push_shown(&mut lines, condition, &shown, number, err)?;
        left = rest;
    }
    // No memory holds so many lines.
    Err(Fault::NoMemory)
}

/// Appends what is shown of a line with this number, or writes that it is no octets. Answers
/// whether all was as it should be so far.
#[tactic(auto, using(crate::proofs::PipeLemmas::none_added))]
fn push_shown<E: Write>(
    lines: &mut String,
    condition: Condition,
    shown: &Option<Shown>,
    number: u64,
    err: &mut E,
) -> Result<Condition, AllocError>
    ensures { IfOk result (λ later. (piped : Piped) (words : Bool) (octets : Option (List ℕ)) →
        IsShownAs piped words octets shown.now → IsAdded piped words octets
        (string_bytes lines.old) (string_bytes lines.new) condition later) }
{
    match shown {
        Some(shown) => {
            lines.push_str(shown.lines.as_str())?;
            Ok(both(condition, shown.condition))
        }
        None => {
            let _ = write_wrong_line(number, err);
            Ok(both(condition, Condition::Faulty))
        }
    }
}

/// The frames of a line of text, or none if it is no octets.
fn show_text_line(
    alloc: Global,
    line: &[u8],
    piped: Piped,
    words: bool,
) -> Result<Option<Shown>, AllocError>
    ensures { IfOk result (IsShownAs piped words (octets_in line.now)) }
{
    match read_line_of_octets(alloc, line)? {
        Some(octets) => Ok(Some(show_frames(alloc, octets.as_slice(), piped, words)?)),
        None => Ok(None),
    }
}

fn show_frames(alloc: Global, octets: &[u8], piped: Piped, words: bool) -> Result<Shown, AllocError>
    ensures { IfOk result (λ shown.
        AreFrames piped words octets.now (string_bytes shown.lines) shown.condition) }
{
    match piped {
        Piped::Line(sizes) => describe_line_frames(alloc, sizes, octets, words),
        Piped::Connection => describe_apdus(alloc, octets, words),
    }
}

/// Writes that a line is no octets.
fn write_wrong_line<E: Write>(number: u64, err: &mut E) -> io::Result<()>
    ensures { OnOk result (Appends (E.contents err.old) (E.contents err.new)
        (wrong_line number)) }
{
    writeln!(err, "octets: line {number}")
}
