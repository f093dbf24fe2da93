//! The command that runs the gateway over a trace.
ghost use Rattle.std.specs.Prelude.{◌≡◌, ◌⊎◌, ◌+◌, ◌<◌, ℕ, List, Option, false, true, length, IfOk};
ghost use Rattle.std.specs.Prelude.{IfErr, IfSome, OnOk, OnErr};
ghost use Rattle.traces.specs.Blocks.{IsGiven};
ghost use Rattle.traces.specs.Actions.{lines_of_actions};
ghost use Rattle.traces.specs.Progress.{AreRight};
ghost use Rattle.traces.specs.Trace.{lines_of};
ghost use Rattle.telegate.specs.Answers.{IsEndOf, IsReplayed};
ghost use Rattle.telegate.specs.Closing.{closing_lines};
ghost use Rattle.telegate.specs.Manners.{AreLines};
ghost use Rattle.telegate.specs.Parts.{IsWant, IsJudged, IsLineFault, IsClearPause, IsPartRun};
ghost use Rattle.telegate.specs.Parts.{IsPartStopped, RunsOver};
ghost use Rattle.telegate.specs.Printed.{IsPoured, IsClosedBy};
ghost use Rattle.telegate.specs.Source.{Gives};
ghost use Rattle.telegate.specs.declared.manner.Manner.TheVariants.{Lines};

use crate::check::read_config;
use crate::closing::{Closing, push_closing};
use crate::fault::Fault;
use crate::host::Unread;
use crate::in_words::run_in_words;
use crate::manner::Manner;
use crate::printed::{blank_if, drive_printed, print_closing, show_percent};
use crate::recorded::{is_record, read_part};
use crate::source::Source;
use delivery::nothing_is_lost;
use gateway::{Config, End, Gateway, steps_keep_their_order};
use std::alloc::Global;
use std::io::{Read, Write};
use traces::{BlockFault, Blocks, Pause, TextFault, judge};

/// So many octets of a trace pass before it is said how far a run has come: 2^25, a quarter of a
/// second.
const STRIDE: u64 = 33_554_432;

/// What is asked of a replay.
#[derive(Clone, Copy)]
pub(crate) struct AskedReplay<'a> {
    /// The file of settings: its name, and its octets.
    pub(crate) name: &'a str,
    pub(crate) config: &'a [u8],
    pub(crate) manner: Manner,
    pub(crate) closing: Closing,
    /// Whether it is to be said on standard error how far a long run has come.
    pub(crate) is_watched: bool,
}

/// A run over a trace that was judged.
#[derive(Clone, Copy)]
struct ReplayCourse {
    closing: Closing,
    /// The octets of the trace, with a line feed behind its last line too.
    size: u64,
    is_watched: bool,
}

/// Runs the gateway over the events of a trace, and prints a line for each action as it is made, or
/// one in words for each event and each action, and then the closing lines. The settings are judged
/// before the trace, and the whole trace before the run, so that nothing is printed if either is
/// wrong. The trace is read twice, block by block. If it is watched, a long run says on standard
/// error how far it has come; one in words doesn't. In words a record is printed too (a text of
/// which a line is that of an action): its events are run, and the lines of its actions are passed
/// over.
pub(crate) fn replay<S: Source, W: Write, E: Write>(
    alloc: Global,
    asked: &AskedReplay<'_>,
    trace: &S,
    out: &mut W,
    err: &mut E,
) -> Result<(), Fault>
    ensures answer { IsReplayed asked.now.config.now asked.now.manner (S.has trace.now)
        asked.now.closing (W.contents out.old) (W.contents out.new) result }
    ensures unwatched { asked.now.is_watched ≡ false → err.new ≡ err.old }
{
    let text = open(trace)?;
    let config = read_config(alloc, asked.config)?;
    match asked.manner {
        Manner::Lines => {
            let size = judge_text(alloc, text, false)?;
            let course = ReplayCourse {
                closing: asked.closing,
                size,
                is_watched: asked.is_watched,
            };
            let text = open(trace)?;
            run(alloc, &config, text, &course, out, err)
        }
        Manner::Words { is_coloured } => {
            // In words alone: a plain replay refuses a line of an action, as any wrong line
            // (docs/DECISIONS.md, "A record in words").
            let as_record = is_record(alloc, text)?;
            let text = open(trace)?;
            judge_text(alloc, text, as_record)?;
            let text = open(trace)?;
            let closing = asked.closing;
            run_in_words(alloc, &config, text, as_record, is_coloured, closing, out)
        }
    }
}

/// A text from its beginning on.
pub(crate) fn open<S: Source>(trace: &S) -> Result<S::Text, Fault>
    ensures text { IfOk result (λ text. (octets : List ℕ) →
        Gives (S.Text.remaining text) octets → S.has trace.now octets) }
    ensures fault { IfErr result IsWant }
{
    match trace.open() {
        Ok(text) => Ok(text),
        Err(Unread::Unreadable) => Err(Fault::Unread),
        Err(Unread::NoMemory) => Err(Fault::NoMemory),
    }
}

/// Goes on to the next block of a text, if there is one.
pub(crate) fn advance<R: Read + Drop>(blocks: &mut Blocks<R>) -> Result<(), Fault>
    requires { blocks.old.is_over ≡ false }
    ensures block { OnOk result (IfSome blocks.old.coming (λ text. IsGiven text blocks.new)) }
    ensures fault { IfErr result IsWant }
{
    match blocks.advance() {
        Ok(true) => Ok(()),
        Ok(false) => unreachable!(),
        Err(BlockFault::Unread) => Err(Fault::Unread),
        Err(BlockFault::NoMemory) => Err(Fault::NoMemory),
    }
}

/// Judges the lines of a block, of which the first has this number. Answers that of the line behind
/// them.
fn judge_lines(lines: &[u8], first: u64) -> Result<u64, Fault>
    ensures right { IfOk result (AreRight first (lines_of lines.now)) }
    ensures fault { IfErr result (IsLineFault first lines.now) }
{
    match judge(lines, first) {
        Ok(next) => Ok(next),
        Err(TextFault::Line(n)) => Err(Fault::Trace(n)),
        Err(TextFault::NoMemory) => Err(Fault::NoMemory),
    }
}

/// Judges the lines of a text, block by block, as those of a trace or of a record. Answers its size
/// as a course has it.
fn judge_text<R: Read + Drop>(alloc: Global, text: R, as_record: bool) -> Result<u64, Fault>
    ensures { IsJudged as_record (R.remaining text) result }
{
    let mut blocks = Blocks::new(alloc, text);
    let mut part = Vec::new(alloc);
    let mut next = 1;
    let mut size = 0;
    'judging: for _ in 0..u64::MAX {
        advance(&mut blocks)?;
        let lines = blocks.lines();
        let is_last = blocks.is_over();
        let read = read_part(&mut part, lines, is_last, as_record)?;
        next = judge_lines(read, next)?;
        size = with_lines(size, lines);
        if blocks.is_over() {
            return Ok(size);
        }
    }
    // No memory holds so many blocks.
    Err(Fault::NoMemory)
}

/// A size, and that of the lines behind it, with a line feed behind the last.
fn with_lines(size: u64, lines: &[u8]) -> u64 {
    size.saturating_add(lines.len() as u64).saturating_add(1)
}

/// Runs the gateway over a trace that was judged. An output that fails is written to no more, and
/// said at the end.
fn run<R: Read + Drop, W: Write, E: Write>(
    alloc: Global,
    config: &Config,
    text: R,
    course: &ReplayCourse,
    out: &mut W,
    err: &mut E,
) -> Result<(), Fault>
    ensures answer { IsEndOf config.now Lines false (Gives (R.remaining text))
        course.now.closing (W.contents out.old) (W.contents out.new) result }
    ensures unwatched { course.now.is_watched ≡ false → err.new ≡ err.old }
{
    nothing_is_lost();
    steps_keep_their_order();
    let mut gateway = Gateway::new(alloc, config)?;
    let ran = run_parts(alloc, &mut gateway, text, course, out, err);
    blank_if(is_progress_shown(course), err);
    let is_whole = ran?;
    close(alloc, &gateway, course.closing, is_whole, out)
}

/// Whether it is said how far a run has come.
fn is_progress_shown(course: &ReplayCourse) -> bool
    ensures unwatched { course.now.is_watched ≡ false → result ≡ false }
    ensures some { result ≡ true → 0 < course.now.size }
{
    course.is_watched && course.size > STRIDE
}

/// Runs a gateway over a whole text, block by block, and prints the lines of its actions. Answers
/// whether the output has taken all.
fn run_parts<R: Read + Drop, W: Write, E: Write>(
    alloc: Global,
    gateway: &mut Gateway,
    text: R,
    course: &ReplayCourse,
    out: &mut W,
    err: &mut E,
) -> Result<bool, Fault>
    ensures answer { RunsOver AreLines false (R.remaining text) gateway.old gateway.new
        (W.contents out.old) (W.contents out.new) result }
    ensures unwatched { course.now.is_watched ≡ false → err.new ≡ err.old }
{
    let mut blocks = Blocks::new(alloc, text);
    let mut pause = Pause::new(alloc);
    let mut is_whole = true;
    let mut size = 0;
    'running: for _ in 0..u64::MAX {
        advance(&mut blocks)?;
        let lines = blocks.lines();
        (pause, is_whole) = run_part(gateway, pause, lines, is_whole, out, err)?;
        if blocks.is_over() {
            return Ok(is_whole);
        }
        let before = size;
        size = with_lines(size, lines);
        show_progress(course, before, size, err);
    }
    // No memory holds so many blocks.
    Err(Fault::NoMemory)
}

/// Runs a gateway over one block. Answers how the run then stands, and whether the output has taken
/// all so far.
fn run_part<W: Write, E: Write>(
    gateway: &mut Gateway,
    pause: Pause,
    lines: &[u8],
    was_whole: bool,
    out: &mut W,
    err: &mut E,
) -> Result<(Pause, bool), Fault>
    requires { IsClearPause pause }
    ensures run { IfOk result (λ after.
        IsPartRun pause lines.now gateway.old gateway.new after.0) }
    ensures printed { IfOk result (λ after. (before : Option (List ℕ)) →
        IsPoured was_whole before (W.contents out.old) (lines_of_actions pause.log) →
        IsPoured after.1 before (W.contents out.new) (lines_of_actions after.0.log)) }
    ensures stopped { IfErr result IsWant }
    // Before the block, or in it.
    ensures begun { OnErr result ((out.new ≡ out.old) ⊎ ((before : Option (List ℕ)) →
        IsPoured was_whole before (W.contents out.old) (lines_of_actions pause.log) →
        IsPartStopped AreLines pause lines.now gateway.old before (W.contents out.new))) }
    ensures unwatched { err.new ≡ err.old }
{
    let mut port = pause.over(lines);
    let Some(turns) = turns_of(lines) else {
        return Err(Fault::NoMemory);
    };
    let (end, is_whole) = drive_printed(gateway, &mut port, turns, was_whole, false, out, err);
    let _page_is_clear = port.page();
    match end {
        End::Finished => Ok((port.pause(), is_whole)),
        End::Device => Err(fault_in(lines)),
        End::Turns => unreachable!(),
    }
}

/// As many turns as a run over these lines takes at most: a line feed parts them, a tick may come
/// before them, and behind them there is no more.
pub(crate) fn turns_of(lines: &[u8]) -> Option<u64>
    ensures { IfSome result (λ turns. turns ≡ length lines.now + 3) }
{
    (lines.len() as u64).checked_add(3)
}

/// Why a run stopped in a block: the page wanted memory, or the text isn't the one that was judged.
pub(crate) fn fault_in(lines: &[u8]) -> Fault
    ensures { IsWant result }
{
    match judge(lines, 1) {
        Err(TextFault::Line(_)) => Fault::Unread,
        _ => Fault::NoMemory,
    }
}

/// Says after each stride how far a run has come, if that is wanted.
fn show_progress<E: Write>(course: &ReplayCourse, before: u64, size: u64, err: &mut E)
    ensures { course.now.is_watched ≡ false → err.new ≡ err.old }
{
    if is_progress_shown(course) && before / STRIDE < size / STRIDE {
        // A text that has grown since it was judged isn't counted beyond its end.
        let _ = show_percent(size.min(course.size), course.size, err);
    }
}

/// Prints the lines with which a run ends, when all others were printed.
pub(crate) fn close<W: Write>(
    alloc: Global,
    gateway: &Gateway,
    closing: Closing,
    is_whole: bool,
    out: &mut W,
) -> Result<(), Fault>
    ensures { (before : Option (List ℕ)) (text : List ℕ) →
        IsPoured is_whole before (W.contents out.old) text →
        IsClosedBy before (W.contents out.new) text
        (closing_lines closing.left closing.counts gateway.now) result }
{
    let mut lines = String::new(alloc);
    push_closing(alloc, &mut lines, gateway, closing)?;
    print_closing(lines.as_bytes(), is_whole, out)
}
