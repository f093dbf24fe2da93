//! Runs over a trace that are printed in words.
ghost use Rattle.std.specs.Prelude.{◌≡◌, ◌⊎◌, [], ℕ, List, Option, IfOk, IfErr, OnErr};
ghost use Rattle.telegate.specs.Answers.{IsEndOf};
ghost use Rattle.telegate.specs.Parts.{IsClearPause, IsPartRun, IsPartStopped, IsWant, RunsOver};
ghost use Rattle.telegate.specs.Printed.{IsPoured};
ghost use Rattle.telegate.specs.Source.{Gives};
ghost use Rattle.telegate.specs.InWords.{HasWritten};
ghost use Rattle.telegate.specs.declared.manner.Manner.TheVariants.{Words};
ghost use Rattle.words.specs.Ladders.{IsLadder};

use crate::closing::Closing;
use crate::fault::Fault;
use crate::manner::style_of;
use crate::recorded::{pause_before, read_part};
use crate::replay::{advance, close, fault_in, turns_of};
use delivery::nothing_is_lost;
use gateway::{Config, End, Gateway, steps_keep_their_order};
use std::alloc::Global;
use std::io::{Read, Write};
use traces::{Blocks, Pause};
use words::{Ladder, Scribe, Style, drive_in_words};

/// Runs the gateway over a trace or a record that was judged, and prints its events and actions in
/// words. An output that fails is written to no more, and said at the end.
pub(crate) fn run_in_words<R: Read + Drop, W: Write>(
    alloc: Global,
    config: &Config,
    text: R,
    as_record: bool,
    is_coloured: bool,
    closing: Closing,
    out: &mut W,
) -> Result<(), Fault>
    ensures { IsEndOf config.now (Words is_coloured) as_record (Gives (R.remaining text)) closing
        (W.contents out.old) (W.contents out.new) result }
{
    nothing_is_lost();
    steps_keep_their_order();
    let mut gateway = Gateway::new(alloc, config)?;
    let style = style_of(config, is_coloured);
    let is_whole = write_parts(alloc, &mut gateway, text, as_record, style, out)?;
    close(alloc, &gateway, closing, is_whole, out)
}

/// Runs a gateway over a whole text, block by block, and prints its words. Answers whether the
/// output has taken all.
fn write_parts<R: Read + Drop, W: Write>(
    alloc: Global,
    gateway: &mut Gateway,
    text: R,
    as_record: bool,
    style: Style,
    out: &mut W,
) -> Result<bool, Fault>
    ensures { RunsOver (IsLadder style) as_record (R.remaining text) gateway.old gateway.new
        (W.contents out.old) (W.contents out.new) result }
{
    let mut blocks = Blocks::new(alloc, text);
    let mut part = Vec::new(alloc);
    let mut pause = pause_before(alloc, as_record);
    let mut scribe = Scribe::new(alloc, style);
    let mut is_whole = true;
    'writing: for _ in 0..u64::MAX {
        advance(&mut blocks)?;
        let lines = blocks.lines();
        let is_last = blocks.is_over();
        let read = read_part(&mut part, lines, is_last, as_record)?;
        (pause, scribe, is_whole) = write_part(gateway, pause, scribe, read, is_whole, out)?;
        if blocks.is_over() {
            return Ok(is_whole);
        }
    }
    // No memory holds so many blocks.
    Err(Fault::NoMemory)
}

/// Runs a gateway over one block. Answers how the run then stands, and whether the output has taken
/// all so far.
fn write_part<W: Write>(
    gateway: &mut Gateway,
    pause: Pause,
    scribe: Scribe,
    lines: &[u8],
    was_whole: bool,
    out: &mut W,
) -> Result<(Pause, Scribe, bool), Fault>
    requires clear { IsClearPause pause }
    requires written { HasWritten scribe.style pause.log scribe }
    ensures run { IfOk result (λ after.
        IsPartRun pause lines.now gateway.old gateway.new after.0) }
    ensures written { IfOk result (λ after. HasWritten scribe.style after.0.log after.1) }
    ensures printed { IfOk result (λ after. (before : Option (List ℕ)) →
        IsPoured was_whole before (W.contents out.old) scribe.logged →
        IsPoured after.2 before (W.contents out.new) after.1.logged) }
    ensures stopped { IfErr result IsWant }
    // Before the block, or in it.
    ensures begun { OnErr result ((out.new ≡ out.old) ⊎ ((before : Option (List ℕ)) →
        IsPoured was_whole before (W.contents out.old) scribe.logged →
        IsPartStopped (IsLadder scribe.style) pause lines.now gateway.old before
        (W.contents out.new))) }
{
    let Some(turns) = turns_of(lines) else {
        return Err(Fault::NoMemory);
    };
    let mut ladder = Ladder::new(pause.over(lines), scribe);
    let (end, is_whole) = drive_in_words(gateway, &mut ladder, turns, was_whole, out);
    let _page_is_clear = ladder.page();
    let _text_is_read = ladder.port().page();
    match end {
        End::Finished => {
            let (port, scribe) = ladder.leave();
            Ok((port.pause(), scribe, is_whole))
        }
        End::Device => Err(fault_in(lines)),
        End::Turns => unreachable!(),
    }
}
