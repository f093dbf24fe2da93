//! Reading of scripts with lines for the outstations here alone.
ghost use Rattle.std.specs.Prelude.{◌≡◌, IfOk};
ghost use Rattle.std.specs.List.{AllByRecursion};
ghost use Rattle.sim.specs.Cues.{FitsLine};
ghost use Rattle.sim.specs.Scenarios.{FitsScenario, earlier_fault, joined};

use crate::reading::read_script;
use crate::script::Script;
use crate::stations::cue::Cue;
use crate::stations::cue_line::{is_cue_line, read_cue};
use crate::stations::scenario::Scenario;
use ft12::LinkSize;
use gateway::Config;
use std::alloc::{AllocError, Global};
use traces::{TextFault, cut, parts};

const LINE_FEED: u8 = b'\n';

const SPACE: u8 = b' ';

/// How many lines there may be for the outstations alone.
const MOST_CUES: usize = 1000;

/// The station whose answers to commands a line speaks of.
fn commanded(cue: &Cue) -> Option<usize> {
    match cue {
        Cue::Confirm(station) | Cue::Refuse(station) => Some(*station),
        _ => None,
    }
}

/// Whether two lines speak of one station's answers to commands.
fn is_one_station(one: &Cue, other: &Cue) -> bool {
    match (commanded(one), commanded(other)) {
        (Some(one), Some(other)) => one == other,
        _ => false,
    }
}

/// Whether two lines speak of one station's answers to commands, or of the answer to one request.
fn clashes(one: &Cue, other: &Cue) -> bool {
    match (one, other) {
        (Cue::Delayed(request, _), Cue::Delayed(other, _)) => *request == *other,
        _ => is_one_station(one, other),
    }
}

/// Whether one of these lines clashes with this one.
fn clashes_with(before: &[Cue], cue: &Cue) -> bool {
    before.iter().any(|one| clashes(one, cue))
}

/// Whether a line can't stand behind these.
fn refuses(before: &[Cue], cue: &Cue) -> bool {
    before.len() >= MOST_CUES || clashes_with(before, cue)
}

/// Reads the lines for the outstations alone, among all lines, which are counted from 1. A fault
/// is the first of them that says nothing, or can't stand behind those before it.
fn read_cues(
    alloc: Global,
    size: LinkSize,
    stations: usize,
    lines: &[&[u8]],
) -> Result<Vec<Cue>, TextFault>
    ensures { IfOk result (λ cues. AllByRecursion (FitsLine size) cues.items) }
{
    let mut cues = Vec::new(alloc);
    for (i, line) in lines.iter().enumerate() {
        if !is_cue_line(*line) {
            continue;
        }
        match read_cue(alloc, size, stations, *line)? {
            Some(cue) if !refuses(cues.as_slice(), &cue) => cues.push(cue)?,
            _ => return Err(TextFault::Line(i as u64 + 1)),
        }
    }
    Ok(cues)
}

/// Puts what separates a line with this index from the one before it.
fn separate(text: &mut Vec<u8>, index: usize) -> Result<(), AllocError> {
    if index > 0 {
        text.push(LINE_FEED)?;
    }
    Ok(())
}

/// Puts a line, as a comment if it is for the outstations alone.
fn put_commented(text: &mut Vec<u8>, line: &[u8]) -> Result<(), AllocError> {
    if is_cue_line(line) {
        // A comment stands in its place, so a line keeps its number (docs/DECISIONS.md, "Lines of
        // its own").
        text.push(b'#')?;
    } else {
        text.extend_from_slice(line)?;
    }
    Ok(())
}

/// Whether a line says how many calls of the port there are, which means nothing here.
fn is_turns_line(line: &[u8]) -> bool {
    let (word, _) = cut(line, SPACE);
    word == b"turns".as_slice()
}

/// The text of these lines, in which each that is for the outstations alone is a comment. A script
/// has to say how many calls there are: behind the last line that is said, if no line says it.
fn without_cues(alloc: Global, lines: &[&[u8]]) -> Result<Vec<u8>, AllocError> {
    let mut text = Vec::new(alloc);
    for (i, line) in lines.iter().enumerate() {
        separate(&mut text, i)?;
        put_commented(&mut text, *line)?;
    }
    if !lines.iter().any(|line| is_turns_line(*line)) {
        text.extend_from_slice(b"\nturns 0")?;
    }
    Ok(text)
}

/// The fault of the line that comes first.
fn earlier_fault(one: TextFault, other: TextFault) -> TextFault
    ensures { result ≡ earlier_fault one other }
{
    match (one, other) {
        (TextFault::Line(one), TextFault::Line(other)) => TextFault::Line(one.min(other)),
        _ => TextFault::NoMemory,
    }
}

/// Both, or the fault of the line that comes first.
fn joined(
    cues: Result<Vec<Cue>, TextFault>,
    script: Result<Script, TextFault>,
) -> Result<Scenario, TextFault>
    ensures { result ≡ joined cues script }
{
    match cues {
        Ok(cues) => match script {
            Ok(script) => Ok(Scenario { script, cues }),
            Err(fault) => Err(fault),
        },
        Err(one) => match script {
            Ok(_) => Err(one),
            Err(other) => Err(earlier_fault(one, other)),
        },
    }
}

/// Reads a whole text for these settings: lines of a script of `sim`, and between them lines for
/// the outstations alone, which are `at MS report S CLASS HEX` and `every MS report S CLASS HEX`
/// (10 ms to a day), the same with `restart S`, `confirm S` and `refuse S`, and `delay answer N
/// MS`. There are 1,000 of these at the most, one of `confirm` and `refuse` for a station, and one
/// of `delay` for a request. Else it is as `read_script` says, but `turns` may be missing. The
/// first wrong line is the fault.
pub fn read_scenario(alloc: Global, config: &Config, text: &[u8]) -> Result<Scenario, TextFault>
    ensures { IfOk result (FitsScenario config.now) }
{
    let lines = parts(alloc, text, LINE_FEED)?;
    let size = config.line().link;
    let cues = read_cues(alloc, size, config.stations().len(), lines.as_slice());
    let rest = without_cues(alloc, lines.as_slice())?;
    joined(cues, read_script(alloc, config, rest.as_slice()))
}
