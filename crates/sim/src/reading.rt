//! Reading of scripts.
ghost use Rattle.std.specs.Prelude.{◌≡◌, IfOk, MatchResult, map};
ghost use Rattle.std.specs.List.{AllByRecursion};
ghost use Rattle.sim.specs.Directives.{FitsStations};
ghost use Rattle.sim.specs.Scripts.{IsScriptOf, AreSaidBy, IsFaultOf, FitsSettings, lines_of};

use crate::line::read_line;
use crate::numbered::Numbered;
use crate::script::Script;
use ft12::LinkSize;
use gateway::Config;
use std::alloc::{AllocError, Global};
use traces::{TextFault, is_skipped, parts};

const LINE_FEED: u8 = b'\n';

/// The lines that line feeds end. What follows the last line feed is a line if there is something.
#[tactic(auto, using(crate::proofs::ScriptLemmas::ended_without, crate::proofs::ScriptLemmas::ended_with))]
fn lines(alloc: Global, text: &[u8]) -> Result<Vec<&[u8]>, AllocError>
    ensures { IfOk result (λ v. map (λ line. line.now) v.items ≡ lines_of text.entry.now) }
{
    let mut lines = parts(alloc, text, LINE_FEED)?;
    // What follows the last line feed is empty in a text that ends as it should.
    let Some(last) = lines.pop() else {
        return Ok(lines);
    };
    if last.is_empty() {
        return Ok(lines);
    }
    lines.push(last)?;
    Ok(lines)
}

/// Reads lines, counted from 1, if there are so many stations and link addresses have this size.
#[tactic(auto, using(crate::proofs::ScriptLemmas::read_skip, crate::proofs::ScriptLemmas::wrong_here, crate::proofs::ScriptLemmas::clash_here, crate::proofs::ScriptLemmas::said_end, crate::proofs::ScriptLemmas::wrong_end, crate::proofs::ScriptLemmas::no_turns_end))]
fn read_lines(
    alloc: Global,
    size: LinkSize,
    stations: usize,
    lines: &[&[u8]],
) -> Result<Script, TextFault>
    ensures script { MatchResult result
        (AreSaidBy size stations (map (λ line. line.now) lines.now))
        (IsFaultOf size stations (map (λ line. line.now) lines.now)) }
    ensures fits { IfOk result (AllByRecursion (FitsStations size stations)) }
{
    let mut directives = Numbered::new(alloc);
    for (i, line) in lines.iter().enumerate() {
        if is_skipped(*line) {
            continue;
        }
        match read_line(alloc, size, stations, *line)? {
            Some(directive) if !directives.clash(&directive) => {
                directives = directives.push(directive)?;
            }
            _ => return Err(TextFault::Line(i as u64 + 1)),
        }
    }
    if directives.has_turns() {
        Ok(Script::new(directives))
    } else {
        Err(TextFault::Line(lines.len() as u64 + 1))
    }
}

/// Reads a whole script for these settings: lines that end in a line feed (the last may lack it),
/// empty ones and those that begin with `#` skipped. Numbers are 1 to 9 decimal digits, octets in
/// hexadecimal of either case. The lines are `turns N`, `ack N` (1 to 32767), `wall WALL` (1 to 15
/// digits), `report S CLASS HEX` (station from 1, class 1 or 2), `lose request N`, `lose answer N`,
/// `spoil answer N P`, `cut N` and `send N HEX` (9 to 249 octets). The first wrong line is the
/// fault; a second `turns`, `ack`, `wall`, `spoil answer` for one request or `send` for one call is
/// wrong, and a script without `turns` at the line after the last.
pub fn read_script(alloc: Global, config: &Config, text: &[u8]) -> Result<Script, TextFault>
    ensures script { IsScriptOf config.now text.now result }
    ensures fits { IfOk result (FitsSettings config.now) }
{
    let lines = lines(alloc, text)?;
    read_lines(
        alloc,
        config.line().link,
        config.stations().len(),
        lines.as_slice(),
    )
}
