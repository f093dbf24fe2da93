//! One line that speaks to the outstations here alone.
ghost use Rattle.std.specs.Prelude.{IfOk, IfSome};
ghost use Rattle.ft12.specs.declared.frame.LinkSize.{LinkSize};
ghost use Rattle.sim.specs.Directives.{FitsStations};
ghost use Rattle.sim.specs.Cues.{FitsLine, IsPeriod};

use crate::directive::Directive;
use crate::line::read_line;
use crate::stations::cue::{Cue, RestartTimer, Timer};
use ft12::LinkSize;
use std::alloc::{AllocError, Global};
use traces::{cut, read_decimal};

const SPACE: u8 = b' ';

/// The most digits of a number.
const MOST_DIGITS: usize = 9;

/// The shortest time of a line, in ms.
const SHORTEST_MS: u64 = 10;

/// The longest, a day.
const LONGEST_MS: u64 = 86_400_000;

/// Whether a line is one that a script of `sim` doesn't have.
pub(crate) fn is_cue_line(line: &[u8]) -> bool {
    let (word, _) = cut(line, SPACE);
    match word {
        b"at" => true,
        b"every" => true,
        b"confirm" => true,
        b"refuse" => true,
        b"delay" => true,
        _ => false,
    }
}

/// A number of 1 to 9 decimal digits.
fn number(digits: &[u8]) -> Option<u64> {
    if digits.len() <= MOST_DIGITS {
        read_decimal(digits)
    } else {
        None
    }
}

/// A time in ms, 10 to 86,400,000.
fn time(digits: &[u8]) -> Option<u64>
    ensures { IfSome result IsPeriod }
{
    let ms = number(digits)?;
    if SHORTEST_MS <= ms && ms <= LONGEST_MS {
        Some(ms)
    } else {
        None
    }
}

/// The index of a station, from 0, by its number, from 1.
fn index(stations: usize, digits: &[u8]) -> Option<usize> {
    let number = number(digits)?;
    if 1 <= number && number <= stations as u64 {
        Some(number as usize - 1)
    } else {
        None
    }
}

/// The same, if a number stands there.
fn index_in(stations: usize, digits: Option<&[u8]>) -> Option<usize> {
    index(stations, digits?)
}

/// `confirm S` and `refuse S`.
fn habit(word: &[u8], station: Option<usize>) -> Option<Cue>
    ensures { (size : LinkSize) → IfSome result (FitsLine size) }
{
    let station = station?;
    match word {
        b"confirm" => Some(Cue::Confirm(station)),
        b"refuse" => Some(Cue::Refuse(station)),
        _ => None,
    }
}

/// An answer, by the number of its request, and how late it goes out.
fn delay(what: &[u8], request: Option<u64>, ms: Option<u64>) -> Option<Cue>
    ensures { (size : LinkSize) → IfSome result (FitsLine size) }
{
    let request = request?;
    let ms = ms?;
    if what == b"answer".as_slice() {
        Some(Cue::Delayed(request, ms))
    } else {
        None
    }
}

/// `delay answer N MS`, of which the first word was read.
fn delayed(what: &[u8], rest: &[u8]) -> Option<Cue>
    ensures { (size : LinkSize) → IfSome result (FitsLine size) }
{
    let (request, rest) = cut(rest, SPACE);
    let rest = rest?;
    let (ms, more) = cut(rest, SPACE);
    if more.is_some() {
        return None;
    }
    delay(what, number(request), time(ms))
}

/// `at MS restart S` and `every MS restart S`.
fn restarted(size: LinkSize, word: &[u8], ms: Option<u64>, station: Option<usize>) -> Option<Cue>
    requires { IfSome ms IsPeriod }
    ensures { IfSome result (FitsLine size) }
{
    let ms = ms?;
    Some(Cue::Restarted(RestartTimer {
        station: station?,
        every: period(word, ms)?,
        due: Some(ms),
    }))
}

/// How often that is behind the first time, by its word.
fn period(word: &[u8], ms: u64) -> Option<Option<u64>>
    requires { IsPeriod ms }
    ensures { IfSome result (λ every. IfSome every IsPeriod) }
{
    match word {
        b"at" => Some(None),
        b"every" => Some(Some(ms)),
        _ => None,
    }
}

/// `at MS report S CLASS HEX` and `every MS report S CLASS HEX`.
fn timed(
    size: LinkSize,
    stations: usize,
    word: &[u8],
    ms: Option<u64>,
    directive: Option<Directive>,
) -> Option<Cue>
    requires period { IfSome ms IsPeriod }
    requires fits { IfSome directive (FitsStations size stations) }
    ensures { IfSome result (FitsLine size) }
{
    let ms = ms?;
    let Some(Directive::Report(station, class, report)) = directive else {
        return None;
    };
    let every = period(word, ms)?;
    Some(Cue::Timed(Timer {
        station,
        class,
        report,
        every,
        // Not at the start, for which there is `report` (docs/DECISIONS.md, "`every` begins at
        // MS").
        due: Some(ms),
    }))
}

/// What a line says, if there are so many stations and link addresses have this size. `None` if it
/// says nothing.
pub(crate) fn read_cue(
    alloc: Global,
    size: LinkSize,
    stations: usize,
    line: &[u8],
) -> Result<Option<Cue>, AllocError>
    ensures { IfOk result (λ said. IfSome said (FitsLine size)) }
{
    let (word, rest) = cut(line, SPACE);
    let Some(rest) = rest else {
        return Ok(None);
    };
    let (second, rest) = cut(rest, SPACE);
    let Some(rest) = rest else {
        return Ok(habit(word, index(stations, second)));
    };
    if word == b"delay".as_slice() {
        return Ok(delayed(second, rest));
    }
    let (third, station) = cut(rest, SPACE);
    if third == b"restart".as_slice() {
        return Ok(restarted(size, word, time(second), index_in(stations, station)));
    }
    let directive = read_line(alloc, size, stations, rest)?;
    Ok(timed(size, stations, word, time(second), directive))
}
