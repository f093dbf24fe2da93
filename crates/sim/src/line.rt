//! One line of a script.
ghost use Rattle.std.specs.Prelude.{◌≡◌, ℕ, ◌<◌, ◌≤◌, IfOk, IfSome, length, option_map};
ghost use Rattle.ft12.specs.declared.frame.LinkSize.{LinkSize};
ghost use Rattle.traces.specs.Fields.{decimal_of};
ghost use Rattle.sim.specs.Directives.{number_of, counted, counted_by, walled_by, of_two};
ghost use Rattle.sim.specs.Directives.{losing_by, sending_by, spoiling_by, longest_report};
ghost use Rattle.sim.specs.Directives.{class_of, reporting_by, of_three, of_four};
ghost use Rattle.sim.specs.Directives.{directive_in, FitsStations, IsWithinRanges};

use crate::directive::{Class, Directive};
use ft12::LinkSize;
use link::UserData;
use std::alloc::{AllocError, Global};
use traces::{parts, read_decimal, read_octets};

const SPACE: u8 = b' ';

/// The most digits of a number.
// No sum of such numbers passes 64 bits (docs/DECISIONS.md, "Numbers of nine digits").
const MOST_DIGITS: usize = 9;

/// A number of 1 to 9 decimal digits.
fn number(digits: &[u8]) -> Option<u64>
    ensures { result ≡ number_of digits.now }
{
    if digits.len() <= MOST_DIGITS {
        read_decimal(digits)
    } else {
        None
    }
}

/// What a line says, if there are so many stations and link addresses have this size. `None` if it
/// says nothing.
pub fn read_line(
    alloc: Global,
    size: LinkSize,
    stations: usize,
    line: &[u8],
) -> Result<Option<Directive>, AllocError>
    ensures said { IfOk result (λ said. said ≡ directive_in size stations line.now) }
    ensures fits { IfOk result (λ said. IfSome said (FitsStations size stations)) }
    ensures ranges { IfOk result (λ said. IfSome said IsWithinRanges) }
{
    let fields = parts(alloc, line, SPACE)?;
    match fields.as_slice() {
        [word, number] => Ok(of_two(*word, *number)),
        [word, second, third] => of_three(alloc, *word, *second, *third),
        [word, second, third, fourth] => {
            of_four(alloc, size, stations, *word, *second, *third, *fourth)
        }
        _ => Ok(None),
    }
}

/// `wall WALL`, `turns N`, `ack N` and `cut N`.
fn of_two(word: &[u8], digits: &[u8]) -> Option<Directive>
    ensures said { result ≡ of_two word.now digits.now }
    ensures fits { (size : LinkSize) (stations : ℕ) → IfSome result (FitsStations size stations) }
    ensures ranges { IfSome result IsWithinRanges }
{
    if word == b"wall".as_slice() {
        walled(digits)
    } else {
        counted(word, digits)
    }
}

/// `wall WALL`: of all numbers the one that has up to 15 digits, as the moments of traces.
fn walled(digits: &[u8]) -> Option<Directive>
    ensures said { result ≡ walled_by (decimal_of digits.now) }
    ensures fits { (size : LinkSize) (stations : ℕ) → IfSome result (FitsStations size stations) }
    ensures ranges { IfSome result IsWithinRanges }
{
    let number = read_decimal(digits)?;
    Some(Directive::Wall(number))
}

/// `turns N`, `ack N` and `cut N`.
fn counted(word: &[u8], digits: &[u8]) -> Option<Directive>
    ensures said { result ≡ counted_by word.now (number_of digits.now) }
    ensures fits { (size : LinkSize) (stations : ℕ) → IfSome result (FitsStations size stations) }
    ensures ranges { IfSome result IsWithinRanges }
{
    let n = number(digits)?;
    match word {
        b"turns" => Some(Directive::Turns(n)),
        // With 0 an S frame would be due at each call, and the line would have no turn
        // (docs/DECISIONS.md, "The number 0").
        b"ack" if 1 <= n && n <= 32767 => Some(Directive::Ack(n)),
        b"cut" => Some(Directive::Cut(n)),
        _ => None,
    }
}

/// `lose request N`, `lose answer N` and `send N HEX`.
fn of_three(
    alloc: Global,
    word: &[u8],
    second: &[u8],
    third: &[u8],
) -> Result<Option<Directive>, AllocError>
    ensures said { IfOk result (λ said. said ≡ of_three word.now second.now third.now) }
    ensures fits { (size : LinkSize) (stations : ℕ)
        → IfOk result (λ said. IfSome said (FitsStations size stations)) }
    ensures ranges { IfOk result (λ said. IfSome said IsWithinRanges) }
{
    match word {
        b"lose" => Ok(losing(second, third)),
        b"send" => {
            let octets = read_octets(alloc, third)?;
            Ok(sending(number(second), octets))
        }
        _ => Ok(None),
    }
}

fn losing(what: &[u8], digits: &[u8]) -> Option<Directive>
    ensures said { result ≡ losing_by what.now (number_of digits.now) }
    ensures fits { (size : LinkSize) (stations : ℕ) → IfSome result (FitsStations size stations) }
    ensures ranges { IfSome result IsWithinRanges }
{
    let n = number(digits)?;
    match what {
        b"request" => Some(Directive::LoseRequest(n)),
        b"answer" => Some(Directive::LoseAnswer(n)),
        _ => None,
    }
}

fn sending(call: Option<u64>, octets: Option<Vec<u8>>) -> Option<Directive>
    ensures said { result ≡ sending_by call (option_map (λ v. v.items) octets) }
    ensures fits { (size : LinkSize) (stations : ℕ) → IfSome result (FitsStations size stations) }
    ensures ranges { IfSome result IsWithinRanges }
{
    let n = call?;
    let octets = octets?;
    if 9 <= octets.len() && octets.len() <= 249 {
        Some(Directive::Send(n, UserData::new(octets.as_slice())))
    } else {
        None
    }
}

/// `spoil answer N P` and `report S CLASS HEX`.
fn of_four(
    alloc: Global,
    size: LinkSize,
    stations: usize,
    word: &[u8],
    second: &[u8],
    third: &[u8],
    fourth: &[u8],
) -> Result<Option<Directive>, AllocError>
    ensures said { IfOk result (λ said. said
        ≡ of_four size stations word.now second.now third.now fourth.now) }
    ensures fits { IfOk result (λ said. IfSome said (FitsStations size stations)) }
    ensures ranges { IfOk result (λ said. IfSome said IsWithinRanges) }
{
    if word == b"spoil".as_slice() {
        return Ok(spoiling(second, number(third), number(fourth)));
    }
    if word == b"report".as_slice() {
        let octets = read_octets(alloc, fourth)?;
        return Ok(reporting(size, stations, number(second), number(third), octets));
    }
    Ok(None)
}

fn spoiling(what: &[u8], request: Option<u64>, place: Option<u64>) -> Option<Directive>
    ensures said { result ≡ spoiling_by what.now request place }
    ensures fits { (size : LinkSize) (stations : ℕ) → IfSome result (FitsStations size stations) }
    ensures ranges { IfSome result IsWithinRanges }
{
    let n = request?;
    let place = place?;
    match what {
        b"answer" => Some(Directive::SpoilAnswer(n, place)),
        _ => None,
    }
}

/// The most octets of a report: what a frame has room for.
fn longest_report(size: LinkSize) -> usize
    ensures { result ≡ longest_report size }
{
    match size {
        LinkSize::One => 253,
        LinkSize::Two => 252,
    }
}

fn class(number: u64) -> Option<Class>
    ensures { result ≡ class_of number }
{
    match number {
        1 => Some(Class::One),
        2 => Some(Class::Two),
        _ => None,
    }
}

#[tactic(auto, unfolding(crate::specs::Directives::reporting_by))]
fn reporting(
    size: LinkSize,
    stations: usize,
    station: Option<u64>,
    class_number: Option<u64>,
    octets: Option<Vec<u8>>,
) -> Option<Directive>
    requires { IfSome octets (λ v. 1 ≤ length v.items) }
    ensures said { result
        ≡ reporting_by size stations station class_number (option_map (λ v. v.items) octets) }
    ensures fits { IfSome result (FitsStations size stations) }
    ensures ranges { IfSome result IsWithinRanges }
{
    let station = station?;
    let class_number = class_number?;
    let octets = octets?;
    if octets.len() > longest_report(size) {
        return None;
    }
    let class = class(class_number)?;
    if 1 <= station && station <= stations as u64 {
        Some(Directive::Report(
            station as usize - 1,
            class,
            UserData::new(octets.as_slice()),
        ))
    } else {
        None
    }
}
