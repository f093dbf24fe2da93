//! What came in the place of an answer.
ghost use Rattle.std.specs.Prelude.{◌≡◌, ◌≤◌, length, take};
ghost use Rattle.std.specs.Fmt.{WritesOnOk};
ghost use Rattle.runlog.specs.Spoilings as spec;

use std::fmt;

/// What came in the place of an answer.
#[derive(Clone, Copy, PartialEq, Eq)]
pub enum Spoiling {
    /// The request itself, whatever came behind it.
    Echo,
    /// An answer of the station with this link address to the request before, so many ms behind
    /// that.
    Late(u16, u64),
    /// Another frame, with this link address.
    Frame(u16),
    /// Anything else.
    Octets(FirstOctets),
}

/// The most octets of anything else that a line shows.
const MOST_SHOWN: usize = 16;

/// The fewest printable ones at their front that it shows as a text, too.
const FEWEST_LETTERS: usize = 4;

/// The first octets of what came.
#[derive(Clone, Copy, PartialEq, Eq)]
pub struct FirstOctets {
    /// They stand at the front, before zeros.
    row: [u8; 16],
    count: usize,
}

impl FirstOctets {
    /// Those of these octets.
    pub(crate) fn of(octets: &[u8]) -> FirstOctets
        ensures { result ≡ spec.first_of octets.now }
    {
        let count = octets.len().min(MOST_SHOWN);
        let mut row = [0; 16];
        row[..count].copy_from_slice(&octets[..count]);
        FirstOctets { row, count }
    }

    fn octets(&self) -> &[u8]
        ensures { result.now ≡ spec.shown self.now }
    {
        &self.row[..self.count.min(MOST_SHOWN)]
    }
}

fn is_printable(octet: u8) -> bool
    ensures { result ≡ spec.is_printable octet }
{
    (0x20..=0x7E).contains(&octet)
}

/// How many printable octets stand at the front.
fn letter_count(octets: &[u8]) -> usize
    ensures letters { take result octets.now ≡ spec.letters octets.now }
    ensures within { result ≤ length octets.now }
{
    match octets.split_first() {
        Some((octet, rest)) if is_printable(*octet) => 1 + letter_count(rest),
        _ => 0,
    }
}

/// The printable octets at the front.
#[tactic(auto, using(crate::proofs::Letters::letters_utf8))]
fn letters(octets: &[u8]) -> &str
    ensures { result.now ≡ spec.letters octets.now }
{
    match str::from_utf8(&octets[..letter_count(octets)]) {
        Ok(letters) => letters,
        // Never: they are ASCII.
        Err(_) => "",
    }
}

fn write_octet<W: fmt::Write>(octet: u8, f: &mut fmt::Formatter<W>) -> fmt::Result
    ensures { WritesOnOk W.write_str_gives f.old result (spec.octet_text octet) f.new }
{
    write!(f, "{octet:02X}")
}

fn write_hex<W: fmt::Write>(octets: &[u8], f: &mut fmt::Formatter<W>) -> fmt::Result
    ensures { WritesOnOk W.write_str_gives f.old result (spec.hex_text octets.now) f.new }
{
    match octets.split_first() {
        None => Ok(()),
        Some((octet, rest)) => {
            write_octet(*octet, f)?;
            write_hex(rest, f)
        }
    }
}

fn write_octets<W: fmt::Write>(octets: &[u8], f: &mut fmt::Formatter<W>) -> fmt::Result
    ensures { WritesOnOk W.write_str_gives f.old result (spec.octets_words octets.now) f.new }
{
    f.write_str("octets ")?;
    write_hex(octets, f)?;
    let letters = letters(octets);
    if letters.len() < FEWEST_LETTERS {
        return Ok(());
    }
    write!(f, " (\"{letters}\")")
}

fn write_late<W: fmt::Write>(station: u16, ms: u64, f: &mut fmt::Formatter<W>) -> fmt::Result
    ensures { WritesOnOk W.write_str_gives f.old result (spec.late_answer station ms) f.new }
{
    write!(f, "an answer of station {station}, ")?;
    write!(f, "{ms} ms behind its request: answer_ms is short")
}

/// Writes what is said of it behind whose answer it was.
pub(crate) fn write_spoiling<W: fmt::Write>(
    spoiling: &Spoiling,
    f: &mut fmt::Formatter<W>,
) -> fmt::Result
    ensures { WritesOnOk W.write_str_gives f.old result (spec.spoiling_words spoiling.now) f.new }
{
    match spoiling {
        Spoiling::Echo => f.write_str("its request came back"),
        Spoiling::Late(station, ms) => write_late(*station, *ms, f),
        Spoiling::Frame(station) => write!(f, "a frame with link address {station}"),
        Spoiling::Octets(first) => write_octets(first.octets(), f),
    }
}
