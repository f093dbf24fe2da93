//! What is wrong with a line, and where, in words for whoever wrote it.
//!
//! Which lines are wrong, `judge` says; these words are for people, and no clause ties them.
ghost use Rattle.std.specs.Prelude.{◌≡◌, ◌≤◌, IfNone, None, length};
ghost use Rattle.traces.specs.Trace.{first_wrong, lines_of};

use crate::judging::judge;
use crate::lines::cut;

const SPACE: u8 = b' ';

/// The most digits of octets in hexadecimal.
const MOST_DIGITS: usize = 2048;

/// Where in a line something is wrong, and what.
#[derive(Clone, Copy, Debug, PartialEq, Eq)]
pub struct Flaw {
    /// The octet of the line at which it stands, counted from 1.
    pub column: usize,
    /// What is wrong, in words.
    pub why: &'static str,
}

impl Flaw {
    /// The same behind so many further octets of the line.
    pub fn behind(self, octets: usize) -> Flaw {
        Flaw {
            column: self.column.saturating_add(octets),
            why: self.why,
        }
    }
}

/// Something is wrong behind so many octets of a line.
pub fn flaw_at(octets: usize, why: &'static str) -> Flaw {
    Flaw {
        column: octets.saturating_add(1),
        why,
    }
}

/// What is wrong with a line of a trace, if anything is.
pub fn trace_flaw(line: &[u8]) -> Option<Flaw>
    ensures right { IfNone result (first_wrong 1 (lines_of line.now) ≡ None) }
{
    match judge(line, 1) {
        Ok(_) => None,
        Err(_) => Some(line_flaw(line, false)),
    }
}

/// What may be wrong with a line of a record that is neither an event nor an action.
pub fn record_flaw(line: &[u8]) -> Flaw {
    line_flaw(line, true)
}

/// What is wrong with a line that is no event. In a record it may be meant to be an action.
fn line_flaw(line: &[u8], as_record: bool) -> Flaw {
    if let Some(flaw) = ending_flaw(line) {
        return flaw;
    }
    let (moment, rest) = cut(line, SPACE);
    if let Some(flaw) = number_flaw(moment, 15, "a moment has 1 to 15 digits") {
        return flaw;
    }
    match rest {
        Some(rest) => behind_moment(rest, as_record).behind(moment.len().saturating_add(1)),
        None => flaw_at(line.len(), "no letter stands behind the moment and a space"),
    }
}

/// The carriage return with which an editor of another system ends a line, or a tabulator.
pub fn ending_flaw(line: &[u8]) -> Option<Flaw> {
    match line
        .iter()
        .position(|octet| *octet == b'\r' || *octet == b'\t')
    {
        Some(at) if line[at] == b'\r' => Some(flaw_at(
            at,
            "a carriage return: a line feed alone ends a line",
        )),
        Some(at) => Some(flaw_at(at, "a tabulator: one space stands between fields")),
        None => None,
    }
}

/// What is wrong behind the moment of a line and a space.
fn behind_moment(text: &[u8], as_record: bool) -> Flaw {
    let (letter, rest) = cut(text, SPACE);
    match letter {
        b"S" | b"R" => match rest {
            Some(digits) => octets_or_end(digits).behind(2),
            None => flaw_at(1, "no octets stand behind the letter and a space"),
        },
        b"W" => match rest {
            Some(digits) => wall_flaw(digits).behind(2),
            None => flaw_at(1, "no time stands behind the letter and a space"),
        },
        b"T" | b"O" | b"C" => flaw_at(1, "nothing may stand behind this letter"),
        b">" if as_record => flaw_at(0, "no action: these are > S, > T, > X and > G"),
        b">" => flaw_at(0, "an action: a trace has events alone"),
        b"" => flaw_at(0, "a second space: one stands between two fields"),
        _ => flaw_at(0, "no such letter: S, R, T, O, C and W are known"),
    }
}

/// What is wrong with the time of a wall clock.
fn wall_flaw(digits: &[u8]) -> Flaw {
    let why = "a time has 1 to 15 digits";
    match number_flaw(digits, 15, why) {
        Some(flaw) => flaw,
        None => flaw_at(digits.len(), why),
    }
}

/// What is wrong with a number of 1 to so many decimal digits, and if anything is, these words.
pub fn number_flaw(digits: &[u8], most: usize, why: &'static str) -> Option<Flaw>
    ensures none { IfNone result (length digits.now ≤ most) }
{
    match digits.iter().position(|digit| !digit.is_ascii_digit()) {
        Some(at) => Some(flaw_at(at, why)),
        None if digits.is_empty() || digits.len() > most => Some(flaw_at(0, why)),
        None => None,
    }
}

/// What is wrong with the octets of a line, or that nothing is.
fn octets_or_end(digits: &[u8]) -> Flaw {
    match octets_flaw(digits) {
        Some(flaw) => flaw,
        None => flaw_at(digits.len(), "the line is wrong here"),
    }
}

/// What is wrong with octets in hexadecimal that end their line.
pub fn octets_flaw(digits: &[u8]) -> Option<Flaw> {
    match digits.iter().position(|digit| !digit.is_ascii_hexdigit()) {
        Some(at) if digits[at] == SPACE => Some(flaw_at(at, "something stands behind the octets")),
        Some(at) => Some(flaw_at(at, "no hexadecimal digit")),
        None if digits.is_empty() => Some(flaw_at(0, "no octets")),
        None if digits.len() % 2 == 1 => {
            Some(flaw_at(digits.len(), "HEX has an odd number of digits"))
        }
        None if digits.len() > MOST_DIGITS => Some(flaw_at(MOST_DIGITS, "more than 1,024 octets")),
        None => None,
    }
}
