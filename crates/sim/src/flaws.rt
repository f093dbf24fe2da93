//! What is wrong with a line of a script, and where, in words for whoever wrote it.
//!
//! Which line is the first wrong one, `read_script` and `read_scenario` say. These words are for
//! people, and no clause ties them.

use ft12::LinkSize;
use gateway::Config;
use std::alloc::{AllocError, Global};
use traces::{
    Flaw, cut, ending_flaw, flaw_at, is_skipped, number_flaw, octets_flaw, parts, read_decimal,
};

const LINE_FEED: u8 = b'\n';

const SPACE: u8 = b' ';

const NO_TURNS: &str = "no line `turns N` stands before";

/// What a field of a line has.
#[derive(Clone, Copy)]
enum Field {
    Number,
    /// How many I frames the control centre acknowledges at once.
    Window,
    /// What a wall clock shows.
    Wall,
    Station,
    Class,
    /// An ASDU on the line.
    Report,
    /// An ASDU of the control centre.
    Sending,
    /// The word `request` or `answer`.
    Lost,
    /// The word `answer`.
    Answer,
    /// A time in ms.
    Time,
}

/// What the lines of a script may speak of.
#[derive(Clone, Copy)]
struct Ranges {
    stations: u64,
    size: LinkSize,
    /// Lines for the outstations alone may stand there.
    is_played: bool,
}

/// What the fields behind the first word of a line have; nothing if there is no such word.
fn fields_of(word: &[u8]) -> &'static [Field] {
    match word {
        b"turns" | b"cut" => &[Field::Number],
        b"ack" => &[Field::Window],
        b"wall" => &[Field::Wall],
        b"lose" => &[Field::Lost, Field::Number],
        b"send" => &[Field::Number, Field::Sending],
        b"spoil" => &[Field::Answer, Field::Number, Field::Number],
        b"report" => &[Field::Station, Field::Class, Field::Report],
        _ => &[],
    }
}

/// The same of a line for the outstations alone, or of what happens there at a time.
fn cue_fields_of(word: &[u8]) -> &'static [Field] {
    match word {
        b"report" => &[Field::Station, Field::Class, Field::Report],
        b"confirm" | b"refuse" | b"restart" => &[Field::Station],
        b"delay" => &[Field::Answer, Field::Number, Field::Time],
        _ => &[],
    }
}

/// What is wrong at the line with this number, from 1, which is the first wrong one of a script for
/// these settings. One that is played may have lines for the outstations alone.
pub fn script_flaw(
    alloc: Global,
    config: &Config,
    text: &[u8],
    number: u64,
    is_played: bool,
) -> Result<Flaw, AllocError> {
    let ranges = Ranges {
        stations: config.stations().len() as u64,
        size: config.line().link,
        is_played,
    };
    let lines = parts(alloc, text, LINE_FEED)?;
    for (i, line) in lines.iter().enumerate() {
        if i as u64 + 1 == number && !is_skipped(*line) {
            return Ok(first_flaw(ranges, *line));
        }
    }
    Ok(flaw_at(0, NO_TURNS))
}

/// What is wrong with the first wrong line.
fn first_flaw(ranges: Ranges, line: &[u8]) -> Flaw {
    if let Some(flaw) = ending_flaw(line) {
        return flaw;
    }
    let (word, rest) = cut(line, SPACE);
    let found = match word {
        b"at" | b"every" if ranges.is_played => timed_flaw(ranges, rest, word.len()),
        b"at" | b"every" | b"confirm" | b"refuse" | b"delay" if !ranges.is_played => {
            Some(flaw_at(0, "`telegate stations` alone knows this word"))
        }
        b"confirm" | b"refuse" | b"delay" => {
            fields_flaw(ranges, cue_fields_of(word), rest, word.len())
        }
        _ if fields_of(word).is_empty() => Some(flaw_at(0, "no such word")),
        _ => fields_flaw(ranges, fields_of(word), rest, word.len()),
    };
    match found {
        Some(flaw) => flaw,
        None => flaw_at(0, "a line before this one says the same"),
    }
}

/// What is wrong with what happens at a time, behind so many octets and a space.
fn timed_flaw(ranges: Ranges, rest: Option<&[u8]>, before: usize) -> Option<Flaw> {
    let Some(text) = rest else {
        return Some(flaw_at(before, "a time in ms is missing here"));
    };
    let start = before.saturating_add(1);
    let (time, rest) = cut(text, SPACE);
    if let Some(flaw) = field_flaw(ranges, Field::Time, time) {
        return Some(flaw.behind(start));
    }
    let before = start.saturating_add(time.len());
    let Some(text) = rest else {
        return Some(flaw_at(before, "`report` or `restart` is missing here"));
    };
    let start = before.saturating_add(1);
    let (word, rest) = cut(text, SPACE);
    match word {
        b"report" | b"restart" => fields_flaw(
            ranges,
            cue_fields_of(word),
            rest,
            start.saturating_add(word.len()),
        ),
        _ => Some(flaw_at(start, "`report` or `restart` is wanted")),
    }
}

/// What is wrong with fields that stand behind so many octets and a space.
fn fields_flaw(
    ranges: Ranges,
    fields: &[Field],
    rest: Option<&[u8]>,
    before: usize,
) -> Option<Flaw> {
    let mut before = before;
    let mut left = rest;
    for field in fields {
        let Some(text) = left else {
            return Some(flaw_at(before, "a field is missing here"));
        };
        let start = before.saturating_add(1);
        let (value, behind) = cut(text, SPACE);
        if let Some(flaw) = field_flaw(ranges, *field, value) {
            return Some(flaw.behind(start));
        }
        before = start.saturating_add(value.len());
        left = behind;
    }
    match left {
        Some(_) => Some(flaw_at(before, "something stands behind the last field")),
        None => None,
    }
}

/// What is wrong with the value of a field.
fn field_flaw(ranges: Ranges, field: Field, value: &[u8]) -> Option<Flaw> {
    match field {
        Field::Number => number_flaw(value, 9, "a number has 1 to 9 digits"),
        Field::Window => bounded_flaw(value, 1, 32767, "1 to 32767 is wanted"),
        Field::Wall => number_flaw(value, 15, "a time has 1 to 15 digits"),
        Field::Station => {
            bounded_flaw(
                value,
                1,
                ranges.stations,
                "no such station is in the settings",
            )
        }
        Field::Class => bounded_flaw(value, 1, 2, "a class is 1 or 2"),
        Field::Report => match ranges.size {
            LinkSize::One => asdu_flaw(value, 1, 253, "a report has 1 to 253 octets"),
            LinkSize::Two => asdu_flaw(value, 1, 252, "a report has 1 to 252 octets"),
        },
        Field::Sending => asdu_flaw(value, 9, 249, "what is sent has 9 to 249 octets"),
        Field::Lost => match value {
            b"request" | b"answer" => None,
            _ => Some(flaw_at(0, "`request` or `answer` is wanted")),
        },
        Field::Answer => match value {
            b"answer" => None,
            _ => Some(flaw_at(0, "`answer` is wanted")),
        },
        Field::Time => bounded_flaw(value, 10, 86_400_000, "10 to 86400000 ms are wanted"),
    }
}

/// What is wrong with a number from `least` to `most`.
fn bounded_flaw(digits: &[u8], least: u64, most: u64, why: &'static str) -> Option<Flaw> {
    match read_decimal(digits) {
        Some(number) if digits.len() <= 9 && least <= number && number <= most => None,
        _ => Some(flaw_at(0, why)),
    }
}

/// What is wrong with an ASDU of `least` to `most` octets.
fn asdu_flaw(digits: &[u8], least: usize, most: usize, why: &'static str) -> Option<Flaw> {
    if let Some(flaw) = octets_flaw(digits) {
        return Some(flaw);
    }
    let octets = digits.len() / 2;
    if octets < least || octets > most {
        return Some(flaw_at(0, why));
    }
    None
}
