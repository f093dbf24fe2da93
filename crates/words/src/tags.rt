//! Time tags in words.
ghost use Rattle.std.specs.Prelude.{◌≡◌, ◌++◌, OnOk, length, string_bytes};
ghost use Rattle.std.specs.Option.{ForSome, option_copied};
ghost use Rattle.words.specs.Tags.{date_text, minute_text, moment_text, month_text, remarks};
ghost use Rattle.words.specs.Tags.{second_text, tag_text, tag_words, time_text, verdict_text};
ghost use Rattle.words.specs.Tags.{verdict_words};

use crate::numbers::{push_mark, push_three_digits, push_two_digits};
use elements::{Cp56, Verdict, judge};
use std::alloc::AllocError;

/// Appends the time tag behind an element, if there is one.
pub(crate) fn push_tag(line: &mut String, tag: Option<&[u8]>) -> Result<(), AllocError>
    requires { ForSome tag (λ octets. length octets.now ≡ 7) }
    ensures { OnOk result (string_bytes line.new
        ≡ string_bytes line.old ++ tag_text (option_copied tag.entry)) }
{
    match tag {
        None => Ok(()),
        Some(octets) => push_words(line, octets),
    }
}

/// Appends the seven octets of a time tag in words.
#[tactic(auto, unfolding(crate::specs::Tags::tag_words))]
fn push_words(line: &mut String, octets: &[u8]) -> Result<(), AllocError>
    requires { length octets.now ≡ 7 }
    ensures { OnOk result (string_bytes line.new ≡ string_bytes line.old ++ tag_words octets.now) }
{
    write!(line, ", ")?;
    push_moment(line, octets)?;
    push_remarks(line, octets)
}

#[tactic(auto, unfolding(crate::specs::Tags::moment_text))]
fn push_moment(line: &mut String, octets: &[u8]) -> Result<(), AllocError>
    requires { length octets.now ≡ 7 }
    ensures { OnOk result (string_bytes line.new
        ≡ string_bytes line.old ++ moment_text octets.now) }
{
    push_date(line, octets)?;
    write!(line, " ")?;
    push_time(line, octets)
}

#[tactic(auto, unfolding(crate::specs::Tags::date_text))]
fn push_date(line: &mut String, octets: &[u8]) -> Result<(), AllocError>
    requires { length octets.now ≡ 7 }
    ensures { OnOk result (string_bytes line.new ≡ string_bytes line.old ++ date_text octets.now) }
{
    push_month(line, octets)?;
    write!(line, "-")?;
    push_two_digits(line, u64::from(octets[4] & 0x1F))
}

#[tactic(auto, unfolding(crate::specs::Tags::month_text))]
fn push_month(line: &mut String, octets: &[u8]) -> Result<(), AllocError>
    requires { length octets.now ≡ 7 }
    ensures { OnOk result (string_bytes line.new ≡ string_bytes line.old ++ month_text octets.now) }
{
    let year = 2000 + u16::from(octets[6] & 0x7F);
    write!(line, "{year}-")?;
    push_two_digits(line, u64::from(octets[5] & 0x0F))
}

#[tactic(auto, unfolding(crate::specs::Tags::time_text))]
fn push_time(line: &mut String, octets: &[u8]) -> Result<(), AllocError>
    requires { length octets.now ≡ 7 }
    ensures { OnOk result (string_bytes line.new ≡ string_bytes line.old ++ time_text octets.now) }
{
    let milliseconds = u64::from(octets[0]) + 256 * u64::from(octets[1]);
    push_minute(line, octets)?;
    push_second(line, milliseconds)
}

#[tactic(auto, unfolding(crate::specs::Tags::minute_text))]
fn push_minute(line: &mut String, octets: &[u8]) -> Result<(), AllocError>
    requires { length octets.now ≡ 7 }
    ensures { OnOk result (string_bytes line.new
        ≡ string_bytes line.old ++ minute_text octets.now) }
{
    push_two_digits(line, u64::from(octets[3] & 0x1F))?;
    write!(line, ":")?;
    push_two_digits(line, u64::from(octets[2] & 0x3F))
}

/// Appends the second of a minute, with its thousandths.
#[tactic(auto, unfolding(crate::specs::Tags::second_text))]
fn push_second(line: &mut String, milliseconds: u64) -> Result<(), AllocError>
    ensures { OnOk result (string_bytes line.new
        ≡ string_bytes line.old ++ second_text milliseconds) }
{
    write!(line, ":")?;
    push_two_digits(line, milliseconds / 1000)?;
    write!(line, ".")?;
    push_three_digits(line, milliseconds)
}

/// Appends what a tag says of itself, and what is wrong with it.
#[tactic(auto, unfolding(crate::specs::Tags::remarks))]
fn push_remarks(line: &mut String, octets: &[u8]) -> Result<(), AllocError>
    requires { length octets.now ≡ 7 }
    ensures { OnOk result (string_bytes line.new ≡ string_bytes line.old ++ remarks octets.now) }
{
    push_mark(line, octets[2], 7, " invalid")?;
    push_mark(line, octets[3], 7, " summer time")?;
    push_verdict(line, octets)
}

/// Appends what isn't seen in the fields of a tag.
#[tactic(auto, unfolding(crate::specs::Tags::verdict_words))]
fn push_verdict(line: &mut String, octets: &[u8]) -> Result<(), AllocError>
    requires { length octets.now ≡ 7 }
    ensures { OnOk result (string_bytes line.new
        ≡ string_bytes line.old ++ verdict_words octets.now) }
{
    line.push_str(verdict_text(judge(&tag_of(octets))))
}

fn tag_of(octets: &[u8]) -> Cp56
    requires { length octets.now ≡ 7 }
    ensures { result.0 ≡ octets.now }
{
    Cp56(<[u8; 7]>::try_from(octets).unwrap())
}

/// What a verdict adds to the fields of a tag.
fn verdict_text(verdict: Verdict) -> &'static str
    ensures { result.now ≡ verdict_text verdict }
{
    match verdict {
        Verdict::Good(_) | Verdict::MarkedInvalid => "",
        Verdict::OutOfRange => " out of range",
        Verdict::NoSuchDay => " no such day",
        Verdict::WrongWeekday => " wrong weekday",
    }
}
