//! The words that a text is put together of.
ghost use Rattle.std.specs.Prelude.{◌≡◌, ◌<◌, ◌++◌};
ghost use Rattle.std.specs.Fmt.{decimal};
ghost use Rattle.status.specs.Labels.{seconds_of, value_of};
ghost use Rattle.status.specs.TextPage.{put};
ghost use Rattle.status.specs.Words.{digit_of, escaped, mark_of, right, text_of, thousandths};
ghost use Rattle.status.specs.Words.{two_digits, word_text};

use crate::judging::{Judgement, is_up};
use crate::labels::{judgement_text, keeping_text, severity_text, standing_text, wide_text};
use crate::page::TextPage;
use crate::snapshot::{Keeping, LinkState, StationView};
use itoa::Buffer;
use runlog::Severity;

/// What the text stands in, so which octets mean something else there.
#[derive(Clone, Copy, PartialEq, Eq)]
pub(crate) enum Marks {
    /// The quotation marks of a JSON string (RFC 8259, section 7).
    Json,
    /// The quotation marks of a label's value (Prometheus, text format 0.0.4).
    Label,
    /// An element, or the quotation marks of an attribute (HTML, 13.1.4).
    Html,
    /// Nothing: each octet means itself.
    Plain,
}

/// What of a station is counted.
#[derive(Clone, Copy, PartialEq, Eq)]
pub(crate) enum Count {
    /// 1 if it is up.
    Up,
    Reports,
    Skipped,
    Gaps,
    Commands,
    /// The moment of the last report in whole seconds, 0 before the first.
    LastReport,
    Requests,
    Repeats,
    Unanswered,
    Spoilt,
    Late,
}

/// A word of a text.
#[derive(Clone, Copy)]
pub(crate) enum Word<'a> {
    Text(&'a str),
    /// A text, with other words for the octets that mean something else.
    Escaped(Marks, &'a str),
    /// The same behind a plain text, or nothing where there is none.
    EscapedBehind(Marks, &'a str, Option<&'a str>),
    /// The same, or another text where there is none.
    EscapedOr(Marks, Option<&'a str>, &'a str),
    /// A number in decimal.
    Number(u64),
    /// So many thousandths in decimal.
    Thousandths(u64),
    /// Its last two digits.
    TwoDigits(u64),
    /// An address in decimal.
    Address(u16),
    /// A number in decimal, or a text if there is none.
    NumberOr(Option<u64>, &'a str),
    /// A number in decimal, with spaces before it up to a width.
    Right(usize, u64),
    /// One text or another.
    Either(bool, &'a str, &'a str),
    Stands(LinkState),
    /// How a station stands, with spaces behind it up to the longest text.
    Wide(LinkState),
    Counted(Count, &'a StationView<'a>),
    Keeps(Keeping),
    Severe(Severity),
    Judged(Judgement),
}

/// A hexadecimal digit.
fn digit_of(n: u8) -> u8
    requires { n < 16 }
    ensures { result ≡ digit_of n }
{
    if n < 10 { b'0' + n } else { b'a' - 10 + n }
}

/// Puts what stands for an octet in a JSON string.
fn put_json(page: &mut TextPage, octet: u8)
    ensures { page.new ≡ put (mark_of Marks.Json octet) page.old }
{
    match octet {
        b'"' => page.put(b"\\\""),
        b'\\' => page.put(b"\\\\"),
        // A control character may not stand in a string as it is (RFC 8259, 7).
        0..32 => {
            let digits = [digit_of(octet / 16), digit_of(octet % 16)];
            page.put(&[b'\\', b'u', b'0', b'0', digits[0], digits[1]]);
        }
        _ => page.put(&[octet]),
    }
}

/// Puts what stands for an octet in the value of a label.
fn put_label(page: &mut TextPage, octet: u8)
    ensures { page.new ≡ put (mark_of Marks.Label octet) page.old }
{
    match octet {
        b'"' => page.put(b"\\\""),
        b'\\' => page.put(b"\\\\"),
        b'\n' => page.put(b"\\n"),
        _ => page.put(&[octet]),
    }
}

/// Puts what stands for an octet in HTML.
fn put_html(page: &mut TextPage, octet: u8)
    ensures { page.new ≡ put (mark_of Marks.Html octet) page.old }
{
    match octet {
        b'&' => page.put(b"&amp;"),
        b'<' => page.put(b"&lt;"),
        b'>' => page.put(b"&gt;"),
        b'"' => page.put(b"&quot;"),
        _ => page.put(&[octet]),
    }
}

/// Puts what stands for an octet.
fn put_mark(page: &mut TextPage, marks: Marks, octet: u8)
    ensures { page.new ≡ put (mark_of marks octet) page.old }
{
    match marks {
        Marks::Json => put_json(page, octet),
        Marks::Label => put_label(page, octet),
        Marks::Html => put_html(page, octet),
        Marks::Plain => page.put(&[octet]),
    }
}

/// Puts a text, with other words for the octets that mean something else.
fn put_escaped(page: &mut TextPage, marks: Marks, text: &str)
    ensures { page.new ≡ put (escaped marks text.now) page.old }
{
    // Octet by octet: all that mean something else are ASCII, so no character is broken.
    for octet in text.as_bytes() {
        put_mark(page, marks, *octet);
    }
}

/// Puts a text behind another one, with other words for the octets that mean something else.
fn put_behind(page: &mut TextPage, marks: Marks, before: &str, text: &str)
    ensures { page.new ≡ put (before.now ++ escaped marks text.now) page.old }
{
    page.put(before.as_bytes());
    put_escaped(page, marks, text);
}

/// Puts a number in decimal.
fn put_number(page: &mut TextPage, number: u64)
    ensures { page.new ≡ put (decimal number) page.old }
{
    page.put(Buffer::new().format(number).as_bytes());
}

/// Puts so many thousandths in decimal.
fn put_thousandths(page: &mut TextPage, number: u64)
    ensures { page.new ≡ put (thousandths number) page.old }
{
    put_number(page, number / 1000);
    page.put(b".");
    put_number(page, number / 100 % 10);
    put_number(page, number / 10 % 10);
    put_number(page, number % 10);
}

/// Puts the last two digits of a number.
fn put_two_digits(page: &mut TextPage, number: u64)
    ensures { page.new ≡ put (two_digits number) page.old }
{
    put_number(page, number / 10 % 10);
    put_number(page, number % 10);
}

/// Puts a number in decimal, with spaces before it up to a width.
fn put_right(page: &mut TextPage, width: usize, number: u64)
    ensures { page.new ≡ put (right width number) page.old }
{
    let mut buffer = Buffer::new();
    let digits = buffer.format(number).as_bytes();
    for _ in digits.len()..width {
        page.put(b" ");
    }
    page.put(digits);
}

/// 1 if a station is up.
fn up_of(station: &StationView<'_>) -> u64
    ensures { result ≡ value_of Count.Up station.now }
{
    if is_up(station) { 1 } else { 0 }
}

/// A moment in whole seconds, 0 where there is none.
fn seconds_of(moment_ms: Option<u64>) -> u64
    ensures { result ≡ seconds_of moment_ms }
{
    match moment_ms {
        Some(ms) => ms / 1000,
        None => 0,
    }
}

/// Puts what is counted of a station.
fn put_counted(page: &mut TextPage, count: Count, station: &StationView<'_>)
    ensures { page.new ≡ put (decimal (value_of count station.now)) page.old }
{
    match count {
        Count::Up => put_number(page, up_of(station)),
        Count::Reports => put_number(page, station.reports),
        Count::Skipped => put_number(page, station.skipped),
        Count::Gaps => put_number(page, station.gaps),
        Count::Commands => put_number(page, station.commands),
        Count::LastReport => put_number(page, seconds_of(station.last_report_ms)),
        Count::Requests => put_number(page, station.requests.sent),
        Count::Repeats => put_number(page, station.requests.repeats),
        Count::Unanswered => put_number(page, station.requests.unanswered),
        Count::Spoilt => put_number(page, station.spoilt),
        Count::Late => put_number(page, station.late),
    }
}

/// Puts a word.
fn put_word(page: &mut TextPage, word: &Word<'_>)
    ensures { page.new ≡ put (word_text word.now) page.old }
{
    match *word {
        Word::Text(text) => page.put(text.as_bytes()),
        Word::Escaped(marks, text) => put_escaped(page, marks, text),
        Word::EscapedBehind(marks, before, Some(text)) => put_behind(page, marks, before, text),
        Word::EscapedBehind(_, _, None) => page.put(&[]),
        Word::EscapedOr(marks, Some(text), _) => put_escaped(page, marks, text),
        Word::EscapedOr(_, None, text) => page.put(text.as_bytes()),
        Word::Number(number) => put_number(page, number),
        Word::Thousandths(number) => put_thousandths(page, number),
        Word::TwoDigits(number) => put_two_digits(page, number),
        Word::Address(address) => put_number(page, u64::from(address)),
        Word::NumberOr(None, text) => page.put(text.as_bytes()),
        Word::NumberOr(Some(number), _) => put_number(page, number),
        Word::Right(width, number) => put_right(page, width, number),
        Word::Either(true, text, _) | Word::Either(false, _, text) => page.put(text.as_bytes()),
        Word::Stands(standing) => page.put(standing_text(standing).as_bytes()),
        Word::Wide(standing) => page.put(wide_text(standing).as_bytes()),
        Word::Counted(count, station) => put_counted(page, count, station),
        Word::Keeps(keeping) => page.put(keeping_text(keeping).as_bytes()),
        Word::Severe(severity) => page.put(severity_text(severity).as_bytes()),
        Word::Judged(judgement) => page.put(judgement_text(judgement).as_bytes()),
    }
}

/// Puts words one behind another.
#[tactic(auto)]
pub(crate) fn put_words(page: &mut TextPage, words: &[Word<'_>])
    ensures { page.new ≡ put (text_of words.now) page.old }
{
    for word in words {
        put_word(page, word);
    }
}
