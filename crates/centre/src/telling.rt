//! What passes on the connection, a line an APDU, and what became of the errand behind that.
ghost use Rattle.std.specs.Prelude.{◌≡◌, ◌++◌, IfOk, OnOk, string_bytes};
ghost use Rattle.std.specs.Fmt.{decimal};
ghost use Rattle.apci.specs.Borrowed.{owned};
ghost use Rattle.centre.specs.Telling.{end_json, end_line, end_words, json_line, numbers_json};
ghost use Rattle.centre.specs.Telling.{silent_line, told, way_json, way_words, word_line, words_json};

use crate::errand::{Answer, Outcome, answer_in};
use apci::ApduRef;
use std::alloc::{AllocError, Global};
use words::push_apdu;

/// Who sends an APDU.
#[derive(Clone, Copy, Debug, PartialEq, Eq)]
pub enum Way {
    FromCentre,
    FromGateway,
}

/// How what passes is told.
#[derive(Clone, Copy, Debug, PartialEq, Eq)]
pub enum Style {
    /// In words.
    Words,
    /// As a JSON object a line.
    Json,
}

/// Appends the line of an APDU that passed at this moment, in ms.
pub fn push_line(
    alloc: Global,
    text: &mut String,
    style: Style,
    way: Way,
    now: u64,
    apdu: ApduRef<'_>,
) -> Result<(), AllocError>
    ensures { OnOk result (string_bytes text.new
        ≡ string_bytes text.old ++ told style way now (owned apdu.entry)) }
{
    match style {
        Style::Words => push_words(alloc, text, way, now, apdu),
        Style::Json => push_json(alloc, text, way, now, apdu),
    }
}

/// Appends it in words.
#[tactic(auto, unfolding(crate::specs::Telling::word_line))]
fn push_words(
    alloc: Global,
    text: &mut String,
    way: Way,
    now: u64,
    apdu: ApduRef<'_>,
) -> Result<(), AllocError>
    ensures { OnOk result (string_bytes text.new
        ≡ string_bytes text.old ++ word_line way now (owned apdu.entry)) }
{
    write!(text, "{now} ")?;
    text.push_str(way_words(way))?;
    text.push_str("  ")?;
    let _condition = push_apdu(alloc, text, apdu)?;
    text.push_str("\n")
}

fn way_words(way: Way) -> &'static str
    ensures { result.now ≡ way_words way }
{
    match way {
        Way::FromCentre => "control centre > gateway",
        Way::FromGateway => "gateway > control centre",
    }
}

/// Appends it as a JSON object.
#[tactic(auto, unfolding(crate::specs::Telling::json_line))]
fn push_json(
    alloc: Global,
    text: &mut String,
    way: Way,
    now: u64,
    apdu: ApduRef<'_>,
) -> Result<(), AllocError>
    ensures { OnOk result (string_bytes text.new
        ≡ string_bytes text.old ++ json_line way now (owned apdu.entry)) }
{
    push_way(text, way, now)?;
    push_numbers(text, apdu)?;
    push_worded(alloc, text, apdu)
}

/// Appends the moment, and who sends it.
#[tactic(auto, unfolding(crate::specs::Telling::way_json))]
fn push_way(text: &mut String, way: Way, now: u64) -> Result<(), AllocError>
    ensures { OnOk result (string_bytes text.new ≡ string_bytes text.old ++ way_json way now) }
{
    text.push_str("{\"ms\":")?;
    write!(text, "{now}")?;
    text.push_str(",\"way\":\"")?;
    text.push_str(way_words(way))?;
    text.push_str("\"")
}

/// Appends the words, which have neither a quote nor a backslash.
#[tactic(auto, unfolding(crate::specs::Telling::words_json))]
fn push_worded(alloc: Global, text: &mut String, apdu: ApduRef<'_>) -> Result<(), AllocError>
    ensures { OnOk result (string_bytes text.new
        ≡ string_bytes text.old ++ words_json (owned apdu.entry)) }
{
    text.push_str(",\"words\":\"")?;
    let _condition = push_apdu(alloc, text, apdu)?;
    text.push_str("\"}\n")
}

/// Appends the numbers of an I frame: type, cause octet, common address and object address.
#[tactic(auto, unfolding(crate::specs::Telling::numbers_json))]
fn push_numbers(text: &mut String, apdu: ApduRef<'_>) -> Result<(), AllocError>
    ensures { OnOk result (string_bytes text.new
        ≡ string_bytes text.old ++ numbers_json (owned apdu.entry)) }
{
    let ApduRef::I { asdu, .. } = apdu else {
        return Ok(());
    };
    let Some(
        Answer {
            kind,
            cause,
            ca,
            ioa,
        },
    ) = answer_in(asdu)
    else {
        return Ok(());
    };
    push_number(text, ",\"type\":", u32::from(kind))?;
    push_number(text, ",\"cause\":", u32::from(cause))?;
    push_number(text, ",\"ca\":", u32::from(ca))?;
    push_number(text, ",\"ioa\":", ioa)
}

/// Appends a number behind its name.
fn push_number(text: &mut String, name: &str, number: u32) -> Result<(), AllocError>
    ensures { OnOk result (string_bytes text.new
        ≡ string_bytes text.old ++ (name.now ++ decimal number)) }
{
    text.push_str(name)?;
    write!(text, "{number}")
}

/// The line before the last one for a station of which nothing came, by its common address.
pub fn silent_line(alloc: Global, style: Style, ca: u16) -> Result<String, AllocError>
    ensures { IfOk result (λ text. string_bytes text ≡ silent_line style ca) }
{
    match style {
        Style::Words => format!(in alloc; "no reply from common address {ca}\n"),
        Style::Json => format!(in alloc; "{{\"silent\":{ca}}}\n"),
    }
}

/// The last line: what became of the errand.
pub fn end_line(alloc: Global, style: Style, outcome: Outcome) -> Result<String, AllocError>
    ensures { IfOk result (λ text. string_bytes text ≡ end_line style outcome) }
{
    let mut text = String::new(alloc);
    match style {
        Style::Words => push_end(&mut text, outcome)?,
        Style::Json => push_end_json(&mut text, outcome)?,
    }
    Ok(text)
}

/// Appends it in words.
#[tactic(auto, unfolding(crate::specs::Telling::end_words))]
fn push_end(text: &mut String, outcome: Outcome) -> Result<(), AllocError>
    ensures { OnOk result (string_bytes text.new
        ≡ string_bytes text.old ++ end_words outcome) }
{
    text.push_str(outcome.words())?;
    text.push_str("\n")
}

/// Appends it as a JSON object.
#[tactic(auto, unfolding(crate::specs::Telling::end_json))]
fn push_end_json(text: &mut String, outcome: Outcome) -> Result<(), AllocError>
    ensures { OnOk result (string_bytes text.new ≡ string_bytes text.old ++ end_json outcome) }
{
    push_number(text, "{\"status\":", u32::from(outcome.status()))?;
    text.push_str(",\"end\":\"")?;
    text.push_str(outcome.words())?;
    text.push_str("\"}\n")
}
