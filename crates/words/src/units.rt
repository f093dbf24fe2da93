//! ASDUs in words.
ghost use Rattle.std.specs.Prelude.{◌≡◌, ◌++◌, [], true, IfOk, OnOk, string_bytes};
ghost use Rattle.std.specs.Option.{option_copied};
ghost use Rattle.asdu.specs.Asdu.{IsAsdu};
ghost use Rattle.asdu.specs.Fields.{IsHeadOf};
ghost use Rattle.asdu.specs.Reading.{value_of};
ghost use Rattle.words.specs.UnitFacts.{unit_condition};
ghost use Rattle.words.specs.Units.{asdu_words, ca_text, cause_text, cause_words, content_words};
ghost use Rattle.words.specs.Units.{data_words, header_words, kind_words, named, objects_words};
ghost use Rattle.words.specs.Units.{originator_text, parting as parting_of, place_words};
ghost use Rattle.words.specs.Units.{reason as reason_of, reason_words, type_text};

use crate::facts::Condition;
use crate::numbers::push_mark;
use crate::objects::push_object;
use asdu::{Asdu, Head, Refused, Sizes};
use elements::{cause_name, type_name};
use std::alloc::{AllocError, Global};

/// Appends the data of a frame, if it has any, and says whether they are as they should be.
#[tactic(auto, unfolding(crate::specs::Units::data_words))]
pub fn push_data(
    alloc: Global,
    line: &mut String,
    sizes: Sizes,
    octets: &[u8],
) -> Result<Condition, AllocError>
    ensures words { OnOk result (string_bytes line.new
        ≡ string_bytes line.old ++ data_words sizes octets.now) }
    ensures condition { IfOk result (λ condition. condition ≡ unit_condition sizes octets.now) }
{
    if octets.is_empty() {
        return Ok(Condition::Good);
    }
    line.push_str("  ")?;
    push_asdu(alloc, line, sizes, octets)
}

/// Appends octets that are to be an ASDU.
#[tactic(auto, unfolding(crate::specs::Units::asdu_words))]
fn push_asdu(
    alloc: Global,
    line: &mut String,
    sizes: Sizes,
    octets: &[u8],
) -> Result<Condition, AllocError>
    requires { octets.now ≡ [] → ⊥ }
    ensures words { OnOk result (string_bytes line.new
        ≡ string_bytes line.old ++ asdu_words sizes octets.now) }
    ensures condition { IfOk result (λ condition. condition ≡ unit_condition sizes octets.now) }
{
    let Some(head) = asdu::head(sizes, octets) else {
        line.push_str("no ASDU: too short")?;
        return Ok(Condition::Faulty);
    };
    push_header(line, sizes, octets, &head)?;
    push_content(alloc, line, sizes, octets)
}

/// Appends the header of octets.
#[tactic(auto, unfolding(crate::specs::Units::header_words))]
fn push_header(
    line: &mut String,
    sizes: Sizes,
    octets: &[u8],
    head: &Head,
) -> Result<(), AllocError>
    requires { IsHeadOf sizes octets.now head.now }
    ensures { OnOk result (string_bytes line.new
        ≡ string_bytes line.old ++ header_words sizes octets.now) }
{
    push_kind(line, head.kind, head.cause)?;
    push_place(line, head.originator, head.vsq, head.ca)
}

/// Appends type and cause.
#[tactic(auto, unfolding(crate::specs::Units::kind_words))]
fn push_kind(line: &mut String, kind: u8, cause: u8) -> Result<(), AllocError>
    ensures { OnOk result (string_bytes line.new
        ≡ string_bytes line.old ++ kind_words kind cause) }
{
    push_type(line, kind)?;
    line.push_str(" ")?;
    push_cause(line, cause)
}

/// Appends originator, SQ and common address.
#[tactic(auto, unfolding(crate::specs::Units::place_words))]
fn push_place(line: &mut String, originator: u8, vsq: u8, ca: u16) -> Result<(), AllocError>
    ensures { OnOk result (string_bytes line.new
        ≡ string_bytes line.old ++ place_words originator vsq ca) }
{
    push_originator(line, originator)?;
    push_mark(line, vsq, 7, ", sequence")?;
    push_ca(line, ca)
}

/// Appends a name, or else what it is of and its number.
#[tactic(auto, unfolding(crate::specs::Units::named))]
fn push_named(
    line: &mut String,
    kind: &str,
    number: u8,
    name: Option<&'static str>,
) -> Result<(), AllocError>
    ensures { OnOk result (string_bytes line.new
        ≡ string_bytes line.old ++ named kind.now number (option_copied name.entry)) }
{
    match name {
        Some(text) => line.push_str(text),
        None => {
            line.push_str(kind)?;
            line.push_str(" ")?;
            write!(line, "{number}")
        }
    }
}

#[tactic(auto, unfolding(crate::specs::Units::type_text))]
fn push_type(line: &mut String, kind: u8) -> Result<(), AllocError>
    ensures { OnOk result (string_bytes line.new ≡ string_bytes line.old ++ type_text kind) }
{
    push_named(line, "type", kind, type_name(kind))
}

/// Appends the cause octet: the cause, negative (P/N) and test.
#[tactic(auto, unfolding(crate::specs::Units::cause_words))]
fn push_cause(line: &mut String, octet: u8) -> Result<(), AllocError>
    ensures { OnOk result (string_bytes line.new ≡ string_bytes line.old ++ cause_words octet) }
{
    push_cause_name(line, octet & 0x3F)?;
    push_mark(line, octet, 6, ", negative")?;
    push_mark(line, octet, 7, ", test")
}

#[tactic(auto, unfolding(crate::specs::Units::cause_text))]
fn push_cause_name(line: &mut String, cause: u8) -> Result<(), AllocError>
    ensures { OnOk result (string_bytes line.new ≡ string_bytes line.old ++ cause_text cause) }
{
    push_named(line, "cause", cause, cause_name(cause))
}

#[tactic(auto, unfolding(crate::specs::Units::originator_text))]
fn push_originator(line: &mut String, originator: u8) -> Result<(), AllocError>
    ensures { OnOk result (string_bytes line.new
        ≡ string_bytes line.old ++ originator_text originator) }
{
    if originator == 0 {
        return Ok(());
    }
    write!(line, ", originator {originator}")
}

#[tactic(auto, unfolding(crate::specs::Units::ca_text))]
fn push_ca(line: &mut String, ca: u16) -> Result<(), AllocError>
    ensures { OnOk result (string_bytes line.new ≡ string_bytes line.old ++ ca_text ca) }
{
    write!(line, "  CA {ca}")
}

/// Appends the objects, or why the octets behind the header are none.
#[tactic(auto, unfolding(crate::specs::Units::content_words, crate::specs::Units::content_by, crate::specs::Units::typed_words))]
fn push_content(
    alloc: Global,
    line: &mut String,
    sizes: Sizes,
    octets: &[u8],
) -> Result<Condition, AllocError>
    requires { octets.now ≡ [] → ⊥ }
    ensures words { OnOk result (string_bytes line.new
        ≡ string_bytes line.old ++ content_words sizes octets.now) }
    ensures condition { IfOk result (λ condition. condition ≡ unit_condition sizes octets.now) }
{
    match asdu::read(sizes, octets) {
        Ok(asdu) => {
            push_objects(alloc, line, &asdu)?;
            Ok(Condition::Good)
        }
        Err(Refused(why)) => {
            push_reason(line, why)?;
            Ok(Condition::Faulty)
        }
    }
}

#[tactic(auto, unfolding(crate::specs::Units::reason_words))]
fn push_reason(line: &mut String, why: u8) -> Result<(), AllocError>
    ensures { OnOk result (string_bytes line.new ≡ string_bytes line.old ++ reason_words why) }
{
    let reason = reason(why);
    write!(line, "  not read: {reason}")
}

/// Why octets behind a header are no objects.
#[tactic(auto, unfolding(crate::specs::Units::reason))]
fn reason(why: u8) -> &'static str
    ensures { result.now ≡ reason_of why }
{
    match why {
        2 => "a type that isn't carried",
        3 => "no object",
        4 => "a length that doesn't fit",
        _ => "addresses past the last",
    }
}

/// Appends the objects, one after another.
fn push_objects(alloc: Global, line: &mut String, asdu: &Asdu<'_>) -> Result<(), AllocError>
    requires { IsAsdu asdu.now.sizes (value_of asdu.now) asdu.now.octets.now }
    ensures { OnOk result (string_bytes line.new
        ≡ string_bytes line.old
        ++ objects_words asdu.now.kind true (value_of asdu.now).infos) }
{
    let mut is_first = true;
    for object in asdu.objects() {
        line.push_str(parting(is_first))?;
        push_object(alloc, line, asdu.kind, &object)?;
        is_first = false;
    }
    Ok(())
}

/// What parts an object from what stands before it.
#[tactic(auto, unfolding(crate::specs::Units::parting))]
fn parting(is_first: bool) -> &'static str
    ensures { result.now ≡ parting_of is_first }
{
    if is_first { "  " } else { "; " }
}
