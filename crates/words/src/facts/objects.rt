//! Information objects in words.
ghost use Rattle.std.specs.Prelude.{◌≡◌, ◌++◌, IfOk, OnOk, length, string_bytes};
ghost use Rattle.std.specs.Option.{ForSome, option_copied};
ghost use Rattle.elements.specs.Types.{row};
ghost use Rattle.asdu.specs.Objects.{info_of};
ghost use Rattle.words.specs.UnitFacts.{object_line, value_text, content_text, judged_text, tag_text};
ghost use Rattle.words.specs.UnitFacts.{verdict_text};

use asdu::Object;
use elements::{Cp56, TypeId, Verdict, judge};
use std::alloc::{AllocError, Global};

fn verdict_text(alloc: Global, verdict: Verdict) -> Result<String, AllocError>
    ensures { IfOk result (λ text. string_bytes text ≡ verdict_text verdict) }
{
    match verdict {
        Verdict::Good(ms) => format!(in alloc; "good {ms}"),
        Verdict::MarkedInvalid => String::from_str(alloc, "marked invalid"),
        Verdict::OutOfRange => String::from_str(alloc, "out of range"),
        Verdict::NoSuchDay => String::from_str(alloc, "no such day"),
        Verdict::WrongWeekday => String::from_str(alloc, "wrong weekday"),
    }
}

/// A time tag in hexadecimal and the verdict on it; nothing if there is none.
fn tag_text(alloc: Global, tag: Option<&[u8]>) -> Result<String, AllocError>
    requires { ForSome tag (λ octets. length octets.now ≡ 7) }
    ensures { IfOk result (λ text. string_bytes text ≡ tag_text (option_copied tag.entry)) }
{
    match tag {
        None => Ok(String::new(alloc)),
        Some(octets) => judged_text(alloc, octets),
    }
}

/// The seven octets of a time tag in hexadecimal, and the verdict on it.
fn judged_text(alloc: Global, octets: &[u8]) -> Result<String, AllocError>
    requires { length octets.now ≡ 7 }
    ensures { IfOk result (λ text. string_bytes text ≡ judged_text octets.now) }
{
    let digits = hex::encode_upper(alloc, octets)?;
    let verdict = verdict_text(alloc, judge(&tag_of(octets)))?;
    format!(in alloc; " tag={digits} {verdict}")
}

fn tag_of(octets: &[u8]) -> Cp56
    requires { length octets.now ≡ 7 }
    ensures { result.0 ≡ octets.now }
{
    Cp56(<[u8; 7]>::try_from(octets).unwrap())
}

/// Appends the line of one object of a type.
pub(crate) fn push_object(
    alloc: Global,
    lines: &mut String,
    kind: TypeId,
    object: &Object<'_>,
) -> Result<(), AllocError>
    requires { length object.now.element.now ≡ (row kind).size }
    ensures { OnOk result (string_bytes lines.new
        ≡ string_bytes lines.old ++ object_line kind (info_of object.now)) }
{
    push_value(lines, object.address, kind.value(object.element))?;
    push_content(alloc, lines, object)
}

/// Appends the address and the value of an object.
fn push_value(lines: &mut String, address: u32, value: i64) -> Result<(), AllocError>
    ensures { OnOk result (string_bytes lines.new
        ≡ string_bytes lines.old ++ value_text address value) }
{
    write!(lines, "object address={address} value={value}")
}

/// Appends the octets of an object's element, and its tag.
fn push_content(alloc: Global, lines: &mut String, object: &Object<'_>) -> Result<(), AllocError>
    ensures { OnOk result (string_bytes lines.new
        ≡ string_bytes lines.old ++ content_text (info_of object.now)) }
{
    let element = hex::encode_upper(alloc, object.element)?;
    let tag = tag_text(alloc, object.tag)?;
    writeln!(lines, " element={element}{tag}")
}
