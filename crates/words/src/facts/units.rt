//! ASDUs in words.
ghost use Rattle.std.specs.Prelude.{◌≡◌, ◌++◌, IfOk, OnOk, string_bytes};
ghost use Rattle.std.specs.List.{flat_map};
ghost use Rattle.elements.specs.Types.{row};
ghost use Rattle.asdu.specs.Asdu.{IsAsdu};
ghost use Rattle.asdu.specs.Reading.{value_of};
ghost use Rattle.words.specs.UnitFacts.{structure_text, cause_text, addresses_text, header_line};
ghost use Rattle.words.specs.UnitFacts.{object_line, unit_lines, unit_condition, asdu_lines};

use crate::facts::Condition;
use crate::facts::bits::{bit, cause_in, flag};
use crate::facts::objects::push_object;
use asdu::{Asdu, Refused, Sizes};
use std::alloc::{AllocError, Global};

/// Appends the lines that show the data of a frame, if it has any.
pub(crate) fn push_unit(
    alloc: Global,
    lines: &mut String,
    sizes: Sizes,
    octets: &[u8],
) -> Result<Condition, AllocError>
    ensures lines { OnOk result (string_bytes lines.new
        ≡ string_bytes lines.old ++ unit_lines sizes octets.now) }
    ensures condition { IfOk result (λ condition. condition ≡ unit_condition sizes octets.now) }
{
    if octets.is_empty() {
        return Ok(Condition::Good);
    }
    match asdu::read(sizes, octets) {
        Ok(asdu) => {
            push_asdu(alloc, lines, &asdu)?;
            Ok(Condition::Good)
        }
        Err(Refused(why)) => {
            writeln!(lines, "asdu refused {why}")?;
            Ok(Condition::Faulty)
        }
    }
}

fn push_asdu(alloc: Global, lines: &mut String, asdu: &Asdu<'_>) -> Result<(), AllocError>
    requires { IsAsdu asdu.now.sizes (value_of asdu.now) asdu.now.octets.now }
    ensures { OnOk result (string_bytes lines.new
        ≡ string_bytes lines.old ++ asdu_lines (value_of asdu.now)) }
{
    push_header(lines, asdu)?;
    push_objects(alloc, lines, asdu)
}

fn push_header(lines: &mut String, asdu: &Asdu<'_>) -> Result<(), AllocError>
    requires { IsAsdu asdu.now.sizes (value_of asdu.now) asdu.now.octets.now }
    ensures { OnOk result (string_bytes lines.new
        ≡ string_bytes lines.old ++ header_line (value_of asdu.now)) }
{
    push_structure(lines, asdu)?;
    push_cause(lines, asdu.cause())?;
    push_addresses(lines, asdu)
}

/// Appends type, SQ and number of objects.
fn push_structure(lines: &mut String, asdu: &Asdu<'_>) -> Result<(), AllocError>
    requires { IsAsdu asdu.now.sizes (value_of asdu.now) asdu.now.octets.now }
    ensures { OnOk result (string_bytes lines.new
        ≡ string_bytes lines.old ++ structure_text (value_of asdu.now)) }
{
    let kind = type_number(asdu);
    let sequence = flag(asdu.is_sequence());
    let number = asdu.number();
    write!(lines, "asdu type={kind} sq={sequence} number={number}")
}

/// Appends originator and common address.
fn push_addresses(lines: &mut String, asdu: &Asdu<'_>) -> Result<(), AllocError>
    ensures { OnOk result (string_bytes lines.new
        ≡ string_bytes lines.old ++ addresses_text (value_of asdu.now)) }
{
    let originator = asdu.originator();
    let ca = asdu.ca();
    writeln!(lines, " originator={originator} ca={ca}")
}

/// Appends the fields of a cause octet.
fn push_cause(lines: &mut String, octet: u8) -> Result<(), AllocError>
    ensures { OnOk result (string_bytes lines.new ≡ string_bytes lines.old ++ cause_text octet) }
{
    let test = bit(octet, 7);
    let negative = bit(octet, 6);
    let cause = cause_in(octet);
    write!(lines, " test={test} negative={negative} cause={cause}")
}

/// The number of its type.
fn type_number(asdu: &Asdu<'_>) -> u8
    requires { IsAsdu asdu.now.sizes (value_of asdu.now) asdu.now.octets.now }
    ensures { result ≡ (row asdu.now.kind).code }
{
    asdu.octets[0]
}

fn push_objects(alloc: Global, lines: &mut String, asdu: &Asdu<'_>) -> Result<(), AllocError>
    requires { IsAsdu asdu.now.sizes (value_of asdu.now) asdu.now.octets.now }
    ensures { OnOk result (string_bytes lines.new
        ≡ string_bytes lines.old
        ++ flat_map (object_line asdu.now.kind) (value_of asdu.now).infos) }
{
    for object in asdu.objects() {
        push_object(alloc, lines, asdu.kind, &object)?;
    }
    Ok(())
}
