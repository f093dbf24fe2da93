//! Octets of the connection in words.
ghost use Rattle.std.specs.Prelude.{◌≡◌, ◌++◌, IfOk, OnOk, string_bytes};
ghost use Rattle.apci.specs.Borrowed.{owned, owned_front};
ghost use Rattle.words.specs.TcpFacts.{apdu_lines, apdu_condition, front_lines, front_condition};
ghost use Rattle.words.specs.TcpFacts.{function_text, number_of, IsTcpShown};

use crate::facts::condition::push_rest;
use crate::facts::units::push_unit;
use crate::facts::{Condition, Shown};
use apci::{ApduRef, FrontRef, Uf, Why, front_ref};
use asdu::Sizes;
use std::alloc::{AllocError, Global};

/// Shows what stands at the front of octets of the connection: the APDU and its ASDU, and how many
/// octets follow; or that they begin an APDU, or why they begin none.
pub fn show_tcp(alloc: Global, octets: &[u8]) -> Result<Shown, AllocError>
    ensures { IfOk result (λ shown.
        IsTcpShown octets.now (string_bytes shown.lines) shown.condition) }
{
    let front = front_ref(octets);
    let mut lines = String::new(alloc);
    let condition = push_front(alloc, &mut lines, octets.len(), front)?;
    Ok(Shown { lines, condition })
}

/// Appends the lines of what stands at the front of so many octets.
fn push_front(
    alloc: Global,
    lines: &mut String,
    count: usize,
    front: FrontRef<'_>,
) -> Result<Condition, AllocError>
    ensures lines { OnOk result (string_bytes lines.new
        ≡ string_bytes lines.old ++ front_lines count (owned_front front.entry)) }
    ensures condition { IfOk result (λ condition.
        condition ≡ front_condition count (owned_front front.entry)) }
{
    match front {
        FrontRef::Whole(apdu, len) => {
            let condition = push_apdu(alloc, lines, apdu)?;
            let rest = count.saturating_sub(len);
            push_rest(lines, rest)?;
            Ok(condition.with_rest(rest))
        }
        FrontRef::More => {
            writeln!(lines, "truncated")?;
            Ok(Condition::Faulty)
        }
        FrontRef::Never(place, why) => {
            let number = number_of(why);
            writeln!(lines, "refused {number} at {place}")?;
            Ok(Condition::Faulty)
        }
    }
}

/// Appends the lines of an APDU and of its ASDU.
fn push_apdu(alloc: Global, lines: &mut String, apdu: ApduRef<'_>) -> Result<Condition, AllocError>
    ensures lines { OnOk result (string_bytes lines.new
        ≡ string_bytes lines.old ++ apdu_lines (owned apdu.entry)) }
    ensures condition { IfOk result (λ condition. condition ≡ apdu_condition (owned apdu.entry)) }
{
    match apdu {
        ApduRef::I { ns, nr, asdu } => {
            let octets = asdu.len();
            writeln!(lines, "I ns={ns} nr={nr} octets={octets}")?;
            return push_unit(alloc, lines, Sizes::TCP, asdu);
        }
        ApduRef::S { nr } => writeln!(lines, "S nr={nr}")?,
        ApduRef::U(function) => {
            let text = function_text(function);
            writeln!(lines, "U {text}")?;
        }
    }
    Ok(Condition::Good)
}

fn function_text(function: Uf) -> &'static str
    ensures { result.now ≡ function_text function }
{
    match function {
        Uf::StartAct => "STARTDT act",
        Uf::StartCon => "STARTDT con",
        Uf::StopAct => "STOPDT act",
        Uf::StopCon => "STOPDT con",
        Uf::TestAct => "TESTFR act",
        Uf::TestCon => "TESTFR con",
    }
}

/// The number of a refusal.
fn number_of(why: Why) -> u8
    ensures { result ≡ number_of why }
{
    why as u8
}
