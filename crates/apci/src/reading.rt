//! Octets to APDUs.

ghost use Rattle.std.specs.Prelude.{◌≡◌, ◌%◌, ◌≤◌, ◌∷◌, IfSome};
ghost use Rattle.apci.specs.declared.apdu.Front.{Front};
ghost use Rattle.apci.specs.declared.apdu.Front.TheVariants.{Whole};
ghost use Rattle.apci.specs.Spelling.{function};
ghost use Rattle.apci.specs.Borrowed.{owned_front};
ghost use Rattle.apci.specs.Reading.{IsFront};
ghost use Rattle.apci.specs.Short.{apdu_of};

use crate::apdu::{ApduRef, Front, FrontRef, Short, Uf, Why};
use crate::control::{Format, counter_of, format_of};
use crate::writing::START;

/// The front of octets that begin with a length and the control octet of an I format.
fn i_format(len: u8, control: u8, rest: &[u8]) -> FrontRef<'_>
    requires even { control % 2 ≡ 0 }
    requires long { 4 ≤ len }
    requires short { len ≤ 253 }
    ensures { IsFront (0x68 ∷ len ∷ control ∷ rest.now) (owned_front result) }
{
    // Four control octets, and the shortest ASDU: a header with one object address has nine.
    if len < 13 {
        return FrontRef::Never(1, Why::Short);
    }
    let len = usize::from(len);
    // Before the end is awaited: a refusal comes as soon as the octets decide it.
    if rest.len() > 1 && rest[1] % 2 == 1 {
        return FrontRef::Never(4, Why::Control);
    }
    if rest.len() + 1 < len {
        return FrontRef::More;
    }
    let ns = counter_of(control, rest[0]);
    let nr = counter_of(rest[1], rest[2]);
    let asdu = &rest[3..len - 1];
    FrontRef::Whole(ApduRef::I { ns, nr, asdu }, 2 + len)
}

/// The front of octets that begin with a length and the control octet of an S format.
fn s_format(len: u8, rest: &[u8]) -> FrontRef<'_>
    requires long { 4 ≤ len }
    requires short { len ≤ 253 }
    ensures { IsFront (0x68 ∷ len ∷ 0x01 ∷ rest.now) (owned_front result) }
{
    if len != 4 {
        return FrontRef::Never(1, Why::NotFour);
    }
    let Some((second, rest)) = rest.split_first() else {
        return FrontRef::More;
    };
    if *second != 0 {
        return FrontRef::Never(3, Why::Control);
    }
    let Some((third, rest)) = rest.split_first() else {
        return FrontRef::More;
    };
    if *third % 2 == 1 {
        return FrontRef::Never(4, Why::Control);
    }
    let Some((fourth, _rest)) = rest.split_first() else {
        return FrontRef::More;
    };
    FrontRef::Whole(
        ApduRef::S {
            nr: counter_of(*third, *fourth),
        },
        6,
    )
}

/// The front of octets that begin with a length and the control octet of a U format.
fn u_format(len: u8, f: Uf, rest: &[u8]) -> FrontRef<'_>
    requires long { 4 ≤ len }
    requires short { len ≤ 253 }
    ensures { IsFront (0x68 ∷ len ∷ function f ∷ rest.now) (owned_front result) }
{
    if len != 4 {
        return FrontRef::Never(1, Why::NotFour);
    }
    let Some((second, rest)) = rest.split_first() else {
        return FrontRef::More;
    };
    if *second != 0 {
        return FrontRef::Never(3, Why::Control);
    }
    let Some((third, rest)) = rest.split_first() else {
        return FrontRef::More;
    };
    if *third != 0 {
        return FrontRef::Never(4, Why::Control);
    }
    let Some((fourth, _rest)) = rest.split_first() else {
        return FrontRef::More;
    };
    if *fourth != 0 {
        return FrontRef::Never(5, Why::Control);
    }
    FrontRef::Whole(ApduRef::U(f), 6)
}

/// What stands at the front of the octets, with an ASDU where it stands.
///
/// A refusal is given as soon as the octets seen decide it. An S or U format with a wrong length,
/// and an I format too short for an ASDU, are refused at place 1 once the first control octet has
/// come.
#[inline(always)]
pub fn front_ref(octets: &[u8]) -> FrontRef<'_>
    ensures right { IsFront octets.now (owned_front result) }
    // No other answer is right: so it is this one exactly if `IsFront` holds of it.
    ensures only { (other : Front) → IsFront octets.now other → other ≡ owned_front result }
{
    first_of(octets)
}

/// The answer of `front_ref`, before it is known to be the only one.
#[inline(always)]
fn first_of(octets: &[u8]) -> FrontRef<'_>
    ensures { IsFront octets.now (owned_front result) }
{
    // A whole S or U format is found with no place in memory for an answer.
    match short_of(octets) {
        Some(Short::S { nr }) => FrontRef::Whole(ApduRef::S { nr }, 6),
        Some(Short::U(function)) => FrontRef::Whole(ApduRef::U(function), 6),
        None => octet_by_octet(octets),
    }
}

/// The whole S or U format at the front of the octets, if one stands there.
#[inline(always)]
fn short_of(octets: &[u8]) -> Option<Short>
    ensures { IfSome result (λ short. IsFront octets.now (Whole (apdu_of short) 6)) }
{
    if octets.len() < 6 || octets[0] != START || octets[1] != 4 || octets[3] != 0 {
        return None;
    }
    let [third, fourth] = [octets[4], octets[5]];
    match format_of(octets[2]) {
        Format::S if third % 2 == 0 => Some(Short::S {
            nr: counter_of(third, fourth),
        }),
        Format::U(function) if third == 0 && fourth == 0 => Some(Short::U(function)),
        _ => None,
    }
}

/// The answer of `first_of`, which each octet decides in turn.
fn octet_by_octet(octets: &[u8]) -> FrontRef<'_>
    ensures { IsFront octets.now (owned_front result) }
{
    // No octets are a proper beginning (docs/DECISIONS.md, "No octets at all").
    let Some((start, rest)) = octets.split_first() else {
        return FrontRef::More;
    };
    if *start != START {
        return FrontRef::Never(0, Why::Start);
    }
    let Some((len, rest)) = rest.split_first() else {
        return FrontRef::More;
    };
    if *len < 4 || *len > 253 {
        return FrontRef::Never(1, Why::Length);
    }
    let Some((control, rest)) = rest.split_first() else {
        return FrontRef::More;
    };
    match format_of(*control) {
        Format::Unknown => FrontRef::Never(2, Why::Control),
        Format::I => i_format(*len, *control, rest),
        Format::S => s_format(*len, rest),
        Format::U(function) => u_format(*len, function, rest),
    }
}

/// What stands at the front of the octets: the answer of `front_ref`, with a copy of the ASDU.
pub fn front(octets: &[u8]) -> Front
    ensures right { IsFront octets.now result }
    ensures only { (other : Front) → IsFront octets.now other → other ≡ result }
{
    match front_ref(octets) {
        FrontRef::Whole(apdu, len) => Front::Whole(apdu.to_apdu(), len),
        FrontRef::More => Front::More,
        FrontRef::Never(place, why) => Front::Never(place, why),
    }
}
