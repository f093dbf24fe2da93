//! Reading ASDUs from octets.
ghost use Rattle.std.specs.Prelude.{◌≡◌, ◌+◌, ◌≤◌, ◌<◌, ◌^◌, ◌↔◌, length, IsSome, IfSome, IfOk};
ghost use Rattle.std.specs.Prelude.{IfErr, IsOkAnd, is_ok, Some, []};
ghost use Rattle.asdu.specs.Sizes.{header_len, ioa_len};
ghost use Rattle.asdu.specs.Asdu.{AsduValue, IsAsdu};
ghost use Rattle.asdu.specs.Fields.{IsHeadOf};
ghost use Rattle.asdu.specs.Refusals.{refusal, is_read, body_len};
ghost use Rattle.asdu.specs.InformationObjects.{value_objects, objects_of, monitor_objects_of};
ghost use Rattle.asdu.specs.Reading.{value_of};

use crate::objects::content_octets;
use crate::{Asdu, CauseSize, Head, IoaSize, Refused, Sizes};
use elements::{TypeId, kind};

/// Reads the header and the first object address, and judges neither; None if the octets are too
/// short for both.
pub fn head(sizes: Sizes, octets: &[u8]) -> Option<Head>
    ensures some { IsSome result ↔ (header_len sizes + ioa_len sizes.ioa ≤ length octets.now) }
    ensures value { IfSome result (IsHeadOf sizes octets.now) }
    ensures address { IfSome result (λ h. h.ioa < 2 ^ 24) }
{
    if octets.len() < sizes.header() + sizes.ioa.octets() {
        return None;
    }
    let common = &octets[2 + sizes.cause.octets()..];
    Some(Head {
        kind: octets[0],
        vsq: octets[1],
        cause: octets[2],
        originator: match sizes.cause {
            CauseSize::One => 0,
            CauseSize::Two => octets[3],
        },
        ca: sizes.ca.read(common),
        ioa: sizes.ioa.read(&octets[sizes.header()..]),
    })
}

/// Reads an ASDU, which takes all of the octets, in the sizes given (IEC 60870-5-101, 7.1 and 7.2).
/// The types are those of `TypeId`, each with SQ 0 or 1; `Refused` says why octets are none.
#[inline(always)]
pub fn read(sizes: Sizes, octets: &[u8]) -> Result<Asdu<'_>, Refused>
    ensures source { IfOk result (λ asdu. (asdu.sizes ≡ sizes) × (asdu.octets.now ≡ octets.now)) }
    // What is read is the ASDU that the octets are.
    ensures found { IfOk result (λ asdu. IsAsdu sizes (value_of asdu) octets.now) }
    // If the octets are an ASDU, it is read.
    ensures only { (v : AsduValue) → IsAsdu sizes v octets.now →
        IsOkAnd result (λ asdu. value_of asdu ≡ v) }
    // The first fault that applies.
    ensures refused { IfErr result (λ why. refusal sizes octets.now ≡ Some why.0) }
    ensures is_read { is_ok result ≡ is_read sizes octets.now }
    ensures objects { IfOk result (λ asdu.
        objects_of sizes octets.now ≡ value_objects (value_of asdu)) }
    ensures nothing { IfErr result (λ _.
        (objects_of sizes octets.now ≡ []) × (monitor_objects_of sizes octets.now ≡ [])) }
{
    check(sizes, octets)
}

#[inline(always)]
fn check(sizes: Sizes, octets: &[u8]) -> Result<Asdu<'_>, Refused>
    ensures source { IfOk result (λ asdu. (asdu.sizes ≡ sizes) × (asdu.octets.now ≡ octets.now)) }
    ensures refused { IfErr result (λ why. refusal sizes octets.now ≡ Some why.0) }
{
    let Some(head) = head(sizes, octets) else {
        return Err(Refused(1));
    };
    let Some(kind) = kind(head.kind) else {
        return Err(Refused(2));
    };
    let number = usize::from(head.vsq & 0x7F);
    // Before the length: with SQ 1 an address without elements would fit it.
    if number == 0 {
        return Err(Refused(3));
    }
    // With every type: nothing is lost by it (docs/DECISIONS.md, "SQ 1 with every type").
    let sequence = head.vsq >= 0x80;
    if octets.len() != sizes.header() + body_octets(kind, sizes.ioa, sequence, number) {
        return Err(Refused(4));
    }
    // Addresses past their size would begin again at 0, where other objects are.
    if sequence && head.ioa + u32::from(head.vsq & 0x7F) > sizes.ioa.limit() {
        return Err(Refused(5));
    }
    Ok(Asdu {
        sizes,
        kind,
        octets,
    })
}

/// The octets of so many objects.
pub(crate) fn body_octets(kind: TypeId, ioa: IoaSize, sequence: bool, number: usize) -> usize
    requires { number < 128 }
    ensures value { result ≡ body_len kind (ioa_len ioa) sequence number }
    ensures bound { result ≤ 1908 }
{
    let content = content_octets(kind);
    if sequence {
        ioa.octets() + number * content
    } else {
        number * (ioa.octets() + content)
    }
}
