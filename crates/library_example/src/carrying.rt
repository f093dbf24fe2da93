//! A report of the line as APDUs of a connection.
ghost use Rattle.std.specs.Prelude.{◌≡◌, ◌≤◌, ◌<◌, ◌^◌, IfOk, length, map};
ghost use Rattle.apci.specs.Spelling.{spelling};
ghost use Rattle.asdu.specs.Asdu.{IsAsdu};
ghost use Rattle.asdu.specs.Reading.{value_of};
ghost use Rattle.asdu.specs.InformationObjects.{objects_of};
ghost use Rattle.library_example.specs.Carrying.{Carries};

use apci::{Apdu, encode};
use arrayvec::ArrayVec;
use asdu::{Asdu, Piece, Translation, objects_are_those_of_the_asdu, pieces_carry_the_report};
use std::alloc::{AllocError, Global};

/// The octets of one APDU.
pub type Octets = ArrayVec<u8, 255>;

/// The APDUs that carry a report, as `asdu::read` has read it, to a control centre. The first is
/// numbered `sent`, which is below 32768. A long report takes several, since addresses have more
/// octets there.
pub fn carry(alloc: Global, report: &Asdu<'_>, sent: u16) -> Result<Vec<Octets>, AllocError>
    requires number { sent < 2 ^ 15 }
    requires report { IsAsdu report.now.sizes (value_of report.now) report.now.octets.now }
    ensures { IfOk result (λ apdus. Carries sent (objects_of report.now.sizes report.now.octets.now)
        (map (λ a. a.items) apdus.items)) }
{
    // The pieces are ASDUs, and their objects are the report's.
    objects_are_those_of_the_asdu();
    pieces_carry_the_report();
    let mut left = Translation::new(report);
    let mut number = sent;
    let mut apdus = Vec::new(alloc);
    while !left.is_over() {
        let mut asdu = Piece::new();
        left.write_next(&mut asdu);
        apdus.push(information(number, asdu.as_slice()))?;
        number = (number + 1) % 32768;
    }
    Ok(apdus)
}

/// The octets of an APDU in I format, which acknowledges nothing. It asks for an ASDU of 9 to 249
/// octets.
fn information(number: u16, asdu: &[u8]) -> Octets
    requires number { number < 2 ^ 15 }
    requires long { 9 ≤ length asdu.now }
    requires short { length asdu.now ≤ 249 }
    ensures { result.items ≡ spelling (Apdu.I number 0 (record { items = asdu.now })) }
{
    encode(&Apdu::I {
        ns: number,
        nr: 0,
        asdu: ArrayVec::try_from(asdu).unwrap(),
    })
}
