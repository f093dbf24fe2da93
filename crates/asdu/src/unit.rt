//! ASDUs that were read.
ghost use Rattle.std.specs.Prelude.{◌≡◌, Some, None, slice_index};
ghost use Rattle.elements.specs.Octets.{AreOctets};
ghost use Rattle.elements.specs.Types.{type_of};
ghost use Rattle.asdu.specs.Refusals.{refusal};
ghost use Rattle.asdu.specs.InformationObjects.{is_passed_on};

use crate::{Head, Objects, Sizes, head};
use elements::TypeId;

/// An ASDU that was read, borrowed from its octets (IEC 60870-5-101, 7.1).
// A caller can't make a wrong one, since only octets that were read have the ghost facts
// (docs/DECISIONS.md, "Public fields of `Asdu`").
#[derive(Clone, Copy, Debug, PartialEq, Eq)]
pub struct Asdu<'a> {
    /// The sizes in which it was read.
    pub sizes: Sizes,
    /// Its type.
    pub kind: TypeId,
    /// All its octets.
    pub octets: &'a [u8],
    pub ghost are_octets: { AreOctets octets.now },
    pub ghost well_formed: { refusal sizes octets.now ≡ None },
    pub ghost named: { type_of (slice_index octets.now 0) ≡ Some kind },
}

/// Why octets are no ASDU, the first that applies: 1 too short for a header and an object address,
/// 2 a type that isn't known, 3 number 0, 4 a length that type, SQ, number and sizes don't give, 5
/// with SQ 1 a last address past the address size.
#[derive(Clone, Copy, Debug, PartialEq, Eq)]
pub struct Refused(pub u8);

impl<'a> Asdu<'a> {
    ghost use Rattle.std.specs.Prelude.{◌+◌, ◌≤◌, ◌<◌, ◌^◌, ◌%◌, [], drop, length, is_some, true};
    ghost use Rattle.std.specs.Prelude.{false};
    ghost use Rattle.asdu.specs.Sizes.{header_len, ioa_len};
    ghost use Rattle.asdu.specs.Fields.{number_at, is_sequence, first_address, IsHeadOf};
    ghost use Rattle.asdu.specs.Refusals.{body_len};
    ghost use Rattle.asdu.specs.InformationObjects.{monitor_objects_of};
    ghost use Rattle.asdu.specs.Reading.{value_of};
    ghost use Rattle.asdu.specs.Objects.{infos_left};

    /// How many objects there are, 1 to 127 (bits 6 to 0 of the variable structure qualifier).
    pub fn number(&self) -> usize
        ensures value { result ≡ number_at self.now.octets.now }
        ensures counted { result ≡ length (value_of self.now).infos }
        ensures some { 1 ≤ result }
        ensures most { result ≤ 127 }
    {
        usize::from(self.octets[1] & 0x7F)
    }

    /// Whether the objects' addresses are counted from the first (SQ 1).
    pub fn is_sequence(&self) -> bool
        ensures { result ≡ is_sequence self.now.octets.now }
    {
        self.octets[1] >= 0x80
    }

    /// The whole octet of the cause of transmission: bit 7 test, bit 6 P/N, bits 5 to 0 the cause.
    pub fn cause(&self) -> u8
        ensures { result ≡ (value_of self.now).cause }
    {
        self.octets[2]
    }

    /// The originator address, 0 if the cause has one octet.
    pub fn originator(&self) -> u8
        ensures { result ≡ (value_of self.now).originator }
    {
        self.head().originator
    }

    /// The common address.
    pub fn ca(&self) -> u16
        ensures { result ≡ (value_of self.now).ca }
    {
        self.head().ca
    }

    /// Whether its objects are passed on to the control centre: those of monitor types, save with
    /// the cause octets `6C` and `EC` (a negative 'unknown type', which no report is).
    pub fn is_passed_on(&self) -> bool
        ensures value { result ≡ is_passed_on self.now.kind (value_of self.now).cause }
        ensures passed { result ≡ true →
            1 ≤ length (monitor_objects_of self.now.sizes self.now.octets.now) }
        ensures kept { result ≡ false → monitor_objects_of self.now.sizes self.now.octets.now ≡ [] }
    {
        is_report(self.kind, self.cause())
    }

    /// The objects, in order.
    pub fn objects(&self) -> Objects<'a>
        ensures infos { infos_left result ≡ (value_of self.now).infos }
        ensures kind { result.kind ≡ self.now.kind }
        ensures mode { is_some result.next_address ≡ is_sequence self.now.octets.now }
        ensures left { result.left ≡ number_at self.now.octets.now }
    {
        let body = self.body();
        let ioa = self.sizes.ioa;
        let (next_address, octets) = if self.is_sequence() {
            (Some(ioa.read(body)), &body[ioa.octets()..])
        } else {
            (None, body)
        };
        Objects {
            kind: self.kind,
            ioa,
            next_address,
            left: self.number(),
            octets,
        }
    }

    /// The header and the first object address.
    pub fn head(&self) -> Head
        ensures { IsHeadOf self.now.sizes self.now.octets.now result }
    {
        let Some(head) = head(self.sizes, self.octets) else {
            // What was read has a header.
            unreachable!();
        };
        head
    }

    /// The octets after the header.
    fn body(&self) -> &'a [u8]
        ensures value { result.now ≡ drop (header_len self.now.sizes) self.now.octets.now }
        ensures whole { length result.now
            ≡ body_len self.now.kind (ioa_len self.now.sizes.ioa) (is_sequence self.now.octets.now)
            (number_at self.now.octets.now) }
        ensures last { is_sequence self.now.octets.now ≡ true →
            first_address self.now.sizes self.now.octets.now
            + number_at self.now.octets.now ≤ 256 ^ ioa_len self.now.sizes.ioa }
    {
        &self.octets[self.sizes.header()..]
    }
}

/// Whether an ASDU of this type and cause octet is a report for the control centre.
fn is_report(kind: TypeId, cause: u8) -> bool
    ensures { result ≡ is_passed_on kind cause }
{
    kind.monitor() && cause != 0x6C && cause != 0xEC
}
