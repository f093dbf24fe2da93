//! Commands with and without a time tag.
ghost use Rattle.std.specs.Prelude.{◌≡◌, ◌+◌, ◌-◌, ◌∷◌, ◌++◌, ℕ, List, length, take, drop, true};
ghost use Rattle.std.specs.Prelude.{slice_index};
ghost use Rattle.elements.specs.Octets.{AreOctets};
ghost use Rattle.asdu.specs.declared.sizes.Sizes.{Sizes};
ghost use Rattle.asdu.specs.Asdu.{AsduValue, FitsSizes, IsAsdu, spelled};
ghost use Rattle.asdu.specs.Fields.{number_at};
ghost use Rattle.asdu.specs.Sizes.{tcp};
ghost use Rattle.asdu.specs.Reading.{value_of};
ghost use Rattle.asdu.specs.Tagging.{is_tagged_command as names_tagged_command};
ghost use Rattle.asdu.specs.Tagging.{is_plain_command as names_plain_command, untagged, tagged};

use crate::Asdu;
use crate::writing::append;
use arrayvec::ArrayVec;
use elements::{Cp56, TypeId};

/// How far a type with a tag lies above the same command without one: 58 to 62 are 45 to 49.
const TAGGED_ABOVE: u8 = 13;

/// Whether the type is a command with a time tag, types 58 to 62.
pub fn is_tagged_command(kind: TypeId) -> bool
    ensures { result ≡ names_tagged_command kind }
{
    matches!(
        kind,
        TypeId::CScTa1 | TypeId::CDcTa1 | TypeId::CRcTa1 | TypeId::CSeTa1 | TypeId::CSeTb1
    )
}

/// Whether the type is a command without one that can have one, types 45 to 49.
pub fn is_plain_command(kind: TypeId) -> bool
    ensures { result ≡ names_plain_command kind }
{
    matches!(
        kind,
        TypeId::CScNa1 | TypeId::CDcNa1 | TypeId::CRcNa1 | TypeId::CSeNa1 | TypeId::CSeNb1
    )
}

/// A command with a time tag (types 58 to 62, one object) as the same command without it (types 45
/// to 49), in its own sizes: its addresses, value and qualifier stay (IEC 60870-5-104, 8).
pub fn untag(asdu: &Asdu) -> ArrayVec<u8, 253>
    requires kind { names_tagged_command asdu.now.kind ≡ true }
    requires one { number_at asdu.now.octets.now ≡ 1 }
    ensures { IsAsdu asdu.now.sizes (untagged (value_of asdu.now)) result.items }
{
    let end = asdu.octets.len() - 7;
    let mut out = ArrayVec::new();
    append(&mut out, &[asdu.octets[0] - TAGGED_ABOVE]);
    append(&mut out, &asdu.octets[1..end]);
    out
}

/// A command (types 45 to 49, one object, in the sizes of a connection) as the same command with
/// this time tag (types 58 to 62): its addresses, value and qualifier stay (IEC 60870-5-104, 8).
pub fn retag(asdu: &Asdu, tag: &Cp56) -> ArrayVec<u8, 249>
    requires kind { names_plain_command asdu.now.kind ≡ true }
    requires one { number_at asdu.now.octets.now ≡ 1 }
    requires sizes { asdu.now.sizes ≡ tcp }
    ensures { IsAsdu tcp (tagged tag.now.0 (value_of asdu.now)) result.items }
{
    let mut out = ArrayVec::new();
    append(&mut out, &[asdu.octets[0] + TAGGED_ABOVE]);
    append(&mut out, &asdu.octets[1..]);
    append(&mut out, &octets_of(*tag));
    out
}

/// The octets of a tag.
fn octets_of(tag: Cp56) -> [u8; 7]
    ensures value { result ≡ tag.0 }
    ensures seven { length result ≡ 7 }
    ensures are_octets { AreOctets result }
{
    tag.0
}

/// A command with a time tag has the octets of the same command without it, but for its type, which
/// is 13 above, and behind its element the seven octets of the tag, as they are: with SU, IV and
/// the reserved bits (IEC 60870-5-104, 8).
pub fn tags_stand_behind_the_element()
    ensures tagged { (s : Sizes) (tag : List ℕ) (v : AsduValue) → FitsSizes s v →
        length v.infos ≡ 1 → names_plain_command v.kind ≡ true → length tag ≡ 7 → AreOctets tag →
        spelled s (tagged tag v)
        ≡ ((slice_index (spelled s v) 0 + 13) ∷ drop 1 (spelled s v)) ++ tag }
    ensures untagged { (s : Sizes) (v : AsduValue) → FitsSizes s v →
        length v.infos ≡ 1 → names_tagged_command v.kind ≡ true →
        spelled s (untagged v) ≡ (slice_index (spelled s v) 0 - 13)
        ∷ take (length (spelled s v) - 7 - 1) (drop 1 (spelled s v)) }
{}
