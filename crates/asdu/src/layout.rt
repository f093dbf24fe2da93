//! The place of each octet, in the standard's words.
ghost use Rattle.std.specs.Prelude.{◌≡◌, ◌+◌, ◌*◌, ◌/◌, ◌%◌, ◌^◌, ◌<◌, ◌≤◌, ℕ, length};
ghost use Rattle.std.specs.Prelude.{slice_get, slice_index};
ghost use Rattle.std.specs.Prelude.{if◌then◌else◌, true, false, Some};
ghost use Rattle.elements.specs.Octets.{AreOctets};
ghost use Rattle.elements.specs.Types.{row};
ghost use Rattle.asdu.specs.declared.sizes.CauseSize.TheVariants as causes;
ghost use Rattle.asdu.specs.Asdu.{Info};
ghost use Rattle.asdu.specs.Layout.{OfEachAsdu, common_address_at, common_address_place};
ghost use Rattle.asdu.specs.Layout.{objects_place, address_octets, content_octets};
ghost use Rattle.asdu.specs.Layout.{StandsApart, StandsInSequence};
ghost use Rattle.asdu.specs.Layout.{IsObjectOf};
ghost use Rattle.asdu.specs.InformationObjects.{InformationObject, objects_of};

/// Where each octet of an ASDU stands, whatever its sizes, its values and the number of its objects
/// (IEC 60870-5-101).
pub fn octets_stand_where_the_standard_has_them()
    ensures octets { OfEachAsdu (λ s u xs. AreOctets xs) }
    // 7.2.1: the type identification stands first.
    ensures kind { OfEachAsdu (λ s u xs. slice_index xs 0 ≡ (row u.kind).code) }
    // 7.2.2: bit 7 of the next octet is SQ, bits 6 to 0 are the number of objects.
    ensures sequence { OfEachAsdu (λ s u xs.
        slice_index xs 1 / 128 ≡ (if u.sequence then 1 else 0)) }
    ensures number { OfEachAsdu (λ s u xs. slice_index xs 1 % 128 ≡ length u.infos) }
    // 7.2.3: the cause of transmission stands next, and if it has two octets the originator next.
    ensures cause { OfEachAsdu (λ s u xs. slice_index xs 2 ≡ u.cause) }
    ensures no_originator { OfEachAsdu (λ s u xs. s.cause ≡ causes.One → u.originator ≡ 0) }
    ensures originator { OfEachAsdu (λ s u xs.
        s.cause ≡ causes.Two → slice_index xs 3 ≡ u.originator) }
    // 7.2.4: the common address stands behind the cause.
    ensures common_address { OfEachAsdu (λ s u xs.
        common_address_at s.ca (common_address_place s.cause) xs ≡ u.ca) }
    // 7.2.2.1, 7.2.5 and 7.2.6: with SQ 0 each object has its address, its element and its tag.
    ensures apart { OfEachAsdu (λ s u xs. u.sequence ≡ false →
        (k : ℕ) (i : Info) → slice_get u.infos k ≡ Some i →
        StandsApart s.ioa u.kind (objects_place s.cause s.ca
        + k * (address_octets s.ioa + content_octets u.kind)) xs i) }
    ensures apart_length { OfEachAsdu (λ s u xs. u.sequence ≡ false →
        length xs ≡ objects_place s.cause s.ca
        + length u.infos * (address_octets s.ioa + content_octets u.kind)) }
    // With SQ 1 the first address stands once, and then the elements, each with its tag.
    ensures together { OfEachAsdu (λ s u xs. u.sequence ≡ true →
        (k : ℕ) (i : Info) → slice_get u.infos k ≡ Some i →
        StandsInSequence s.ioa u.kind k (objects_place s.cause s.ca) xs i) }
    ensures together_length { OfEachAsdu (λ s u xs. u.sequence ≡ true →
        length xs ≡ objects_place s.cause s.ca + address_octets s.ioa
        + length u.infos * content_octets u.kind) }
{}

/// An ASDU's octets are read as all of its objects, in their order. Each has the type, the cause
/// octet, the originator and the common address of the ASDU, and its own address, element and time
/// tag. So reports whose objects are equal are equal in value, quality and tag.
pub fn objects_have_all_their_parts()
    ensures number { OfEachAsdu (λ s u xs. length (objects_of s xs) ≡ length u.infos) }
    ensures parts { OfEachAsdu (λ s u xs. (k : ℕ) (i : Info) → slice_get u.infos k ≡ Some i →
        (o : InformationObject) × (slice_get (objects_of s xs) k ≡ Some o) × IsObjectOf u i o) }
{}
