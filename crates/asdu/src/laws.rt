//! Laws of the relation between an ASDU and its octets, for callers to lean on. Each is called for
//! its contract.
ghost use Rattle.std.specs.Prelude.{◌≡◌, ◌≤◌, ◌+◌, ◌*◌, ◌%◌, ◌^◌, ◌⊎◌, ℕ, List, []};
ghost use Rattle.std.specs.Prelude.{length, true, false};
ghost use Rattle.elements.specs.Types.{row};
ghost use Rattle.std.specs.Int.{div_ceil};
ghost use Rattle.std.specs.List.{AllByRecursion, flat_map};
ghost use Rattle.elements.specs.Octets.{AreOctets};
ghost use Rattle.asdu.specs.declared.sizes.Sizes.{Sizes};
ghost use Rattle.asdu.specs.Asdu.{AsduValue, IsAsdu, IsNoAsdu};
ghost use Rattle.asdu.specs.Refusals.{is_read};
ghost use Rattle.asdu.specs.InformationObjects.{value_objects, objects_of, monitor_objects_of};
ghost use Rattle.asdu.specs.InformationObjects.{is_passed_on, only_if};
ghost use Rattle.asdu.specs.Sizes.{tcp};
ghost use Rattle.asdu.specs.Translation.{parts, piece_size, report_pieces, AllButLast, IsLargest};
ghost use Rattle.asdu.specs.Translation.{IsPiece};
ghost use Rattle.asdu.specs.Examples.{IsWorkedSo, IsRefusedSo, PassedExamples, PartExamples};
ghost use Rattle.asdu.specs.Examples.{TagsByType, octet_examples, refusal_examples};

/// In given sizes octets are one ASDU at most, and an ASDU has one spelling.
pub fn one_asdu_one_spelling()
    ensures one_asdu { (s : Sizes) (u v : AsduValue) (xs : List ℕ) → IsAsdu s u xs → IsAsdu s v xs →
        u ≡ v }
    ensures one_spelling { (s : Sizes) (u : AsduValue) (xs ys : List ℕ) → IsAsdu s u xs →
        IsAsdu s u ys → xs ≡ ys }
{}

/// Whether octets are read, their objects, those that are passed on, and the number of pieces are
/// those of the ASDU that the octets are. If they are none, nothing is read, and there is no object
/// and no piece.
pub fn objects_are_those_of_the_asdu()
    ensures read { (s : Sizes) (u : AsduValue) (xs : List ℕ) → IsAsdu s u xs → is_read s xs ≡ true }
    ensures objects { (s : Sizes) (u : AsduValue) (xs : List ℕ) → IsAsdu s u xs →
        objects_of s xs ≡ value_objects u }
    ensures monitor_objects { (s : Sizes) (u : AsduValue) (xs : List ℕ) → IsAsdu s u xs →
        monitor_objects_of s xs ≡ only_if (is_passed_on u.kind u.cause) (value_objects u) }
    ensures pieces { (s : Sizes) (u : AsduValue) (xs : List ℕ) → IsAsdu s u xs →
        parts s xs ≡ div_ceil (length u.infos) (piece_size u.kind u.sequence) }
    ensures not_read { (s : Sizes) (xs : List ℕ) → AreOctets xs → IsNoAsdu s xs →
        is_read s xs ≡ false }
    ensures nothing { (s : Sizes) (xs : List ℕ) → is_read s xs ≡ false →
        (objects_of s xs ≡ []) × (monitor_objects_of s xs ≡ []) × (parts s xs ≡ 0) }
{}

/// Each report of a monitor type is passed on with all its objects, whatever its cause, except for
/// a negative 'unknown type' (cause 44 with P/N set), with the test bit or without. Of these, and
/// of all other types, nothing is passed on.
pub fn monitor_reports_are_passed_on()
    ensures passed { (s : Sizes) (u : AsduValue) (xs : List ℕ) → IsAsdu s u xs →
        (row u.kind).monitor ≡ true → (u.cause % 128 ≡ 108 → ⊥) →
        monitor_objects_of s xs ≡ value_objects u }
    ensures kept_back { (s : Sizes) (u : AsduValue) (xs : List ℕ) → IsAsdu s u xs →
        ((row u.kind).monitor ≡ false) ⊎ (u.cause % 128 ≡ 108) → monitor_objects_of s xs ≡ [] }
{}

/// ASDUs worked by hand from the standard: their octets and objects, what is refused and why, which
/// reports are passed on, and into how many pieces they are cut.
pub fn worked_examples_hold()
    ensures octets { AllByRecursion IsWorkedSo octet_examples }
    ensures refusals { AllByRecursion IsRefusedSo refusal_examples }
    ensures passed { PassedExamples }
    ensures parts { PartExamples }
{}

/// The pieces of a report have its objects, each once and in their order, and so those that are
/// passed on. Each has the report's header and some of its objects, and all but the last are as
/// large as can be. Of a report that a line can carry there are at most three.
pub fn pieces_carry_the_report()
    ensures joined { (s : Sizes) (v : AsduValue) (xs : List ℕ) → IsAsdu s v xs →
        flat_map (λ p. objects_of tcp p) (report_pieces v) ≡ objects_of s xs }
    ensures monitored { (s : Sizes) (v : AsduValue) (xs : List ℕ) → IsAsdu s v xs →
        flat_map (λ p. monitor_objects_of tcp p) (report_pieces v) ≡ monitor_objects_of s xs }
    ensures some_monitored { (s : Sizes) (v : AsduValue) (xs : List ℕ) → IsAsdu s v xs →
        is_passed_on v.kind v.cause ≡ true →
        AllByRecursion (λ p. 1 ≤ length (monitor_objects_of tcp p)) (report_pieces v) }
    ensures pieces { (s : Sizes) (v : AsduValue) (xs : List ℕ) → IsAsdu s v xs →
        AllByRecursion (λ p. IsPiece v p) (report_pieces v) }
    ensures lengths { (s : Sizes) (v : AsduValue) (xs : List ℕ) → IsAsdu s v xs →
        AllByRecursion (λ p. (9 ≤ length p) × (length p ≤ 249)) (report_pieces v) }
    ensures full { (s : Sizes) (v : AsduValue) (xs : List ℕ) → IsAsdu s v xs →
        AllButLast (λ p. IsLargest v p) (report_pieces v) }
    ensures number { (s : Sizes) (v : AsduValue) (xs : List ℕ) → IsAsdu s v xs →
        length (report_pieces v) ≡ parts s xs }
    ensures few { (s : Sizes) (v : AsduValue) (xs : List ℕ) → IsAsdu s v xs →
        length xs ≤ 253 → length (report_pieces v) ≤ 3 }
{}

/// Commands with a time tag are types 58 to 62, each 13 above the same command without one (IEC
/// 60870-5-104, 8).
pub fn tagged_types_are_thirteen_above()
    ensures { TagsByType }
{}
