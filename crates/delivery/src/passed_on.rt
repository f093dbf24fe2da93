//! What a station says of a command, as it goes to the control centre.
ghost use Rattle.std.specs.Prelude.{◌≡◌, ◌<◌, ◌≤◌, ◌+◌, ◌/◌, ◌%◌, ◌⊎◌, ℕ, List, [], ◌∷◌, ◌++◌};
ghost use Rattle.std.specs.Prelude.{length, drop, take, slice_get, slice_index, Some, None, true};
ghost use Rattle.std.specs.Prelude.{false};
ghost use Rattle.std.specs.List.{flat_map, AllByRecursion};
ghost use Rattle.arrayvec.specs.ArrayVec.{ArrayVec};
ghost use Rattle.elements.specs.declared.tag.Cp56.{Cp56};
ghost use Rattle.asdu.specs.Asdu.{AsduValue, Info, IsAsdu, IsNoAsdu};
ghost use Rattle.elements.specs.Octets.{AreOctets};
ghost use Rattle.asdu.specs.InformationObjects.{InformationObject, objects_of};
ghost use Rattle.asdu.specs.Layout.{HaveOneHead, IsObjectOf, address_octets, content_octets};
ghost use Rattle.asdu.specs.Layout.{common_address_place, object_address_at, objects_place};
ghost use Rattle.asdu.specs.Sizes.{tcp};
ghost use Rattle.asdu.specs.declared.sizes.Sizes.{Sizes};
ghost use Rattle.asdu.specs.Translation.{report_pieces};
ghost use Rattle.elements.specs.Types.{row};
ghost use Rattle.link.specs.declared.outcome.Outcome.TheVariants.{Report};
ghost use Rattle.session.specs.History.{is_started};
ghost use Rattle.command.specs.History.{History};
ghost use Rattle.gateway.specs.Counting.{is_answer_code};
ghost use Rattle.gateway.specs.Given.{IsGivenOn};
ghost use Rattle.gateway.specs.Objects.{monitor_objects, parts_of, pieces_of_report};
ghost use Rattle.gateway.specs.Course.{Course, IsLeft, Runs};
ghost use Rattle.gateway.specs.Log.{Log, Came, LineIn, latest};
ghost use Rattle.gateway.specs.Reports.{Setup};
ghost use Rattle.gateway.specs.Serial.{answer_outcome};
ghost use Rattle.gateway.specs.Tags.{AreTagged};
ghost use Rattle.gateway.specs.Works.{IsPassedOn};
ghost use Rattle.delivery.specs.Answers.{answer_form, answer_in, IsGivenOnce};
ghost use Rattle.delivery.specs.Answers.{IsHeeded};
ghost use Rattle.delivery.specs.Answers.{IsGivenInPieces, cause_in_two, common_address_in_two};
ghost use Rattle.delivery.specs.Bodies.{BeginAt, wide_objects};

use asdu::{
    monitor_reports_are_passed_on, objects_are_those_of_the_asdu, objects_have_all_their_parts,
    octets_stand_where_the_standard_has_them, one_asdu_one_spelling, pieces_carry_the_report,
    tagged_types_are_thirteen_above, tags_stand_behind_the_element,
};
use gateway::{answers_have_the_types_of_commands, what_is_due_is_given};

/// A station's answer to a command is passed on as it came. With one object it is one ASDU, octet
/// by octet: the type, SQ and number, the cause octet with P/N and the test bit, the originator,
/// the common address and the object's address, both with the low octet first, the element, and the
/// time tag if there is one. Only the sizes are those of IEC 60870-5-104. Of an answer with more
/// objects each ASDU has the type, the SQ and the cause octet, and 249 octets at most. Their
/// objects, joined, are the answer's, in their order, each with all its parts.
pub fn answers_are_passed_on_as_they_came()
    ensures one { (sizes : Sizes) (u : AsduValue) (report : List ℕ) (pieces : List (List ℕ)) →
        IsPassedOn sizes u report pieces → slice_index report 1 % 128 ≡ 1 →
        pieces ≡ answer_form sizes report ∷ [] }
    ensures value { (sizes : Sizes) (u v : AsduValue) (report : List ℕ) (pieces : List (List ℕ)) →
        IsPassedOn sizes u report pieces → IsAsdu sizes v report → u ≡ v }
    ensures heads { (sizes : Sizes) (u : AsduValue) (report : List ℕ) (pieces : List (List ℕ)) →
        IsPassedOn sizes u report pieces →
        AllByRecursion (λ piece. HaveOneHead report piece × (length piece ≤ 249)) pieces }
    ensures number { (sizes : Sizes) (u v : AsduValue) (report : List ℕ)
        (pieces : List (List ℕ)) → IsPassedOn sizes u report pieces → IsAsdu sizes v report →
        length (flat_map (λ piece. objects_of tcp piece) pieces) ≡ length v.infos }
    ensures parts { (sizes : Sizes) (u v : AsduValue) (report : List ℕ)
        (pieces : List (List ℕ)) → IsPassedOn sizes u report pieces → IsAsdu sizes v report →
        (k : ℕ) (i : Info) → slice_get v.infos k ≡ Some i →
        (o : InformationObject)
        × (slice_get (flat_map (λ piece. objects_of tcp piece) pieces) k ≡ Some o)
        × IsObjectOf v i o }
{
    one_asdu_one_spelling();
    objects_are_those_of_the_asdu();
    objects_have_all_their_parts();
    octets_stand_where_the_standard_has_them();
}

/// A station's answer bears the tag of its command, if the command came with one: an answer of
/// types 45 to 49 with one object goes out as the type 13 above (58 to 62), with the seven octets
/// of the tag last, and else as it was (IEC 60870-5-104, 8). Answers of other types or with more
/// objects have no tag. If the command came with none, its answer has none.
pub fn answers_bear_the_tag_of_their_command()
    ensures tagged { (tag : Cp56) (x : List ℕ) (pieces : List (List ℕ)) →
        AreTagged (Some tag) (x ∷ []) pieces → 45 ≤ slice_index x 0 → slice_index x 0 ≤ 49 →
        slice_index x 1 % 128 ≡ 1 →
        pieces ≡ ((slice_index x 0 + 13) ∷ (drop 1 x ++ tag.0)) ∷ [] }
    ensures other_types { (tag : Cp56) (x : List ℕ) (pieces : List (List ℕ)) →
        AreTagged (Some tag) (x ∷ []) pieces → (slice_index x 0 < 45) ⊎ (49 < slice_index x 0) →
        pieces ≡ x ∷ [] }
    ensures more_objects { (tag : Cp56) (x : List ℕ) (pieces : List (List ℕ)) →
        AreTagged (Some tag) (x ∷ []) pieces → 2 ≤ slice_index x 1 % 128 → pieces ≡ x ∷ [] }
    ensures more_pieces { (tag : Cp56) (plain pieces : List (List ℕ)) →
        AreTagged (Some tag) plain pieces → 2 ≤ length plain → pieces ≡ plain }
    ensures no_tag { (plain pieces : List (List ℕ)) → AreTagged None plain pieces →
        pieces ≡ plain }
{
    octets_stand_where_the_standard_has_them();
    tagged_types_are_thirteen_above();
    tags_stand_behind_the_element();
}

/// Of each answer of a station to a command the control centre is given what the station said, once
/// (IEC 60870-5-101, 7.2.3). An answer with one object is one ASDU: the answer as it came, with the
/// time tag of the newest command of its type and addresses that went to the line on the
/// connection, if that command came with one (IEC 60870-5-104, 8). An answer with more objects is
/// given by ASDUs that have its type, its SQ, its cause octet and, joined, its objects, without a
/// tag. Each is handed over once and in its order, right behind what became of commands before: all
/// of them, or up to one that has no place.
pub fn each_answer_is_given_once()
    ensures one { (p : Setup) (at : ℕ) (report : List ℕ) (before after : History) →
        IsGivenOn p at report before after → slice_index report 1 % 128 ≡ 1 →
        IsGivenOnce p at report before after }
    ensures more { (p : Setup) (at : ℕ) (report : List ℕ) (before after : History) →
        IsGivenOn p at report before after → 2 ≤ slice_index report 1 % 128 →
        IsGivenInPieces p at report before after }
{
    answers_are_passed_on_as_they_came();
    answers_bear_the_tag_of_their_command();
    octets_stand_where_the_standard_has_them();
    objects_have_all_their_parts();
}

/// On each log: if the line's octets bring a station's answer to a command, that is given to the
/// control centre while data transfer runs, as `each_answer_is_given_once` says. While it is
/// stopped nothing of it is given. Nothing else becomes of commands with this answer. Answers are
/// of the types 45 to 49 and 100, so of each type that goes to a station (IEC 60870-5-101,
/// 7.2.1.1).
pub fn answers_of_stations_are_heeded()
    ensures types { AllByRecursion (λ code. is_answer_code code ≡ true)
        (45 ∷ 46 ∷ 47 ∷ 48 ∷ 49 ∷ 100 ∷ []) }
    ensures heard { (station : ℕ) (asdu : ArrayVec ℕ) →
        is_answer_code (slice_index asdu.items 0) ≡ true →
        answer_in (Report station asdu) ≡ Some asdu.items }
    ensures heeded { (p : Setup) (log : Log) (at : ℕ) (octets : List ℕ) (c : Course) →
        Runs p (Came at (LineIn octets) ∷ log) c →
        (before : Course) × (left : Course) × Runs p log before × IsLeft p log before left
        × ((report : List ℕ) (v : AsduValue) →
        answer_in (answer_outcome octets left.works.serial) ≡ Some report →
        IsAsdu p.sizes v report →
        IsHeeded p (is_started left.talk) (latest (Came at (LineIn octets) ∷ log)) report
        left.works.history c.works.history) }
{
    each_answer_is_given_once();
    what_is_due_is_given();
    answers_have_the_types_of_commands();
    objects_are_those_of_the_asdu();
    octets_stand_where_the_standard_has_them();
}

/// A report of a monitor type is passed on with all its objects, in the pieces that carry it,
/// whatever its cause, addresses and values; only a negative 'unknown type' (cause 44 with P/N set)
/// is kept back. Of a report of another type nothing goes into the queue, nor of octets that are no
/// ASDU in the sizes of the line (IEC 60870-5-101, 7.1). A report needs as many places as it has
/// pieces.
pub fn reports_of_monitor_types_are_passed_on()
    ensures passed { (sizes : Sizes) (u : AsduValue) (report : List ℕ) → IsAsdu sizes u report →
        (row u.kind).monitor ≡ true → (slice_index report 2 % 128 ≡ 108 → ⊥) →
        monitor_objects sizes report ≡ objects_of sizes report }
    ensures pieces { (sizes : Sizes) (u : AsduValue) (report : List ℕ) → IsAsdu sizes u report →
        (row u.kind).monitor ≡ true → (slice_index report 2 % 128 ≡ 108 → ⊥) →
        (pieces_of_report sizes report ≡ report_pieces u)
        × (parts_of sizes report ≡ length (pieces_of_report sizes report)) }
    ensures kept_back { (sizes : Sizes) (u : AsduValue) (report : List ℕ) →
        IsAsdu sizes u report →
        ((row u.kind).monitor ≡ false) ⊎ (slice_index report 2 % 128 ≡ 108) →
        (monitor_objects sizes report ≡ []) × (pieces_of_report sizes report ≡ [])
        × (parts_of sizes report ≡ 0) }
    ensures unread { (sizes : Sizes) (report : List ℕ) → AreOctets report →
        IsNoAsdu sizes report → (monitor_objects sizes report ≡ [])
        × (pieces_of_report sizes report ≡ []) × (parts_of sizes report ≡ 0) }
{
    monitor_reports_are_passed_on();
    pieces_carry_the_report();
    objects_are_those_of_the_asdu();
    objects_have_all_their_parts();
    octets_stand_where_the_standard_has_them();
}

/// A report goes on octet by octet, whatever its type, its cause, its addresses and its values. One
/// with one object is one ASDU in the sizes of IEC 60870-5-104. Its element, its quality and its
/// time tag are as they came. Of a report with more objects each ASDU has the type, the SQ, the
/// cause octet, the originator and the common address, and at most 249 octets. What stands behind
/// their headers is, joined, what stands behind the report's, but for the size of the addresses.
/// With SQ 1 each begins at the address behind the objects of those before (IEC 60870-5-101, 7.1
/// and 7.2).
pub fn reports_go_on_octet_by_octet()
    ensures one { (sizes : Sizes) (u : AsduValue) (report : List ℕ) → IsAsdu sizes u report →
        (row u.kind).monitor ≡ true → (slice_index report 2 % 128 ≡ 108 → ⊥) →
        slice_index report 1 % 128 ≡ 1 →
        pieces_of_report sizes report ≡ answer_form sizes report ∷ [] }
    ensures heads { (sizes : Sizes) (u : AsduValue) (report : List ℕ) → IsAsdu sizes u report →
        (row u.kind).monitor ≡ true → (slice_index report 2 % 128 ≡ 108 → ⊥) →
        AllByRecursion (λ piece. (slice_index piece 0 ≡ slice_index report 0)
        × (slice_index piece 1 / 128 ≡ slice_index report 1 / 128)
        × (slice_index piece 2 ≡ slice_index report 2) × (length piece ≤ 249))
        (pieces_of_report sizes report) }
    ensures addresses { (sizes : Sizes) (u : AsduValue) (report : List ℕ) → IsAsdu sizes u report →
        (row u.kind).monitor ≡ true → (slice_index report 2 % 128 ≡ 108 → ⊥) →
        AllByRecursion (λ piece. take 4 (drop 2 piece) ≡ cause_in_two sizes.cause report
        ++ common_address_in_two sizes.ca (common_address_place sizes.cause) report)
        (pieces_of_report sizes report) }
    ensures apart { (sizes : Sizes) (u : AsduValue) (report : List ℕ) → IsAsdu sizes u report →
        (row u.kind).monitor ≡ true → (slice_index report 2 % 128 ≡ 108 → ⊥) →
        slice_index report 1 < 128 →
        flat_map (λ piece. drop 6 piece) (pieces_of_report sizes report)
        ≡ wide_objects sizes.ioa (content_octets u.kind) (slice_index report 1)
        (drop (objects_place sizes.cause sizes.ca) report) }
    ensures together { (sizes : Sizes) (u : AsduValue) (report : List ℕ) → IsAsdu sizes u report →
        (row u.kind).monitor ≡ true → (slice_index report 2 % 128 ≡ 108 → ⊥) →
        128 ≤ slice_index report 1 →
        (flat_map (λ piece. drop 9 piece) (pieces_of_report sizes report)
        ≡ drop (address_octets sizes.ioa) (drop (objects_place sizes.cause sizes.ca) report))
        × BeginAt (object_address_at sizes.ioa (objects_place sizes.cause sizes.ca) report)
        (pieces_of_report sizes report) }
{
    answers_are_passed_on_as_they_came();
    octets_stand_where_the_standard_has_them();
    pieces_carry_the_report();
    reports_of_monitor_types_are_passed_on();
}
