//! What holds of all octets that are shown.
ghost use Rattle.std.specs.Prelude.{◌≡◌, ◌+◌, ◌-◌, ◌/◌, ◌%◌, ◌^◌, ◌++◌, ◌∷◌, [], ℕ, List, codes};
ghost use Rattle.std.specs.Prelude.{Some};
ghost use Rattle.std.specs.Prelude.{if◌then◌else◌};
ghost use Rattle.std.specs.Fmt.{decimal};
ghost use Rattle.std.specs.List.{flat_map};
ghost use Rattle.ft12.specs.declared.frame.Frame.{Frame};
ghost use Rattle.ft12.specs.declared.frame.Frame.TheVariants.{Single, Fixed, Data};
ghost use Rattle.ft12.specs.declared.frame.Front.TheVariants.{Whole, More, Never};
ghost use Rattle.ft12.specs.declared.frame.Why.{Why};
ghost use Rattle.apci.specs.declared.apdu.Apdu.{Apdu};
ghost use Rattle.apci.specs.declared.apdu.Apdu.TheVariants.{I, S, U};
ghost use Rattle.apci.specs.declared.apdu.Front.TheVariants.{Whole as TcpWhole};
ghost use Rattle.apci.specs.declared.apdu.Front.TheVariants.{More as TcpMore, Never as TcpNever};
ghost use Rattle.apci.specs.declared.apdu.Uf.{Uf};
ghost use Rattle.apci.specs.declared.apdu.Why.{Why as ApduWhy};
ghost use Rattle.asdu.specs.Asdu.{AsduValue, IsAsdu, IsNoAsdu};
ghost use Rattle.asdu.specs.Refusals.{refusal};
ghost use Rattle.asdu.specs.Sizes.{tcp};
ghost use Rattle.asdu.specs.declared.sizes.Sizes.{Sizes};
ghost use Rattle.elements.specs.Octets.{AreOctets};
ghost use Rattle.elements.specs.declared.tag.Verdict.TheVariants.{Good};
ghost use Rattle.words.specs.Condition.{rest_line, with_rest};
ghost use Rattle.words.specs.LineFacts.{frame_condition, frame_line, frame_lines};
ghost use Rattle.words.specs.LineFacts.{front_condition, front_lines};
ghost use Rattle.words.specs.TcpFacts.{apdu_condition, apdu_line, apdu_lines, function_text};
ghost use Rattle.words.specs.TcpFacts.{number_of as apdu_number};
ghost use Rattle.words.specs.TcpFacts.{front_condition as apdu_front, front_lines as apdu_fronts};
ghost use Rattle.words.specs.UnitFacts.{header_line, object_line, unit_condition, unit_lines};
ghost use Rattle.words.specs.UnitFacts.{verdict_text};
ghost use Rattle.words.specs.declared.facts.condition.Condition.{Condition};
ghost use Rattle.words.specs.declared.facts.condition.Condition.TheVariants as condition;
ghost use Rattle.words.specs.declared.facts.sizes.LineSizes.{LineSizes};

use asdu::objects_are_those_of_the_asdu;

/// Octets that are an ASDU are shown as that ASDU: its header, and a line for each of its objects
/// in their order, which is no fault. Octets that are none are a fault. What a frame or an APDU
/// carries is shown behind its own line, and judged so. Octets behind it are a fault, however many.
pub fn asdus_are_shown()
    ensures asdus { (s : Sizes) (u : AsduValue) (octets : List ℕ) → IsAsdu s u octets →
        (unit_lines s octets ≡ header_line u ++ flat_map (object_line u.kind) u.infos)
        × (unit_condition s octets ≡ condition.Good) }
    ensures others { (s : Sizes) (first : ℕ) (octets : List ℕ) → AreOctets (first ∷ octets) →
        IsNoAsdu s (first ∷ octets) → unit_condition s (first ∷ octets) ≡ condition.Faulty }
    ensures frames { (s : LineSizes) (c address : ℕ) (octets : List ℕ) →
        let frame = Data c address (record { items = octets }) in
        let fixed = Fixed c address in
        (frame_lines s frame ≡ frame_line frame ++ unit_lines s.asdu octets)
        × (frame_condition s frame ≡ unit_condition s.asdu octets)
        × (frame_lines s fixed ≡ frame_line fixed) × (frame_condition s fixed ≡ condition.Good) }
    ensures apdus { (ns nr : ℕ) (octets : List ℕ) →
        let apdu = I ns nr (record { items = octets }) in
        (apdu_lines apdu ≡ apdu_line apdu ++ unit_lines tcp octets)
        × (apdu_condition apdu ≡ unit_condition tcp octets)
        × (apdu_lines (S nr) ≡ apdu_line (S nr)) × (apdu_condition (S nr) ≡ condition.Good) }
    ensures behind { (s : LineSizes) (n len : ℕ) (frame : Frame) (apdu : Apdu) →
        (front_lines s n (Whole frame len) ≡ frame_lines s frame ++ rest_line (n - len))
        × (front_condition s n (Whole frame len) ≡ with_rest (n - len) (frame_condition s frame))
        × (apdu_fronts n (TcpWhole apdu len) ≡ apdu_lines apdu ++ rest_line (n - len))
        × (apdu_front n (TcpWhole apdu len) ≡ with_rest (n - len) (apdu_condition apdu)) }
    ensures moments { (ms : ℕ) → verdict_text (Good ms) ≡ codes "good " ++ decimal ms }
    ensures rest { (n : ℕ) (one : Condition) →
        (rest_line (n + 1) ≡ codes "rest " ++ decimal (n + 1) ++ 10 ∷ [])
        × (with_rest (n + 1) one ≡ condition.Faulty) × (with_rest 0 one ≡ one) }
{
    objects_are_those_of_the_asdu();
}

/// Octets that begin a frame or an APDU are told as truncated, however many they are. Those that
/// begin none are told by the number of the refusal and its place. Both are a fault, and so is what
/// a frame carries that is no ASDU, which is told by its number. The single character and a U
/// format have a line of their own, and are none.
pub fn octets_that_are_no_frame_are_a_fault()
    ensures line { (s : LineSizes) (n place : ℕ) (why : Why) →
        (front_lines s n More ≡ codes "truncated" ++ 10 ∷ [])
        × (front_condition s n More ≡ condition.Faulty)
        × (front_condition s n (Never place why) ≡ condition.Faulty) }
    ensures connection { (n place : ℕ) (why : ApduWhy) →
        (apdu_fronts n TcpMore ≡ codes "truncated" ++ 10 ∷ [])
        × (apdu_front n TcpMore ≡ condition.Faulty)
        × (apdu_fronts n (TcpNever place why)
        ≡ codes "refused " ++ decimal (apdu_number why) ++ codes " at " ++ decimal place
        ++ 10 ∷ [])
        × (apdu_front n (TcpNever place why) ≡ condition.Faulty) }
    ensures asdus { (s : Sizes) (first n : ℕ) (octets : List ℕ) →
        refusal s (first ∷ octets) ≡ Some n →
        (unit_lines s (first ∷ octets) ≡ codes "asdu refused " ++ decimal n ++ 10 ∷ [])
        × (unit_condition s (first ∷ octets) ≡ condition.Faulty) }
    ensures alone { (s : LineSizes) (f : Uf) →
        (frame_lines s Single ≡ codes "single" ++ 10 ∷ [])
        × (frame_condition s Single ≡ condition.Good)
        × (apdu_lines (U f) ≡ codes "U " ++ function_text f ++ 10 ∷ [])
        × (apdu_condition (U f) ≡ condition.Good) }
{}
