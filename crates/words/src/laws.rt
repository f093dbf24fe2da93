//! What holds of the words of every element, tag and frame.
ghost use Rattle.std.specs.Prelude.{◌≡◌, ℕ, ◌+◌, ◌-◌, ◌*◌, ◌/◌, ◌%◌, ◌^◌, ◌==◌, ◌&&◌, codes};
ghost use Rattle.std.specs.Prelude.{[], ◌∷◌, ◌++◌, if◌then◌else◌, nat_le, map, List};
ghost use Rattle.std.specs.Prelude.{slice_index, Some, None, true, false};
ghost use Rattle.std.specs.Fmt.{decimal, signed_decimal};
ghost use Rattle.ft12.specs.declared.frame.Frame.{Frame};
ghost use Rattle.ft12.specs.declared.frame.Frame.TheVariants.{Fixed, Data};
ghost use Rattle.ft12.specs.declared.frame.Front.TheVariants.{Whole, More, Never};
ghost use Rattle.ft12.specs.declared.frame.Why.{Why};
ghost use Rattle.apci.specs.declared.apdu.Front.TheVariants as apci;
ghost use Rattle.asdu.specs.Asdu.{AsduValue, Info, IsAsdu};
ghost use Rattle.asdu.specs.declared.sizes.Sizes.{Sizes};
ghost use Rattle.elements.specs.Names.{cause_name, type_name};
ghost use Rattle.elements.specs.Types.{value_shown};
ghost use Rattle.elements.specs.declared.types.TypeId.{TypeId};
ghost use Rattle.elements.specs.declared.types.TypeId.TheVariants as types;
ghost use Rattle.words.specs.declared.facts.sizes.LineSizes.{LineSizes};
ghost use Rattle.words.specs.Faults.{rest_words};
ghost use Rattle.words.specs.Lines.{control_words, fault_of, frame_words, front_words};
ghost use Rattle.words.specs.Lines.{primary_name, secondary_name};
ghost use Rattle.words.specs.Tags.{tag_words};
ghost use Rattle.words.specs.Told.{command_told, fraction_told};
ghost use Rattle.words.specs.Told.{set_point_told, told};
ghost use Rattle.words.specs.Units.{asdu_words, cause_text, kind_words, object_words};
ghost use Rattle.words.specs.Units.{objects_words, place_words, type_text};
ghost use Rattle.words.specs.Values.{value_words};

/// The words of a command say what it is to do, whether it selects or executes, and its qualifier,
/// whatever its octets are (7.2.6.15 to 7.2.6.17, 7.2.6.22, 7.2.6.26 and 7.2.6.39).
pub fn commands_are_told_bit_by_bit()
    ensures switches { (o : ℕ) → (value_words types.CScNa1 (o ∷ [])
        ≡ (if o % 2 == 0 then codes "off" else codes "on") ++ command_told o)
        × (value_words types.CDcNa1 (o ∷ [])
        ≡ (if o % 4 == 1 then codes "off"
        else (if o % 4 == 2 then codes "on" else codes "not permitted")) ++ command_told o)
        × (value_words types.CRcNa1 (o ∷ [])
        ≡ (if o % 4 == 1 then codes "lower"
        else (if o % 4 == 2 then codes "higher" else codes "not permitted")) ++ command_told o) }
    ensures set_points { (a b q : ℕ) → let xs = a ∷ b ∷ q ∷ [] in
        (value_words types.CSeNa1 xs
        ≡ fraction_told (value_shown types.CSeNa1 xs) ++ set_point_told q)
        × (value_words types.CSeNb1 xs
        ≡ signed_decimal (value_shown types.CSeNb1 xs) ++ set_point_told q) }
    ensures interrogations { (o : ℕ) → value_words types.CIcNa1 (o ∷ [])
        ≡ (if o == 20 then codes "station"
        else (if nat_le 21 o && nat_le o 36 then codes "group " ++ decimal (o - 20)
        else codes "QOI " ++ decimal o)) }
    ensures tagged { (xs : List ℕ) → (value_words types.CScTa1 xs ≡ value_words types.CScNa1 xs)
        × (value_words types.CDcTa1 xs ≡ value_words types.CDcNa1 xs)
        × (value_words types.CRcTa1 xs ≡ value_words types.CRcNa1 xs)
        × (value_words types.CSeTa1 xs ≡ value_words types.CSeNa1 xs)
        × (value_words types.CSeTb1 xs ≡ value_words types.CSeNb1 xs) }
{}

/// Octets that are an ASDU are told as that ASDU, whatever its fields are (7.2). First come the
/// names of its type and its cause, P/N and test, its originator, SQ and its common address. Then
/// come its objects in their order, each with its address, its value and its tag.
pub fn asdus_are_told_field_by_field()
    ensures asdus { (s : Sizes) (u : AsduValue) (octets : List ℕ) → IsAsdu s u octets →
        asdu_words s octets ≡ (kind_words (slice_index octets 0) u.cause
        ++ place_words u.originator (slice_index octets 1) u.ca)
        ++ objects_words u.kind true u.infos }
    ensures headers { (kind cause originator vsq ca : ℕ) → (kind_words kind cause
        ≡ type_text kind ++ (codes " " ++ (cause_text (cause % 64)
        ++ (told 6 cause (codes ", negative") ++ told 7 cause (codes ", test")))))
        × (place_words originator vsq ca
        ≡ (if originator == 0 then [] else codes ", originator " ++ decimal originator)
        ++ (told 7 vsq (codes ", sequence") ++ (codes "  CA " ++ decimal ca))) }
    ensures names { (n : ℕ) (text : List ℕ) → (type_name n ≡ Some text → type_text n ≡ text)
        × (cause_name n ≡ Some text → cause_text n ≡ text)
        × (type_name n ≡ None → type_text n ≡ codes "type" ++ (codes " " ++ decimal n))
        × (cause_name n ≡ None → cause_text n ≡ codes "cause" ++ (codes " " ++ decimal n)) }
    ensures objects { (t : TypeId) (first : Info) (infos : List Info) →
        (objects_words t true (first ∷ infos)
        ≡ codes "  " ++ (object_words t first ++ objects_words t false infos))
        × (objects_words t false (first ∷ infos)
        ≡ codes "; " ++ (object_words t first ++ objects_words t false infos))
        × (objects_words t false [] ≡ []) }
    ensures each { (t : TypeId) (address : ℕ) (element tag : List ℕ) →
        (object_words t (record { address = address; element = element; tag = None })
        ≡ decimal address ++ (codes " = " ++ (value_words t element ++ [])))
        × (object_words t (record { address = address; element = element; tag = Some tag })
        ≡ decimal address ++ (codes " = " ++ (value_words t element ++ tag_words tag))) }
{}

/// A frame of the line is told by the function of its direction (IEC 60870-5-2, 5.1.2; bit 6 is
/// PRM), its address, and FCB if FCV is 1, or ACD and DFC. What it carries stands behind it, and
/// then how many octets follow.
pub fn frames_are_told_field_by_field()
    ensures asked { (c a : ℕ) → c / 2 ^ 6 % 2 ≡ 1 → control_words c a
        ≡ primary_name (c % 2 ^ 4) ++ (codes " to " ++ (decimal a
        ++ (if c / 2 ^ 4 % 2 == 1
        then (if c / 2 ^ 5 % 2 == 1 then codes " (FCB 1)" else codes " (FCB 0)") else []))) }
    ensures answered { (c a : ℕ) → c / 2 ^ 6 % 2 ≡ 0 → control_words c a
        ≡ secondary_name (c % 2 ^ 4) ++ (codes " from " ++ (decimal a
        ++ (if c / 2 ^ 5 % 2 == 1
        then (if c / 2 ^ 4 % 2 == 1 then codes ", ACD, DFC" else codes ", ACD")
        else (if c / 2 ^ 4 % 2 == 1 then codes ", DFC" else [])))) }
    ensures functions { let none = codes "reserved function" in
        (map primary_name (0 ∷ 1 ∷ 2 ∷ 3 ∷ 4 ∷ 5 ∷ 6 ∷ 7 ∷ [])
        ≡ codes "reset link" ∷ codes "reset process" ∷ none ∷ codes "user data"
        ∷ codes "user data, no reply" ∷ none ∷ none ∷ none ∷ [])
        × (map primary_name (8 ∷ 9 ∷ 10 ∷ 11 ∷ 12 ∷ 13 ∷ 14 ∷ 15 ∷ [])
        ≡ codes "access demand" ∷ codes "link status" ∷ codes "poll class 1"
        ∷ codes "poll class 2" ∷ none ∷ none ∷ none ∷ none ∷ [])
        × (map secondary_name (0 ∷ 1 ∷ 2 ∷ 3 ∷ 4 ∷ 5 ∷ 6 ∷ 7 ∷ [])
        ≡ codes "ACK" ∷ codes "NACK" ∷ none ∷ none ∷ none ∷ none ∷ none ∷ none ∷ [])
        × (map secondary_name (8 ∷ 9 ∷ 10 ∷ 11 ∷ 12 ∷ 13 ∷ 14 ∷ 15 ∷ [])
        ≡ codes "user data" ∷ codes "no data" ∷ none ∷ codes "link status" ∷ none ∷ none
        ∷ codes "not functioning" ∷ codes "not implemented" ∷ []) }
    ensures frames { (s : LineSizes) (c a first : ℕ) (octets : List ℕ) →
        (frame_words s (Fixed c a) ≡ control_words c a)
        × (frame_words s (Data c a (record { items = [] })) ≡ control_words c a ++ [])
        × (frame_words s (Data c a (record { items = first ∷ octets }))
        ≡ control_words c a ++ (codes "  " ++ asdu_words s.asdu (first ∷ octets))) }
    ensures fronts { (s : LineSizes) (n len place : ℕ) (frame : Frame) (why : Why) →
        (front_words s n (Whole frame len) ≡ frame_words s frame ++ rest_words (n - len))
        × (front_words s n More ≡ codes "octets of a frame (" ++ (decimal n ++ codes ")"))
        × (front_words s n (Never place why)
        ≡ codes "no frame: " ++ (fault_of why ++ (codes " at " ++ decimal place))) }
    ensures rest { (n : ℕ) → (rest_words (n + 1) ≡ codes "  rest " ++ decimal (n + 1))
        × (rest_words 0 ≡ []) }
{}
