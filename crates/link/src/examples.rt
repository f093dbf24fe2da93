//! The tables by worked examples: what frames say in answer, what requests look like, and what
//! turns begin with.
ghost use Rattle.std.specs.Prelude.{◌≡◌, [], ◌∷◌, true, false, Some, None};
ghost use Rattle.link.specs.declared.control.Control.TheVariants as control;
ghost use Rattle.link.specs.declared.control.PrimaryFunction.TheVariants as primary;
ghost use Rattle.link.specs.declared.control.SecondaryFunction.TheVariants as secondary;
ghost use Rattle.link.specs.Control.{is_primary, is_secondary, fcb_bit, fcv_bit, acd_bit, dfc_bit};
ghost use Rattle.link.specs.Control.{reserved_bit, function_code, octet_of};
ghost use Rattle.link.specs.Answers.{Single, Fixed, Status, Reset, Counted, Class1, Class2};
ghost use Rattle.link.specs.Answers.{Command, Ready, Confirmed, Busy, Report, NoData, Unable};
ghost use Rattle.link.specs.Answers.{answer_of};
ghost use Rattle.link.specs.Examples.{octet, other_octet, in_state, two_repeats, unreset_with};
ghost use Rattle.link.specs.Examples.{unsure_in, missed, silent};
ghost use Rattle.link.specs.Examples.{reset_with, answer_by, answer_behind};
ghost use Rattle.link.specs.Flags.{clear, flags_in};
ghost use Rattle.link.specs.Procedure.{Down, Available, Next, Held, after_silence, has_repeats};
ghost use Rattle.link.specs.Procedure.{Once, Twice, after_answer, short_silence, spent_silence};
ghost use Rattle.link.specs.Requests.{Foreign, Unknown, Asks, request_frame, reading_of};
ghost use Rattle.link.specs.Secondary.{data_frame, control_of, short_of};
ghost use Rattle.link.specs.Turns.{Starting, Commanding, Polling, Class1Polling, Over, wants};
ghost use Rattle.link.specs.Turns.{wanted, place_after};
ghost use Rattle.link.specs.Primary.{outcome_by, with_gap};
ghost use Rattle.link.specs.declared.outcome.Outcome.TheVariants as outcome;

/// What a secondary station's frames say in answer to each request (IEC 60870-5-2, 5.1: the
/// functions of a secondary station; what `E5` stands for is this gateway's own profile).
pub fn answers_by_example()
    ensures status { (answer_of 1 Status (Fixed 0x0B 1) ≡ Some Ready)
        × (answer_of 1 Status (Fixed 0x3B 1) ≡ Some Ready)
        × (answer_of 1 Status (Fixed 0x0E 1) ≡ Some Unable)
        × (answer_of 1 Status (Fixed 0x0F 1) ≡ Some Unable)
        × (answer_of 1 Status (Fixed 0x00 1) ≡ None)
        × (answer_of 1 Status Single ≡ None)
        × (answer_of 1 Status (data_frame 0x08 1 octet) ≡ None) }
    ensures reset { (answer_of 1 Reset (Fixed 0x00 1) ≡ Some Confirmed)
        × (answer_of 1 Reset Single ≡ Some Confirmed)
        × (answer_of 1 Reset (Fixed 0x01 1) ≡ None)
        × (answer_of 1 Reset (Fixed 0x0B 1) ≡ None)
        × (answer_of 1 Reset (Fixed 0x0E 1) ≡ None)
        × (answer_of 1 Reset (Fixed 0x0F 1) ≡ None)
        × (answer_of 1 Reset (data_frame 0x08 1 octet) ≡ None) }
    ensures class1 { (answer_of 1 (Counted true Class1) (data_frame 0x28 1 octet)
        ≡ Some (Report octet))
        × (answer_of 1 (Counted true Class1) (data_frame 0x00 1 octet) ≡ None)
        × (answer_of 1 (Counted true Class1) (Fixed 0x09 1) ≡ Some NoData)
        × (answer_of 1 (Counted true Class1) Single ≡ Some NoData)
        × (answer_of 1 (Counted true Class1) (Fixed 0x0E 1) ≡ Some Unable)
        × (answer_of 1 (Counted true Class1) (Fixed 0x0F 1) ≡ Some Unable)
        × (answer_of 1 (Counted true Class1) (Fixed 0x00 1) ≡ None)
        × (answer_of 1 (Counted true Class1) (Fixed 0x08 1) ≡ None) }
    ensures class2 { (answer_of 1 (Counted false Class2) (data_frame 0x08 1 octet)
        ≡ Some (Report octet))
        × (answer_of 1 (Counted false Class2) (Fixed 0x29 1) ≡ Some NoData)
        × (answer_of 1 (Counted false Class2) Single ≡ Some NoData)
        × (answer_of 1 (Counted false Class2) (Fixed 0x0F 1) ≡ Some Unable)
        × (answer_of 1 (Counted false Class2) (Fixed 0x0B 1) ≡ None) }
    ensures command { (answer_of 1 (Counted true (Command octet)) (Fixed 0x00 1) ≡ Some Confirmed)
        × (answer_of 1 (Counted true (Command octet)) Single ≡ Some Confirmed)
        × (answer_of 1 (Counted true (Command octet)) (Fixed 0x01 1) ≡ Some Busy)
        × (answer_of 1 (Counted true (Command octet)) (Fixed 0x0E 1) ≡ Some Unable)
        × (answer_of 1 (Counted true (Command octet)) (Fixed 0x0F 1) ≡ Some Unable)
        × (answer_of 1 (Counted true (Command octet)) (Fixed 0x09 1) ≡ None)
        × (answer_of 1 (Counted true (Command octet)) (data_frame 0x08 1 octet) ≡ None) }
    ensures strangers { (answer_of 1 Status (Fixed 0x0B 2) ≡ None)
        × (answer_of 1 Status (Fixed 0x4B 1) ≡ None)
        × (answer_of 1 Reset (Fixed 0x00 2) ≡ None)
        × (answer_of 1 Reset (Fixed 0x40 1) ≡ None)
        × (answer_of 1 (Counted true Class1) (data_frame 0x08 2 octet) ≡ None)
        × (answer_of 1 (Counted true Class1) (data_frame 0x48 1 octet) ≡ None) }
    ensures flags { (flags_in (Fixed 0x29 1) ≡ record { acd = true; dfc = false })
        × (flags_in (Fixed 0x11 1) ≡ record { acd = false; dfc = true })
        × (flags_in (data_frame 0x38 1 octet) ≡ record { acd = true; dfc = true })
        × (flags_in (Fixed 0x0F 1) ≡ clear)
        × (flags_in (Fixed 0x70 1) ≡ clear)
        × (flags_in Single ≡ clear) }
    ensures stations { (short_of 0 1 [] ≡ Single) × (short_of 0 1 (octet ∷ []) ≡ Fixed 0x20 1)
        × (short_of 9 1 [] ≡ Single) × (short_of 9 1 (octet ∷ []) ≡ Fixed 0x29 1)
        × (control_of 8 [] ≡ 0x08) × (control_of 8 (octet ∷ []) ≡ 0x28)
        × (control_of 11 [] ≡ 0x0B) × (control_of 1 (octet ∷ []) ≡ 0x21) }
    ensures outcome_for { (outcome_by 3 Reset Confirmed ≡ outcome.Started 3)
        × (outcome_by 3 (Counted true (Command octet)) Confirmed ≡ outcome.Accepted 3)
        × (outcome_by 3 (Counted true (Command octet)) Busy ≡ outcome.Busy 3)
        × (outcome_by 3 (Counted true Class1) NoData ≡ outcome.Empty 3)
        × (outcome_by 3 (Counted true Class1) (Report octet) ≡ outcome.Report 3 (record {
          items = octet;
        }))
        × (outcome_by 3 Status Ready ≡ outcome.None)
        × (outcome_by 3 Status Unable ≡ outcome.Down 3)
        × (outcome_by 3 (Counted false Class2) Unable ≡ outcome.Down 3) }
    ensures gaps { (with_gap None (outcome_by 3 Reset Confirmed) ≡ outcome.Started 3)
        × (with_gap (Some 2) (outcome_by 3 Reset Confirmed) ≡ outcome.StartedGap 3 2)
        × (with_gap (Some 2) (outcome_by 3 (Counted true Class1) NoData) ≡ outcome.Empty 3)
        × (with_gap (Some 2) (outcome_by 3 Status Unable) ≡ outcome.Down 3) }
{}

/// The bits of control octets and the values of whole ones (IEC 60870-5-2:1992, 5.1.2).
pub fn controls_by_example()
    ensures bits { (is_primary 0x40 ≡ true) × (is_primary 0xBF ≡ false)
        × (is_secondary 0x40 ≡ false) × (is_secondary 0xBF ≡ true)
        × (fcb_bit 0x20 ≡ true) × (fcb_bit 0xDF ≡ false)
        × (fcv_bit 0x10 ≡ true) × (fcv_bit 0xEF ≡ false)
        × (acd_bit 0x20 ≡ true) × (acd_bit 0xDF ≡ false)
        × (dfc_bit 0x10 ≡ true) × (dfc_bit 0xEF ≡ false)
        × (reserved_bit 0x80 ≡ true) × (reserved_bit 0x7F ≡ false)
        × (function_code 0xF0 ≡ 0) × (function_code 0x0F ≡ 15) }
    ensures primary { (octet_of (control.Primary false false false primary.ResetLink) ≡ 0x40)
        × (octet_of (control.Primary false false false primary.ResetProcess) ≡ 0x41)
        × (octet_of (control.Primary false true true primary.UserData) ≡ 0x73)
        × (octet_of (control.Primary false false false primary.UserDataUnconfirmed) ≡ 0x44)
        × (octet_of (control.Primary false false false primary.AccessDemand) ≡ 0x48)
        × (octet_of (control.Primary false false false primary.LinkStatus) ≡ 0x49)
        × (octet_of (control.Primary false true true primary.Class1) ≡ 0x7A)
        × (octet_of (control.Primary false false true primary.Class2) ≡ 0x5B)
        × (octet_of (control.Primary true true false primary.Special15) ≡ 0xEF) }
    ensures secondary { (octet_of (control.Secondary false false false secondary.Confirm) ≡ 0x00)
        × (octet_of (control.Secondary false false true secondary.Busy) ≡ 0x11)
        × (octet_of (control.Secondary false true false secondary.UserData) ≡ 0x28)
        × (octet_of (control.Secondary false true false secondary.NoData) ≡ 0x29)
        × (octet_of (control.Secondary false false false secondary.LinkStatus) ≡ 0x0B)
        × (octet_of (control.Secondary false false false secondary.NotFunctioning) ≡ 0x0E)
        × (octet_of (control.Secondary true true true secondary.NotImplemented) ≡ 0xBF) }
{}

/// What each request looks like, and what a frame asks for (IEC 60870-5-2, 5.1: PRM 1, and FCV 1
/// with the frame count bit for user data and requests for data).
pub fn requests_by_example()
    ensures frames { (request_frame 1 Status ≡ Fixed 0x49 1)
        × (request_frame 1 Reset ≡ Fixed 0x40 1)
        × (request_frame 1 (Counted true Class1) ≡ Fixed 0x7A 1)
        × (request_frame 1 (Counted false Class1) ≡ Fixed 0x5A 1)
        × (request_frame 1 (Counted true Class2) ≡ Fixed 0x7B 1)
        × (request_frame 1 (Counted false Class2) ≡ Fixed 0x5B 1)
        × (request_frame 1 (Counted true (Command octet)) ≡ data_frame 0x73 1 octet)
        × (request_frame 1 (Counted false (Command octet)) ≡ data_frame 0x53 1 octet) }
    ensures readings { (reading_of 1 (Fixed 0x49 1) ≡ Asks Status)
        × (reading_of 1 (Fixed 0x69 1) ≡ Asks Status)
        × (reading_of 1 (Fixed 0x40 1) ≡ Asks Reset)
        × (reading_of 1 (Fixed 0x7A 1) ≡ Asks (Counted true Class1))
        × (reading_of 1 (Fixed 0x5B 1) ≡ Asks (Counted false Class2))
        × (reading_of 1 (data_frame 0x73 1 octet) ≡ Asks (Counted true (Command octet))) }
    ensures strangers { (reading_of 1 (Fixed 0x49 2) ≡ Foreign)
        × (reading_of 1 (Fixed 0x09 1) ≡ Foreign)
        × (reading_of 1 Single ≡ Foreign)
        × (reading_of 1 (data_frame 0x33 1 octet) ≡ Foreign) }
    ensures others { (reading_of 1 (Fixed 0x4A 1) ≡ Unknown)
        × (reading_of 1 (Fixed 0x4B 1) ≡ Unknown)
        × (reading_of 1 (Fixed 0x44 1) ≡ Unknown)
        × (reading_of 1 (Fixed 0x73 1) ≡ Unknown)
        × (reading_of 1 (Fixed 0x59 1) ≡ Unknown)
        × (reading_of 1 (data_frame 0x73 1 []) ≡ Unknown)
        × (reading_of 1 (data_frame 0x44 1 octet) ≡ Unknown)
        × (reading_of 1 (data_frame 0x43 1 octet) ≡ Unknown)
        × (reading_of 1 (data_frame 0x63 1 octet) ≡ Unknown)
        × (reading_of 1 (data_frame 0x7A 1 octet) ≡ Unknown) }
{}

/// What a turn has next, of a station in each state (this gateway's own profile), with `burst` 2.
/// It is shown with leave to poll and without, and with an unanswered service that is to be sent
/// again at once or isn't. How often that service is sent, with `retries` 2, until it is held or
/// given up, is shown, too.
pub fn turns_by_example()
    ensures starts { (wanted 2 false false (in_state Down false false) None Starting
        ≡ wants Status Starting)
        × (wanted 2 false false (in_state Available false false) None Starting
        ≡ wants Reset Over)
        × (wanted 2 true false (in_state Down true false) (Some octet) Over
        ≡ None) }
    ensures commands { (wanted 2 true false (in_state (Next true) true false) (Some octet) Starting
        ≡ wants (Counted true (Command octet)) Polling)
        × (wanted 2 true false (in_state (Next true) true true) (Some octet) Starting
        ≡ wants (Counted true Class1) (Class1Polling 1))
        × (wanted 2 false false (in_state (Next true) true true) (Some octet) Starting
        ≡ None)
        × (wanted 2 true false (in_state (Next true) true false) (Some octet) Polling
        ≡ wants (Counted true Class1) (Class1Polling 1)) }
    ensures polls { (wanted 2 true false (in_state (Next false) false false) None Polling
        ≡ wants (Counted false Class2) (Class1Polling 0))
        × (wanted 2 true false (in_state (Next true) true false) None (Class1Polling 1)
        ≡ wants (Counted true Class1) (Class1Polling 2))
        × (wanted 2 true false (in_state (Next true) true false) None (Class1Polling 2)
        ≡ None)
        × (wanted 2 true false (in_state (Next true) false false) None (Class1Polling 1)
        ≡ None)
        × (wanted 2 false false (in_state (Next true) true false) None Polling
        ≡ None) }
    ensures held { (wanted 2 true false
        (in_state (Held true Class1 silent) false true) (Some octet) Starting
        ≡ wants (Counted true Class1) Commanding)
        × (wanted 2 false false (in_state (Held true Class1 silent) false false) None Starting
        ≡ None)
        × (wanted 2 false false (in_state (Held true (Command octet) silent) false true) None
        Starting ≡ wants (Counted true (Command octet)) Commanding)
        × (wanted 2 false true (in_state (Held true Class2 (missed 1)) false false) None
        (Class1Polling 0) ≡ wants (Counted true Class2) (Class1Polling 0))
        × (wanted 2 true false (in_state (Held true Class2 (missed 1)) false false) None
        (Class1Polling 0) ≡ None) }
    ensures doubts { (wanted 2 true false (unsure_in (Held true Class1 silent)) None Starting
        ≡ wants Status Over)
        × (wanted 2 false false (unsure_in (Held true Class1 silent)) (Some octet) Starting
        ≡ wants Status Over)
        × (wanted 2 true false (unsure_in (Held true Class1 silent)) None Over ≡ None)
        × (wanted 2 true false (unsure_in (Held true Class1 (missed 1))) None Starting
        ≡ wants (Counted true Class1) Commanding)
        × (wanted 2 true false (unsure_in (Next true)) None Starting
        ≡ wants (Counted true Class2) (Class1Polling 0))
        × (after_answer Status Ready (Held true Class1 silent)
        ≡ Held true Class1 (short_silence 0 Once))
        × (after_silence (two_repeats true) (Counted true Class1) true
        (Held true Class1 (short_silence 2 Once))
        ≡ Held true Class1 (spent_silence (two_repeats true) Once))
        × (after_silence (two_repeats true) Status true
        (Held true Class1 (spent_silence (two_repeats true) Once)) ≡ Held true Class1 silent)
        × (after_answer Status Ready (Held true Class1 (spent_silence (two_repeats true) Once))
        ≡ Held true Class1 (short_silence 0 Twice))
        × (after_silence (two_repeats true) (Counted true Class1) true
        (Held true Class1 (short_silence 1 Twice))
        ≡ Held true Class1 (short_silence 2 Twice))
        × (after_silence (two_repeats true) (Counted true Class1) true
        (Held true Class1 (short_silence 2 Twice)) ≡ Down) }
    ensures repeats { (after_silence (two_repeats true) (Counted true Class1) true (Next true)
        ≡ Held true Class1 (missed 1))
        × (has_repeats (two_repeats true) (Held true Class1 (missed 1)) ≡ true)
        × (after_silence (two_repeats false) (Counted true Class1) true
        (Held true Class1 (missed 1))
        ≡ Held true Class1 (missed 2))
        × (has_repeats (two_repeats false) (Held true Class1 (missed 2)) ≡ true)
        × (after_silence (two_repeats true) (Counted true Class1) true (Held true Class1 (missed 2))
        ≡ Held true Class1 silent)
        × (has_repeats (two_repeats true) (Held true Class1 silent) ≡ false)
        × (after_silence (two_repeats false) (Counted true Class1) true
        (Held true Class1 (missed 2))
        ≡ Down)
        × (after_silence (two_repeats true) (Counted true Class1) true (Held true Class1 silent)
        ≡ Held true Class1 silent)
        × (after_silence (two_repeats true) Status true Available ≡ Down)
        × (after_silence (two_repeats true) Reset true Available ≡ Down) }
    ensures round { (place_after 3 0 ≡ 1) × (place_after 3 1 ≡ 2) × (place_after 3 2 ≡ 0)
        × (place_after 1 0 ≡ 0) }
{}

/// What an outstation answers to each frame (IEC 60870-5-2, 5.1: the functions of a secondary
/// station, and the procedures of unbalanced transmission). When it answers with `E5`, and that DFC
/// is clear, is its own choice. Shown is what it answers before its first reset and after, with
/// reports of each class or none, and to an unchanged frame count bit, to what it doesn't know and
/// to what isn't for it.
pub fn outstations_by_example()
    ensures starts { (answer_by true (unreset_with [] []) (Fixed 0x49 1) ≡ Some (Fixed 0x0B 1))
        × (answer_by true (unreset_with (octet ∷ []) []) (Fixed 0x49 1) ≡ Some (Fixed 0x2B 1))
        × (answer_by true (unreset_with [] (octet ∷ [])) (Fixed 0x49 1) ≡ Some (Fixed 0x0B 1))
        × (answer_by true (unreset_with [] []) (Fixed 0x40 1) ≡ Some Single)
        × (answer_by true (unreset_with (octet ∷ []) []) (Fixed 0x40 1) ≡ Some (Fixed 0x20 1))
        × (answer_by true (unreset_with (octet ∷ []) []) (Fixed 0x7A 1) ≡ None)
        × (answer_by true (unreset_with [] (octet ∷ [])) (Fixed 0x7B 1) ≡ None)
        × (answer_by true (unreset_with [] []) (data_frame 0x73 1 octet) ≡ None) }
    ensures data { (answer_by true (reset_with (octet ∷ []) []) (Fixed 0x7A 1)
        ≡ Some (data_frame 0x08 1 octet))
        × (answer_by true (reset_with (octet ∷ other_octet ∷ []) []) (Fixed 0x7A 1)
        ≡ Some (data_frame 0x28 1 octet))
        × (answer_by true (reset_with [] (octet ∷ other_octet ∷ [])) (Fixed 0x7B 1)
        ≡ Some (data_frame 0x08 1 octet))
        × (answer_by true (reset_with (other_octet ∷ []) (octet ∷ [])) (Fixed 0x7B 1)
        ≡ Some (data_frame 0x28 1 octet))
        × (answer_by true (reset_with [] (octet ∷ [])) (Fixed 0x7A 1) ≡ Some Single)
        × (answer_by true (reset_with [] []) (Fixed 0x7B 1) ≡ Some Single)
        × (answer_by true (reset_with (octet ∷ []) []) (Fixed 0x7B 1) ≡ Some (Fixed 0x29 1)) }
    ensures commands { (answer_by true (reset_with [] []) (data_frame 0x73 1 octet) ≡ Some Single)
        × (answer_by true (reset_with (octet ∷ []) []) (data_frame 0x73 1 octet)
        ≡ Some (Fixed 0x20 1))
        × (answer_by false (reset_with [] []) (data_frame 0x73 1 octet) ≡ Some (Fixed 0x01 1)) }
    ensures counts { (answer_by true (reset_with (octet ∷ []) []) (Fixed 0x5A 1) ≡ None)
        × (answer_behind (reset_with (octet ∷ other_octet ∷ []) []) (Fixed 0x7A 1) (Fixed 0x7A 1)
        ≡ Some (data_frame 0x28 1 octet))
        × (answer_behind (reset_with (octet ∷ other_octet ∷ []) []) (Fixed 0x7A 1) (Fixed 0x5A 1)
        ≡ Some (data_frame 0x08 1 other_octet))
        × (answer_behind (reset_with (octet ∷ other_octet ∷ []) []) (Fixed 0x40 1) (Fixed 0x7A 1)
        ≡ Some (data_frame 0x28 1 octet)) }
    ensures strangers { (answer_by true (reset_with [] []) (Fixed 0x44 1) ≡ Some (Fixed 0x0F 1))
        × (answer_by true (reset_with [] []) (Fixed 0x4A 1) ≡ Some (Fixed 0x0F 1))
        × (answer_by true (reset_with (octet ∷ []) []) (Fixed 0x48 1) ≡ Some (Fixed 0x2F 1))
        × (answer_by true (reset_with [] []) (Fixed 0x49 2) ≡ None)
        × (answer_by true (reset_with [] []) (Fixed 0x09 1) ≡ None)
        × (answer_by true (reset_with [] []) Single ≡ None) }
{}
