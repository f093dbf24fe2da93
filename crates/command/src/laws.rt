//! What holds of every list of calls, in the words of what can be seen from outside.
//!
//! The history has what came from the control centre and what became of it, what went to the
//! stations and what they answered, and the own answers. Each law says what the calls do by what
//! the rules make of that history.

ghost use Rattle.std.specs.Prelude.{◌≡◌, ◌≤◌, ◌<◌, ◌==◌, ◌+◌, ◌&&◌, ◌||◌, ◌++◌, ◌∷◌, ℕ, List};
ghost use Rattle.std.specs.Prelude.{[]};
ghost use Rattle.std.specs.Prelude.{length};
ghost use Rattle.std.specs.Prelude.{slice_get, slice_index, Option, Some, None, false};
ghost use Rattle.std.specs.Prelude.{true, option_map};
ghost use Rattle.std.specs.List.{AllByRecursion};
ghost use Rattle.asdu.specs.Asdu.{AsduValue};
ghost use Rattle.command.specs.Octets.{answer};
ghost use Rattle.command.specs.State.{State, octets_waiting, sent, line_of, refusal_of};
ghost use Rattle.command.specs.Judging.{judged};
ghost use Rattle.command.specs.Mirrors.{mirrored, tag_for};
ghost use Rattle.asdu.specs.declared.sizes.Sizes.{Sizes};
ghost use Rattle.command.specs.declared.station.StationInfo.{StationInfo};
ghost use Rattle.command.specs.Standard.{first_cause, cause_of_fault, executes, selects};
ghost use Rattle.command.specs.Standard.{must_be_selected, is_deactivating, station_of};
ghost use Rattle.command.specs.Standard.{IsRefusal};
ghost use Rattle.command.specs.Rules.{rules_for};
ghost use Rattle.command.specs.History.{ForwardsCommands, next_octets, SendsFreshCommands};
ghost use Rattle.command.specs.History.{History, mirror_tag, ExecutesAreSelected, IsSelected};
ghost use Rattle.command.specs.NewestTags.{TagsAreRead, NewestIsBorne, SendingsAreNoted};
ghost use Rattle.command.specs.History.{GivesOwnAnswers, own_kept, own_sent, KeepsOwnAnswers};
ghost use Rattle.command.specs.History.{AnswersWholly, IsGuarded};
ghost use Rattle.command.specs.Passing.{FindsPlaces, of_others};
ghost use Rattle.command.specs.Calls.{Call, Judge, Cut, run};
ghost use Rattle.command.specs.Confirming.{IsExchanged};
ghost use Rattle.command.specs.LineForms.{LinesAreSpelled};
ghost use Rattle.command.specs.CallByCall.{GoInTurn, IsAnsweredBusy, WaitInTurn};
ghost use Rattle.command.specs.Examples.{OctetExamples, IsRight, WaitsSo, rule_examples};
ghost use Rattle.command.specs.Examples.{selection_examples, line_examples, tag_examples, BearsIt};
ghost use Rattle.command.specs.Examples.{mirror_examples};
ghost use Rattle.command.specs.Numbers.{AddressesAreRead, ObjectsAreRead, TargetsAreCompared};
ghost use Rattle.command.specs.Numbers.{ElementsAreRead, ActsAreRead, FormsAreRead, TimesAreKept};
ghost use Rattle.command.specs.Numbers.{ConfirmationsAreRead, CausesAreGiven};
ghost use Rattle.command.specs.Laws.{AfterEachRun, AtEachMoment};
ghost use Rattle.command.specs.CommandLaws.{CommandLaws};
ghost use Rattle.command.specs.Carried.{carried};

/// The answer to an ASDU is the one that the first rule that applies gives; if none applies it is
/// forwarded.
pub fn judgement_is_the_first_rule_that_applies()
    ensures { (xs : List ℕ) (now : ℕ) (wall : Option ℕ) (s : State) →
        (judged xs now wall s).0
        ≡ option_map (λ cause. answer cause xs) (first_cause (rules_for xs now wall s)) }
{}

/// First sendings to a station are the commands forwarded to it, in their order, each once, and
/// only while their connection is open, without their time tag. What waits is the next of them. On
/// the line each has the octets that came, in the line's sizes and with the station's own common
/// address, whatever its numbers are. So a select is a select there too. Call by call, each that is
/// forwarded is put last, and the first that didn't go out goes next.
pub fn commands_are_forwarded()
    ensures in_turn { AfterEachRun (λ stations sizes select_ms max_age_ms s h.
        ForwardsCommands sizes stations select_ms max_age_ms h) }
    ensures waiting { AfterEachRun (λ stations sizes select_ms max_age_ms s h.
        (k : ℕ) → octets_waiting k s ≡ next_octets sizes stations select_ms max_age_ms k h) }
    ensures spelled { LinesAreSpelled }
    ensures queued { (stations : List StationInfo) (sizes : Sizes) (select_ms max_age_ms : ℕ)
        (calls : List Call) (k : ℕ) → GoInTurn stations sizes select_ms max_age_ms calls k }
{}

/// A command that goes out for the first time, if it is an activation that came with a time tag,
/// came with a good one, at a known moment of the wall, and the two were at most `max_age_ms`
/// apart. A deactivation may be of any age: whatever the moment of the wall, it is judged as if
/// that weren't known.
pub fn sent_activations_are_fresh()
    ensures activations { AfterEachRun (λ stations sizes select_ms max_age_ms s h.
        SendsFreshCommands sizes stations select_ms max_age_ms h) }
    ensures deactivations { (sizes : Sizes) (stations : List StationInfo) (max_age_ms : ℕ)
        (wall : Option ℕ) (xs : List ℕ) → is_deactivating xs ≡ true →
        cause_of_fault sizes stations max_age_ms wall xs
        ≡ cause_of_fault sizes stations max_age_ms None xs }
{}

/// A command with which nothing is wrong, and which finds its places, is forwarded, whatever its
/// station and its addresses. Two things alone can keep it back, and only at a station that asks
/// for selects: an execute that isn't selected is refused, and so is a select if 16 selections of
/// other targets are kept. So a deactivation needs no selection, and neither does an interrogation.
pub fn faultless_commands_pass()
    ensures others { AfterEachRun (λ stations sizes select_ms max_age_ms s h. (xs : List ℕ)
        (now : ℕ) (wall : Option ℕ) →
        cause_of_fault sizes stations max_age_ms wall xs ≡ None
        → (must_be_selected stations xs && (selects xs || executes xs)) ≡ false
        → FindsPlaces stations xs h → (judged xs now wall s).0 ≡ None) }
    ensures selects { AfterEachRun (λ stations sizes select_ms max_age_ms s h. (xs : List ℕ)
        (now : ℕ) (wall : Option ℕ) →
        cause_of_fault sizes stations max_age_ms wall xs ≡ None → selects xs ≡ true
        → of_others xs s.selections < 16
        → FindsPlaces stations xs h → (judged xs now wall s).0 ≡ None) }
    ensures executes { AtEachMoment (λ stations sizes select_ms max_age_ms now s h.
        (xs : List ℕ) (wall : Option ℕ) →
        cause_of_fault sizes stations max_age_ms wall xs ≡ None → executes xs ≡ true
        → IsSelected sizes stations select_ms max_age_ms xs now h
        → FindsPlaces stations xs h → (judged xs now wall s).0 ≡ None) }
{}

/// The tag with which a station's answer to a command is passed on is that of the newest first
/// sending of its type and addresses, among the latest sixteen of the open connection. There is
/// none if that command came without one, and none if the answer hasn't one object. A command is
/// noted as it came when it goes out, whatever its station and its addresses. So it counts until
/// sixteen others went out behind it, or its connection ends.
pub fn mirrors_bear_the_newest_tag()
    ensures among { AfterEachRun (λ stations sizes select_ms max_age_ms s h. (v : AsduValue) →
        option_map (λ tag. tag.0) (tag_for v v.infos s)
        ≡ mirror_tag sizes stations select_ms max_age_ms v v.infos h) }
    ensures borne { (stations : List StationInfo) (sizes : Sizes) (select_ms max_age_ms : ℕ)
        (h : History) → NewestIsBorne sizes stations select_ms max_age_ms h }
    ensures noted { (stations : List StationInfo) (sizes : Sizes) (select_ms max_age_ms : ℕ)
        (calls : List Call) → SendingsAreNoted sizes stations select_ms max_age_ms calls }
    ensures tags { TagsAreRead }
{}

/// Before each forwarded execute to a station that asks for selects its select stands: the latest
/// of its type and addresses, received with its type, accepted on the line and confirmed in time,
/// with nothing between that ends it. So it is for each station of the settings that asks for
/// them, whatever its place among them and its common address.
pub fn executes_are_selected()
    ensures selected { AfterEachRun (λ stations sizes select_ms max_age_ms s h.
        ExecutesAreSelected sizes stations select_ms max_age_ms h) }
    ensures each_station { AfterEachRun (λ stations sizes select_ms max_age_ms s h. (k : ℕ)
        (station : StationInfo) → slice_get stations k ≡ Some station → station.select ≡ true →
        IsGuarded sizes stations select_ms max_age_ms station h) }
{}

/// A selection lets one execute through, and no more. An execute that is forwarded to a station
/// which asks for selects has its select among the calls before it. The two have equal types as
/// received, addresses, test bits and elements. The select was forwarded, went out in its turn, and
/// was accepted by its station there. It was confirmed less than `select_ms` after it came, and the
/// execute came less than `select_ms` after the latest such confirmation. Since the select came the
/// connection didn't end, and no other select of its target was forwarded. Nor did an execute or a
/// deactivation of it come with which nothing was wrong, and no station refused it. So it is for
/// each station, each address and each type.
pub fn selections_let_one_execute_through()
    ensures { (stations : List StationInfo) (sizes : Sizes) (select_ms max_age_ms : ℕ)
        (calls : List Call) (xs : List ℕ) (now : ℕ) (wall : Option ℕ) →
        must_be_selected stations xs ≡ true → executes xs ≡ true →
        (judged xs now wall (run stations sizes select_ms max_age_ms calls).state).0 ≡ None →
        IsExchanged stations sizes select_ms max_age_ms calls xs now }
{}

/// Each answer is the right one: the ASDU that came, with another cause, P/N 1, and its test bit
/// and all other octets as they were, however many they are. An ASDU that isn't forwarded gets one,
/// and so does a command that a busy station had, if its connection is open. No other has one. The
/// own answers that are kept go out first in, first out: 16 of them at most wait, and the end of a
/// connection removes them. Call by call, a command that went out and is refused as busy gets its
/// answer, whatever lies between. What stands on no line gets none.
pub fn own_answers_are_given()
    ensures right { AfterEachRun (λ stations sizes select_ms max_age_ms s h.
        GivesOwnAnswers sizes stations select_ms max_age_ms h) }
    ensures wholly { AfterEachRun (λ stations sizes select_ms max_age_ms s h.
        AnswersWholly sizes stations select_ms max_age_ms h) }
    ensures in_turn { AfterEachRun (λ stations sizes select_ms max_age_ms s h.
        own_kept h ≡ own_sent h ++ s.answers) }
    ensures kept { AfterEachRun (λ stations sizes select_ms max_age_ms s h. KeepsOwnAnswers h) }
    ensures busy { (stations : List StationInfo) (sizes : Sizes) (select_ms max_age_ms : ℕ)
        (calls : List Call) (k : ℕ) → IsAnsweredBusy stations sizes select_ms max_age_ms calls k }
    ensures waiting { (stations : List StationInfo) (sizes : Sizes) (select_ms max_age_ms : ℕ)
        (calls : List Call) → WaitInTurn stations sizes select_ms max_age_ms calls }
    ensures spelled { (cause : ℕ) (xs : List ℕ) → cause < 64 → 9 ≤ length xs
        → slice_index xs 2 < 256 → IsRefusal cause xs (answer cause xs) }
{}

/// What waits for a station first stays so until it goes out or its connection ends: no ASDU, no
/// station's answer and nothing that goes out to another station changes it. Nor do they change the
/// own answers that are kept.
pub fn waiting_commands_stay()
    ensures judged { (xs : List ℕ) (now : ℕ) (wall : Option ℕ) (k : ℕ) (s : State)
        (octets : List ℕ) → octets_waiting k s ≡ Some octets →
        octets_waiting k (judged xs now wall s).1 ≡ Some octets }
    ensures mirrored { (v : AsduValue) (now : ℕ) (s : State) →
        (mirrored v now s).waiting ≡ s.waiting }
    ensures sent { (j k : ℕ) (s : State) → (k == j) ≡ false →
        octets_waiting k (sent j s) ≡ octets_waiting k s }
    ensures answers_judged { (xs : List ℕ) (now : ℕ) (wall : Option ℕ) (s : State) →
        (judged xs now wall s).1.answers ≡ s.answers }
    ensures answers_mirrored { (v : AsduValue) (now : ℕ) (s : State) →
        (mirrored v now s).answers ≡ s.answers }
    ensures answers_sent { (j : ℕ) (s : State) → (sent j s).answers ≡ s.answers }
{}

/// Examples worked by hand: which octets say what, which answer a command gets by each rule, what
/// lets an execute through and what doesn't, what goes to the line, and which tags are good enough,
/// kept and passed on.
pub fn worked_examples_hold()
    ensures octets { OctetExamples }
    ensures rules { AllByRecursion IsRight rule_examples }
    ensures selections { AllByRecursion IsRight selection_examples }
    ensures line { AllByRecursion WaitsSo line_examples }
    ensures tags { AllByRecursion IsRight tag_examples }
    ensures mirrors { AllByRecursion BearsIt mirror_examples }
{}

/// The rules say the same of a command whatever its numbers are: each common address of a station,
/// each object address, each octet of an element, each place of a station, and each setting of the
/// times. So what selects, what executes and what takes back is the same at each of them, and what
/// select and execute have to have in common. What is well-formed, what confirms a command, and the
/// cause of a negative answer are the same as well. So are the types that are known, and the
/// stations that ask for selects.
pub fn rules_hold_for_all_numbers()
    ensures addresses { AddressesAreRead }
    ensures objects { ObjectsAreRead }
    ensures targets { TargetsAreCompared }
    ensures elements { ElementsAreRead }
    ensures acts { ActsAreRead }
    ensures forms { FormsAreRead }
    ensures confirmations { ConfirmationsAreRead }
    ensures causes { CausesAreGiven }
    ensures times { TimesAreKept }
{}

/// What crates above use of these laws, in one record, of each state and history that calls leave.
pub fn commands_keep_the_rules()
    ensures { CommandLaws }
{}

/// Nothing of a connection outlives a change of settings, as nothing does its end: no command waits
/// for the line, nothing is selected, so that no execute to a guarded station is let through
/// without a select of its own connection, no answer is left to be sent, and no tag of a first
/// sending. What stands on a line has no connection any more: a busy station's answer to it is
/// given to nobody.
pub fn nothing_of_a_connection_outlives_new_settings()
    ensures waiting { (stations : List StationInfo) (sizes : Sizes) (select_ms max_age_ms : ℕ)
        (before : List (Option ℕ)) (s : State) →
        (carried stations sizes select_ms max_age_ms before s).waiting ≡ [] }
    ensures selections { (stations : List StationInfo) (sizes : Sizes) (select_ms max_age_ms : ℕ)
        (before : List (Option ℕ)) (s : State) →
        (carried stations sizes select_ms max_age_ms before s).selections ≡ [] }
    ensures answers { (stations : List StationInfo) (sizes : Sizes) (select_ms max_age_ms : ℕ)
        (before : List (Option ℕ)) (s : State) →
        (carried stations sizes select_ms max_age_ms before s).answers ≡ [] }
    ensures sendings { (stations : List StationInfo) (sizes : Sizes) (select_ms max_age_ms : ℕ)
        (before : List (Option ℕ)) (s : State) →
        (carried stations sizes select_ms max_age_ms before s).sendings ≡ [] }
    ensures lines { (stations : List StationInfo) (sizes : Sizes) (select_ms max_age_ms : ℕ)
        (before : List (Option ℕ)) (s : State) (k : ℕ) →
        refusal_of (line_of k (carried stations sizes select_ms max_age_ms before s)) ≡ None }
{}
