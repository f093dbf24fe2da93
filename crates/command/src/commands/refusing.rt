//! By which rule an ASDU is refused, asked apart from its judgement.
ghost use Rattle.std.specs.Prelude.{◌≡◌, ◌≤◌, false, length, is_some};
ghost use Rattle.command.specs.Refusals.{tag_rule as rule_of_tag, form_rule as rule_of_form};
ghost use Rattle.command.specs.Refusals.{fault_rule as rule_of_fault};

use super::{Commands, MOST_SELECTIONS, MOST_WAITING};
use crate::content::{Command, command_octets_of, read_command};
use crate::glance::{Glance, settled_all};
use crate::judging::{count_addressed, is_guarded, is_selected};
use crate::keeping::{advance_all, count_others, station_number};
use crate::refusal::Refusal;
use crate::selection::{SelectStage, Selection, Sign};
use crate::tags::tag_verdict;
use elements::Verdict;

/// The rule that a time tag with this verdict breaks, if it isn't recent.
fn tag_rule(wall: Option<u64>, verdict: Verdict) -> Refusal
    ensures { result ≡ rule_of_tag wall verdict }
{
    match (wall, verdict) {
        (Some(wall), Verdict::Good(instant)) => {
            if instant <= wall {
                Refusal::TagOld(wall - instant)
            } else {
                Refusal::TagAhead(instant - wall)
            }
        }
        (None, Verdict::Good(_)) => Refusal::WallUnknown,
        _ => Refusal::TagInvalid,
    }
}

/// The rule of its form, or of its age, that a command breaks.
fn form_rule(octets: &[u8], wall: Option<u64>) -> Refusal
    requires { 9 ≤ length octets.now }
    ensures { result ≡ rule_of_form wall octets.now }
{
    if octets[1] != 1 || octets.len() != command_octets_of(octets[0]) {
        return Refusal::NotOneObject;
    }
    if !read_command(octets).is_permitted() {
        return Refusal::NotPermitted;
    }
    tag_rule(wall, tag_verdict(octets))
}

/// The rule that is broken if a fault of the ASDU alone is answered with this cause.
fn fault_rule(cause: u8, octets: &[u8], wall: Option<u64>) -> Refusal
    requires { 9 ≤ length octets.now }
    ensures { result ≡ rule_of_fault cause wall octets.now }
{
    match cause {
        44 => Refusal::TypeUnknown,
        45 => Refusal::CauseUnknown,
        46 => Refusal::AddressUnknown,
        47 => Refusal::ObjectUnknown,
        _ => form_rule(octets, wall),
    }
}

impl Commands {
    ghost use Rattle.command.specs.Judging.{judged};
    ghost use Rattle.command.specs.Refusals.{glance_of, refusal_of, seen_judged, seen_admitted};
    ghost use Rattle.command.specs.Refusals.{seen_placed, seen_forwarded, seen_ended, seen_others};
    ghost use Rattle.command.specs.Refusals.{seen_lacks_selection, seen_lacks_place};
    ghost use Rattle.command.specs.Restored.{HasSettings};
    ghost use Rattle.command.specs.State.{State};

    /// What a judgement looks at now.
    pub fn glance(&self) -> Glance
        ensures { result ≡ glance_of self.now }
    {
        Glance {
            waiting: self.waiting.len(),
            selections: settled_all(self.selections.as_slice()),
        }
    }

    /// By which rule [`Commands::judge_command`] would refuse this ASDU now, or none if it would
    /// forward it.
    pub fn refusal_of(&self, octets: &[u8], now: u64, wall: Option<u64>) -> Option<Refusal>
        requires { 9 ≤ length octets.now }
        ensures rule { result ≡ refusal_of octets.now now wall self.now }
        // It is one exactly if the judgement is an own answer.
        ensures judged { is_some result ≡ is_some (judged octets.now now wall self.now).0 }
    {
        let mut glance = self.glance();
        self.refusal_at(&mut glance, octets, now, wall)
    }

    /// By which rule an ASDU was refused, or none if it was forwarded, by a glance that was taken
    /// before its judgement. The glance then is what it would have been after that judgement: so
    /// the rule of each of several ASDUs can be asked in its turn, when all are judged.
    pub fn refusal_at(
        &self,
        glance: &mut Glance,
        octets: &[u8],
        now: u64,
        wall: Option<u64>,
    ) -> Option<Refusal>
        requires { 9 ≤ length octets.now }
        ensures seen { (result, glance.new) ≡ seen_judged self.now octets.now now wall glance.old }
        // So it is that of any state with these settings of which this is the glance.
        ensures rule { (s : State) → HasSettings self.now.stations self.now.sizes
            self.now.select_ms self.now.max_age_ms s → glance.old ≡ glance_of s →
            result ≡ refusal_of octets.now now wall s }
        ensures after { (s : State) → HasSettings self.now.stations self.now.sizes
            self.now.select_ms self.now.max_age_ms s → glance.old ≡ glance_of s →
            glance.new ≡ glance_of (judged octets.now now wall s).1 }
    {
        self.judge_at(glance, octets, now, wall)
    }

    /// The same, by what was seen.
    fn judge_at(
        &self,
        glance: &mut Glance,
        octets: &[u8],
        now: u64,
        wall: Option<u64>,
    ) -> Option<Refusal>
        requires { 9 ≤ length octets.now }
        ensures { (result, glance.new) ≡ seen_judged self.now octets.now now wall glance.old }
    {
        match self.fault(octets, wall) {
            Some(cause) => Some(fault_rule(cause, octets, wall)),
            None => self.admit_at(glance, read_command(octets), now),
        }
    }

    /// A command without a fault of its own.
    fn admit_at(&self, glance: &mut Glance, command: Command, now: u64) -> Option<Refusal>
        ensures { (result, glance.new) ≡ seen_admitted self.now command now glance.old }
    {
        let lacks_selection = self.lacks_selection_at(glance, command, now);
        self.end_at(glance, command);
        if lacks_selection {
            return Some(Refusal::NotSelected);
        }
        self.place_at(glance, command, now)
    }

    fn lacks_selection_at(&self, glance: &Glance, command: Command, now: u64) -> bool
        ensures { result ≡ seen_lacks_selection self.now command now glance.now }
    {
        is_guarded(self.stations.as_slice(), command)
            && command.is_execute()
            && !is_selected(glance.selections.as_slice(), self.select_ms, command, now)
    }

    /// The selection of its target ends.
    fn end_target_at(&self, glance: &mut Glance, command: Command)
        ensures { glance.new ≡ record glance.old {
          selections = seen_others self.now command glance.old;
        } }
    {
        let ends = Sign::Over(command.target());
        advance_all(&mut glance.selections, self.select_ms, &ends);
    }

    /// An execute or a deactivation ends the selection of its target.
    fn end_at(&self, glance: &mut Glance, command: Command)
        ensures { glance.new ≡ seen_ended self.now command glance.old }
    {
        if command.is_deactivation() || command.is_execute() {
            self.end_target_at(glance, command);
        }
    }

    /// How many selections are of other targets.
    fn count_others_at(&self, glance: &Glance, command: Command) -> usize
        ensures { result ≡ length (seen_others self.now command glance.now) }
    {
        let selections = glance.selections.as_slice();
        count_others(selections, self.select_ms, command.target())
    }

    fn lacks_place_at(&self, glance: &Glance, command: Command) -> bool
        ensures { result ≡ seen_lacks_place self.now command glance.now }
    {
        glance.waiting + count_addressed(self.stations.as_slice(), command) > MOST_WAITING
            || (self.makes_selection(command)
                && self.count_others_at(glance, command) >= MOST_SELECTIONS)
    }

    /// A command that may go, if there are places for it.
    fn place_at(&self, glance: &mut Glance, command: Command, now: u64) -> Option<Refusal>
        ensures { (result, glance.new) ≡ seen_placed self.now command now glance.old }
    {
        if self.lacks_place_at(glance, command) {
            return Some(Refusal::NoPlace);
        }
        self.forward_at(glance, command, now);
        None
    }

    /// The command waits for the line.
    fn forward_at(&self, glance: &mut Glance, command: Command, now: u64)
        requires { seen_lacks_place self.now command glance.old ≡ false }
        ensures { glance.new ≡ seen_forwarded self.now command now glance.old }
    {
        glance.waiting += count_addressed(self.stations.as_slice(), command);
        if self.makes_selection(command) {
            self.end_target_at(glance, command);
            glance.selections.push(Selection {
                station: station_number(self.stations.as_slice(), command.ca),
                command,
                came: now,
                stage: SelectStage::Queued(0),
            });
        }
    }
}
