//! What is kept of commands, and the calls.
ghost use Rattle.std.specs.Prelude.{◌≡◌, ℕ, List, ◌++◌, OnOk, MatchResult, false, ◌≤◌, ◌<◌, ◌+◌};
ghost use Rattle.std.specs.Prelude.{length, count_by, IfOk, IfSome, IfNone, Some, None, option_map};
ghost use Rattle.std.specs.Prelude.{if◌then◌else◌, slice_index, vec_len};
ghost use Rattle.arrayvec.specs.ArrayVec.{array_vec_len};
ghost use Rattle.checkpoint.specs.declared.StateFault.TheVariants.{Wrong};
ghost use Rattle.elements.specs.Types.{row};
ghost use Rattle.asdu.specs.Reading.{value_of};
ghost use Rattle.command.specs.Octets.{answer, negative};
ghost use Rattle.command.specs.Command.{command_len, command_at};
ghost use Rattle.command.specs.Mirrors.{all_over, one_confirmed, confirmed, mirrored, tag_for};
ghost use Rattle.command.specs.Mirrors.{element_of as element_in};

mod carrying;
mod pending;
mod refusing;

use crate::act::{Act, OwnAnswer};
use crate::content::{
    Command, Target, append, is_command_type, is_process_command, line_kind, read_command, refuse,
};
use crate::judging::{
    count_addressed, form_fault, is_addressee, is_guarded, is_object, is_other_cause, is_selected,
    negative_cause,
};
use crate::keeping::{
    advance_all, count_others, count_waiting, cut_all, free_lines, is_heeded, is_used_at,
    kept_stations, place_of, push_copies, refusal_at, station_number,
};
use crate::mirrors::{element_of, is_con};
use crate::restoring::{Parts, are_answers, read_parts, ring_of};
use crate::saving::{put_items, put_list, put_ring};
use crate::selection::{SelectStage, Selection, Sign};
use crate::station::StationInfo;
use crate::tags::{MOST_SENDINGS, Sending, newest_tag, no_sendings};
use crate::waiting::{Line, Waiting};
use arrayvec::ArrayVec;
use asdu::{Asdu, Sizes, head};
use checkpoint::{Lines, Sheet, StateFault};
use circular_buffer::HeapCircularBuffer;
use elements::Cp56;
use std::alloc::Global;
use std::marker::Model;
use thiserror::Error;

/// Memory was refused.
#[derive(Clone, Copy, Debug, PartialEq, Eq, Error)]
#[error("no memory")]
pub struct NoMemory;

/// The most commands that wait for the line.
pub(crate) const MOST_WAITING: usize = 64;

/// The most selections.
pub(crate) const MOST_SELECTIONS: usize = 16;

/// The most own answers that wait to be sent.
pub(crate) const MOST_ANSWERS: usize = 16;

/// Commands on their way to the line, selections and own answers.
#[derive(Drop)]
pub struct Commands {
    stations: Vec<StationInfo>,
    sizes: Sizes,
    select_ms: u64,
    max_age_ms: u64,
    /// Those that were never put on the line, oldest first.
    waiting: Vec<Waiting>,
    /// What was put on the line of each station and isn't done.
    lines: Vec<Line>,
    selections: ArrayVec<Selection, 16>,
    /// The latest first sendings of types 45 to 49 on the open connection, oldest first.
    sendings: HeapCircularBuffer<Sending>,
    answers: HeapCircularBuffer<OwnAnswer>,
}

impl Model for Commands {
    ghost use Rattle.command.specs.State.{State};

    ghost Value = { State };

    ghost use Rattle.command.specs.Fields.{state_of, IsSound};

    ghost view = { state_of };

    ghost invariant = { IsSound };
}

impl Commands {
    ghost use Rattle.command.specs.Restored.{commands_lines, IsSavable, HasSettings, HaveRoom};
    ghost use Rattle.command.specs.Restored.{state_with, are_long};
    ghost use Rattle.command.specs.State.{State, new_state, heeded, has_answer_place, offered};
    ghost use Rattle.command.specs.State.{first_answer, answered, closed, timed, octets_waiting};
    ghost use Rattle.command.specs.State.{with_line, sent as after_sending, noted};
    ghost use Rattle.command.specs.State.{accepted as after_acceptance, given_up, line_of, is_used};
    ghost use Rattle.command.specs.State.{refusal_of};
    ghost use Rattle.command.specs.Judging.{answer_of, judged, admitted, placed, ends_selection};
    ghost use Rattle.command.specs.Judging.{without_selection, fault as fault_of};
    ghost use Rattle.command.specs.Judging.{cause_fault as fault_of_cause};
    ghost use Rattle.command.specs.Judging.{address_fault as fault_of_addresses, lacks_selection};
    ghost use Rattle.command.specs.Judging.{lacks_place, makes_selection, forwarded, queued};
    ghost use Rattle.command.specs.Judging.{selected, others};
    ghost use Rattle.command.specs.Stations.{is_addressed};

    /// No command, no selection and no own answer. This takes memory for all that may be kept.
    ///
    /// `stations` are those of the line, in the order of the settings, at most 32; `sizes` those of
    /// the line's ASDUs; `select_ms` is how long a select may wait for its con, and how long an
    /// execute may come after the con, in ms; `max_age_ms` is how far the tag of an activation that
    /// has one may be from the wall's moment, before or behind it, in ms.
    pub fn new(
        alloc: Global,
        stations: &[StationInfo],
        sizes: Sizes,
        select_ms: u64,
        max_age_ms: u64,
    ) -> Result<Commands, NoMemory>
        requires { length stations.now ≤ 32 }
        ensures { IfOk result (λ c. c ≡ new_state stations.now sizes select_ms max_age_ms) }
    {
        let known = kept_stations(alloc, stations)?;
        let waiting = Vec::with_capacity(alloc, MOST_WAITING).map_err(|_| NoMemory)?;
        let lines = free_lines(alloc, stations)?;
        let sendings = no_sendings(alloc)?;
        let answers = HeapCircularBuffer::with_capacity(alloc, MOST_ANSWERS).map_err(|_| NoMemory)?;
        Ok(Commands {
            stations: known,
            sizes,
            select_ms,
            max_age_ms,
            waiting,
            lines,
            selections: ArrayVec::new(),
            sendings,
            answers,
        })
    }

    /// Puts what is kept as lines of numbers: of that, [`Commands::read_state`] makes it again. The
    /// settings aren't in them. `line` is used on the way.
    pub fn put_state<S: Sheet>(&self, sheet: &mut S, line: &mut Vec<u64>) -> Result<(), StateFault>
        ensures lines { OnOk result (S.written sheet.new
            ≡ S.written sheet.old ++ commands_lines self.now) }
        ensures savable { OnOk result (IsSavable self.now) }
    {
        put_list(self.waiting.as_slice(), sheet, line)?;
        put_items(self.lines.as_slice(), sheet, line)?;
        put_list(self.selections.as_slice(), sheet, line)?;
        put_ring(&self.sendings, sheet, line)?;
        put_ring(&self.answers, sheet, line)?;
        Ok(())
    }

    /// What was put, made again of the lines that come, with the settings that `new` takes. The
    /// lines of a state are never refused as wrong, and what comes behind them is left. Others are
    /// wrong if a line says nothing, or more is kept than there are places. `line` is used on the
    /// way.
    pub fn read_state<L: Lines>(
        alloc: Global,
        stations: &[StationInfo],
        sizes: Sizes,
        select_ms: u64,
        max_age_ms: u64,
        lines: &mut L,
        line: &mut Vec<u64>,
    ) -> Result<Commands, StateFault>
        requires { length stations.now ≤ 32 }
        ensures back { (s : State) (rest : List (List ℕ)) → IsSavable s →
            HasSettings stations.now sizes select_ms max_age_ms s →
            L.coming lines.old ≡ commands_lines s ++ rest →
            MatchResult result (λ c. (c ≡ s) × (L.coming lines.new ≡ rest))
            (λ e. e ≡ Wrong → ⊥) }
        // So what isn't the lines of a state is refused.
        ensures exact { IfOk result (λ c.
            L.coming lines.old ≡ commands_lines c ++ L.coming lines.new) }
    {
        let parts = read_parts(alloc, stations.len(), lines, line)?;
        Commands::of_parts(alloc, stations, sizes, select_ms, max_age_ms, parts)
    }

    /// With these settings and parts.
    fn of_parts(
        alloc: Global,
        stations: &[StationInfo],
        sizes: Sizes,
        select_ms: u64,
        max_age_ms: u64,
        parts: Parts,
    ) -> Result<Commands, StateFault>
        requires few { length stations.now ≤ 32 }
        requires room { HaveRoom (length stations.now) parts }
        ensures { MatchResult result
            (λ c. c ≡ state_with stations.now sizes select_ms max_age_ms parts)
            (λ e. e ≡ Wrong → are_long parts.answers.items ≡ false) }
    {
        if !are_answers(parts.answers.as_slice()) {
            return Err(StateFault::Wrong);
        }
        let known = kept_stations(alloc, stations).map_err(|_| StateFault::NoMemory)?;
        let mut selections = ArrayVec::new();
        let Ok(()) = selections.try_extend_from_slice(parts.selections.as_slice()) else {
            unreachable!();
        };
        let sendings = ring_of(alloc, MOST_SENDINGS, parts.sendings)?;
        let answers = ring_of(alloc, MOST_ANSWERS, parts.answers)?;
        Ok(Commands {
            stations: known,
            sizes,
            select_ms,
            max_age_ms,
            waiting: parts.waiting,
            lines: parts.lines,
            selections,
            sendings,
            answers,
        })
    }

    /// Each selection heeds a sign.
    fn heed(&mut self, sign: Sign)
        ensures { self.new ≡ heeded sign self.old }
    {
        // Each event comes by here, and few change a selection.
        if is_heeded(self.selections.as_slice(), self.select_ms, &sign) {
            self.advance(&sign);
        }
    }

    /// Each selection heeds a sign. Apart, since few events do more than look.
    #[inline(never)]
    fn advance(&mut self, sign: &Sign)
        ensures { self.new ≡ heeded sign.now self.old }
    {
        advance_all(&mut self.selections, self.select_ms, sign);
    }

    /// Judges an ASDU of 9 to 249 octets from the control centre, at moment `now` in ms, when the
    /// wall's moment is `wall`, in ms since 1970-01-01 UTC, if that is known: it is forwarded, or
    /// answered by the first rule that applies. The answer is no report.
    pub fn judge_command(&mut self, octets: &[u8], now: u64, wall: Option<u64>) -> Act
        requires long { 9 ≤ length octets.now }
        requires fits { length octets.now ≤ 249 }
        ensures judged { (answer_of result, self.new) ≡ judged octets.now now wall self.old }
        ensures fits { IfSome (answer_of result)
            (λ answer. (9 ≤ length answer) × (length answer ≤ 249)) }
    {
        // As many octets as an I frame has, since an answer has the same (docs/DECISIONS.md, "9 to
        // 249 octets"). An answer is made in one place, since there has to be room for each that
        // may be.
        match self.refusal_cause(octets, now, wall) {
            Some(cause) => Act::Own(refuse(cause, octets)),
            None => Act::Forward,
        }
    }

    /// The cause of the answer, if the ASDU isn't forwarded.
    fn refusal_cause(&mut self, octets: &[u8], now: u64, wall: Option<u64>) -> Option<u8>
        requires long { 9 ≤ length octets.now }
        requires fits { length octets.now ≤ 249 }
        ensures judged { (option_map (λ cause. answer cause octets.now) result, self.new)
            ≡ judged octets.now now wall self.old }
        ensures known { IfSome result (λ cause. cause < 64) }
    {
        match self.fault(octets, wall) {
            Some(cause) => Some(cause),
            None => self.admit(octets, read_command(octets), now),
        }
    }

    /// What is wrong with the ASDU itself: the cause of its answer, by the first rule that applies.
    fn fault(&self, octets: &[u8], wall: Option<u64>) -> Option<u8>
        requires long { 9 ≤ length octets.now }
        ensures value { result ≡
            fault_of self.now.sizes self.now.stations self.now.max_age_ms wall octets.now }
        ensures known { IfSome result (λ cause. cause < 64) }
        ensures whole { IfNone result (length octets.now ≡ command_len (slice_index octets.now 0)) }
    {
        if !is_command_type(octets[0]) {
            // The type first: of one that isn't known nothing behind it can be read.
            return Some(44);
        }
        self.cause_fault(octets, wall)
    }

    /// What is wrong with its cause, its addresses, its form or its age.
    fn cause_fault(&self, octets: &[u8], wall: Option<u64>) -> Option<u8>
        requires long { 9 ≤ length octets.now }
        ensures value { result ≡
            fault_of_cause self.now.sizes self.now.stations self.now.max_age_ms wall octets.now }
        ensures known { IfSome result (λ cause. cause < 64) }
        ensures whole { IfNone result (length octets.now ≡ command_len (slice_index octets.now 0)) }
    {
        if is_other_cause(octets[2]) {
            return Some(45);
        }
        self.address_fault(octets, wall)
    }

    /// What is wrong with its addresses, its form or its age.
    fn address_fault(&self, octets: &[u8], wall: Option<u64>) -> Option<u8>
        requires long { 9 ≤ length octets.now }
        ensures value { result ≡
            fault_of_addresses self.now.sizes self.now.stations self.now.max_age_ms wall
            octets.now }
        ensures known { IfSome result (λ cause. cause < 64) }
        ensures whole { IfNone result (length octets.now ≡ command_len (slice_index octets.now 0)) }
    {
        let Some(head) = head(Sizes::TCP, octets) else {
            // Nine octets came, and so many has the header of 104 with one object address.
            unreachable!();
        };
        if !is_addressee(self.stations.as_slice(), head.kind, head.ca) {
            return Some(46);
        }
        if !is_object(self.sizes, head.kind, head.ioa) {
            return Some(47);
        }
        form_fault(octets, self.max_age_ms, wall)
    }

    /// A command without a fault of its own: the cause of its answer, if it isn't forwarded.
    fn admit(&mut self, octets: &[u8], command: Command, now: u64) -> Option<u8>
        requires long { 9 ≤ length octets.now }
        requires whole { length octets.now ≡ command_len (slice_index octets.now 0) }
        requires read { command ≡ command_at octets.now }
        ensures judged { (option_map (λ cause. answer cause octets.now) result, self.new)
            ≡ admitted octets.now command now self.old }
        ensures known { IfSome result (λ cause. cause < 64) }
    {
        // Looked up before it ends: an execute uses its selection up whether it may go or not, so
        // that no second one operates the switch by the same select.
        let lacks_selection = self.lacks_selection(command, now);
        self.end_selection(command);
        if lacks_selection {
            return Some(negative_cause(octets));
        }
        self.place(octets, command, now)
    }

    /// An execute or a deactivation ends the selection of its target.
    fn end_selection(&mut self, command: Command)
        ensures { self.new ≡
            (if ends_selection command then without_selection command self.old else self.old) }
    {
        // A deactivation calls the select itself off (docs/DECISIONS.md, "Select and
        // deactivation").
        if command.is_deactivation() || command.is_execute() {
            self.heed(Sign::Over(command.target()));
        }
    }

    /// A command that may go, if there are places for it: else the cause of its answer.
    fn place(&mut self, octets: &[u8], command: Command, now: u64) -> Option<u8>
        requires long { 9 ≤ length octets.now }
        requires whole { length octets.now ≡ command_len (slice_index octets.now 0) }
        requires read { command ≡ command_at octets.now }
        ensures judged { (option_map (λ cause. answer cause octets.now) result, self.new)
            ≡ placed octets.now command now self.old }
        ensures known { IfSome result (λ cause. cause < 64) }
    {
        // Behind the end of the selection, which an execute without a place has used up too
        // (docs/DECISIONS.md, "No place left").
        if self.lacks_place(command) {
            return Some(negative_cause(octets));
        }
        self.forward(octets, command, now);
        None
    }

    /// Whether it is an execute without a live selection.
    fn lacks_selection(&self, command: Command, now: u64) -> bool
        ensures { result ≡ lacks_selection command now self.now }
    {
        is_guarded(self.stations.as_slice(), command)
            && command.is_execute()
            && !is_selected(self.selections.as_slice(), self.select_ms, command, now)
    }

    /// Whether too few places are free.
    fn lacks_place(&self, command: Command) -> bool
        ensures { result ≡ lacks_place command self.now }
    {
        self.waiting.len() + count_addressed(self.stations.as_slice(), command) > MOST_WAITING
            || (self.makes_selection(command) && self.count_others(command) >= MOST_SELECTIONS)
    }

    fn makes_selection(&self, command: Command) -> bool
        ensures { result ≡ makes_selection self.now.stations command }
    {
        is_guarded(self.stations.as_slice(), command) && command.is_select()
    }

    /// How many selections are of other targets.
    fn count_others(&self, command: Command) -> usize
        ensures { result ≡ length (others command self.now) }
    {
        // A select of a target that is selected already replaces that one, and wants no place.
        count_others(self.selections.as_slice(), self.select_ms, command.target())
    }

    /// The command waits for the line.
    fn forward(&mut self, octets: &[u8], command: Command, now: u64)
        requires long { 9 ≤ length octets.now }
        requires whole { length octets.now ≡ command_len (slice_index octets.now 0) }
        requires read { command ≡ command_at octets.now }
        requires places { lacks_place command self.old ≡ false }
        ensures { self.new ≡ forwarded octets.now command now self.old }
    {
        if self.makes_selection(command) {
            self.select(command, now);
        }
        self.queue(octets);
    }

    /// The command waits for the line of each station that it is for.
    fn queue(&mut self, octets: &[u8])
        requires long { 9 ≤ length octets.now }
        requires whole { length octets.now ≡ command_len (slice_index octets.now 0) }
        requires room { length self.old.waiting
            + count_by (is_addressed (command_at octets.now)) self.old.stations ≤ 64 }
        ensures { self.new ≡ queued octets.now self.old }
    {
        push_copies(
            &mut self.waiting,
            self.stations.as_slice(),
            self.sizes,
            octets,
        );
    }

    /// A select makes a selection, or replaces that of its target.
    fn select(&mut self, command: Command, now: u64)
        requires { length (others command self.old) < 16 }
        ensures { self.new ≡ selected command now self.old }
    {
        let station = station_number(self.stations.as_slice(), command.ca);
        self.heed(Sign::Over(command.target()));
        self.selections.push(Selection {
            station,
            command,
            came: now,
            // The command itself isn't among those yet: they go out before it.
            stage: SelectStage::Queued(count_waiting(self.waiting.as_slice(), station)),
        });
    }

    /// The octets of the oldest command that waits for the station: the ASDU in the sizes of the
    /// line, with the station's own common address, and without a time tag.
    pub fn waiting(&self, station: usize) -> Option<&[u8]>
        ensures some { IfSome result (λ octets. octets_waiting station self.now ≡ Some octets.now) }
        ensures none { IfNone result (octets_waiting station self.now ≡ None) }
        ensures fits { IfSome result
            (λ octets. (1 ≤ length octets.now) × (length octets.now ≤ 12)) }
    {
        let place = place_of(self.waiting.as_slice(), station)?;
        Some(self.waiting[place].octets.as_slice())
    }

    /// This stands on the line of the station now.
    fn set_line(&mut self, station: usize, line: Line)
        ensures { self.new ≡ with_line station line self.old }
    {
        if station < self.lines.len() {
            self.lines[station] = line;
        }
    }

    /// The oldest command that waits for the station goes out for the first time.
    pub fn on_line(&mut self, station: usize)
        ensures { self.new ≡ after_sending station self.old }
    {
        let Some(place) = place_of(self.waiting.as_slice(), station) else {
            return;
        };
        self.heed(Sign::Sending(station));
        let Waiting {
            station: _,
            received,
            octets: _,
        } = self.waiting.remove(place);
        self.note_sending(received.as_slice());
        self.set_line(station, Line::Holds(received));
    }

    /// A command goes out for the first time: of types 45 to 49 the latest are kept.
    fn note_sending(&mut self, octets: &[u8])
        requires { length octets.now ≡ command_len (slice_index octets.now 0) }
        ensures { self.new ≡ noted octets.now self.old }
    {
        // An interrogation is answered without the tag of a command.
        if is_process_command(line_kind(octets[0])) {
            // The oldest gives way: its answer then goes out without a tag.
            let _oldest = self.sendings.push_back(Sending::of(octets));
        }
    }

    /// The station accepted the command on its line.
    pub fn accepted(&mut self, station: usize)
        ensures { self.new ≡ after_acceptance station self.old }
    {
        self.heed(Sign::Acceptance(station));
        self.set_line(station, Line::Free);
    }

    /// The station refused the command on its line as busy. The answer is for the control centre,
    /// and no report. There is none if the connection that sent the command has ended.
    pub fn busy(&mut self, station: usize) -> Option<OwnAnswer>
        ensures answer { option_map (λ answer. answer.items) result ≡
            refusal_of (line_of station self.old) }
        ensures fits { IfSome result
            (λ answer. (9 ≤ array_vec_len answer) × (array_vec_len answer ≤ 249)) }
        ensures state { self.new ≡ given_up station self.old }
    {
        let answer = refusal_at(self.lines.as_slice(), station);
        self.heed(Sign::Loss(station));
        self.set_line(station, Line::Free);
        answer
    }

    /// The command on the station's line is given up. Answers whether there was one.
    pub fn lost(&mut self, station: usize) -> bool
        ensures there { result ≡ is_used (line_of station self.old) }
        ensures state { self.new ≡ given_up station self.old }
    {
        let there = is_used_at(self.lines.as_slice(), station);
        self.heed(Sign::Loss(station));
        self.set_line(station, Line::Free);
        there
    }

    /// A station answered a command, at moment `now` in ms: what that does to selections, and the
    /// tag with which the answer is passed on, if it has one: that of the newest first sending of
    /// its type and addresses among the latest 16. Other ASDUs do nothing.
    #[tactic(auto, using(crate::proofs::Codes::kind_code))]
    pub fn mirror(&mut self, asdu: &Asdu, now: u64) -> Option<Cp56>
        ensures state { self.new ≡ mirrored (value_of asdu.now) now self.old }
        ensures tag { result ≡ tag_for (value_of asdu.now) (value_of asdu.now).infos self.old }
    {
        let tag = self.mirror_tag(asdu);
        let head = asdu.head();
        if is_con(true, head.cause) {
            self.end_all(head.kind, head.ca, asdu);
        } else if is_con(false, head.cause) {
            self.confirm(head.kind, head.ca, asdu, now);
        }
        tag
    }

    /// The tag with which a station's answer is passed on.
    #[tactic(auto, using(crate::proofs::Codes::kind_code))]
    fn mirror_tag(&self, asdu: &Asdu) -> Option<Cp56>
        ensures { result ≡ tag_for (value_of asdu.now) (value_of asdu.now).infos self.now }
    {
        let head = asdu.head();
        let mut objects = asdu.objects();
        let object = objects.next()?;
        // No command has two objects, so this answers none.
        if objects.next().is_some() {
            return None;
        }
        // Not by the element: a station may answer with another one (docs/DECISIONS.md, "Which tag
        // an answer bears").
        let target = Target {
            kind: head.kind,
            ca: head.ca,
            address: object.address,
        };
        newest_tag(&self.sendings, target)
    }

    /// The selection of each object ends.
    fn end_all(&mut self, kind: u8, ca: u16, asdu: &Asdu)
        requires kind { kind ≡ (row (value_of asdu.now).kind).code }
        requires ca { ca ≡ (value_of asdu.now).ca }
        ensures { self.new ≡ all_over (value_of asdu.now) (value_of asdu.now).infos self.old }
    {
        // An end too early costs a second select; one too late may operate a switch
        // (docs/DECISIONS.md, "A negative confirmation with several objects").
        for object in asdu.objects() {
            self.heed(Sign::Over(Target {
                kind,
                ca,
                address: object.address,
            }));
        }
    }

    /// A positive con came.
    fn confirm(&mut self, kind: u8, ca: u16, asdu: &Asdu, now: u64)
        requires kind { kind ≡ (row (value_of asdu.now).kind).code }
        requires ca { ca ≡ (value_of asdu.now).ca }
        ensures { self.new ≡
            one_confirmed (value_of asdu.now) (value_of asdu.now).infos now self.old }
    {
        let mut objects = asdu.objects();
        let Some(object) = objects.next() else {
            return;
        };
        if objects.next().is_some() {
            return;
        }
        let target = Target {
            kind,
            ca,
            address: object.address,
        };
        self.confirm_one(target, object.element, now);
    }

    /// A positive con of this target came, with this element.
    fn confirm_one(&mut self, target: Target, element: &[u8], now: u64)
        ensures { self.new ≡ confirmed (element_in element.now) target now self.old }
    {
        if let Some(element) = element_of(element) {
            self.heed(Sign::Con(target, element, now));
        }
    }

    /// Keeps an own answer of 9 to 249 octets, as it is. It is false, and nothing changes, if 16
    /// are kept. That it is no report to the control centre is for the caller to see to: the
    /// answers that are made here are none.
    pub fn own(&mut self, octets: &[u8]) -> bool
        requires long { 9 ≤ length octets.now }
        requires fits { length octets.now ≤ 249 }
        ensures place { result ≡ has_answer_place self.old }
        ensures state { self.new ≡ offered octets.now self.old }
    {
        if self.answers.is_full() {
            return false;
        }
        let mut copy = ArrayVec::new();
        append(&mut copy, octets);
        self.answers.try_push_back(copy).is_ok()
    }

    /// The oldest own answer that wasn't sent.
    pub fn own_answer(&self) -> Option<&[u8]>
        ensures some { IfSome result (λ octets. first_answer self.now.answers ≡ Some octets.now) }
        ensures none { IfNone result (first_answer self.now.answers ≡ None) }
        ensures fits { IfSome result
            (λ octets. (9 ≤ length octets.now) × (length octets.now ≤ 249)) }
    {
        let answer = self.answers.front()?;
        Some(answer.as_slice())
    }

    /// The oldest own answer went out.
    pub fn own_sent(&mut self)
        requires { 0 < length self.old.answers }
        ensures { self.new ≡ answered self.old }
    {
        let _ = self.answers.pop_front();
    }

    /// The connection has ended: what was never put on the line, selections, first sendings and own
    /// answers are gone.
    pub fn cut(&mut self)
        ensures { self.new ≡ closed self.old }
    {
        // What is on the line stays there until the station answers or falls silent: it may act
        // on it yet. Only its answer has nobody left to go to.
        self.waiting.clear();
        self.selections.clear();
        self.sendings.clear();
        self.answers.clear();
        cut_all(&mut self.lines);
    }

    /// Selections end with time: those that wait for their con, and those whose con came,
    /// `select_ms` ago.
    pub fn due(&mut self, now: u64)
        ensures { self.new ≡ timed now self.old }
    {
        self.heed(Sign::Time(now));
    }
}
