//! The line's side: its primary station, what its octets bring, and the commands that go down to
//! it.
ghost use Rattle.std.specs.Prelude.{◌≡◌, ℕ, ◌<◌, ◌≤◌, true, false, List, [], length};
ghost use Rattle.std.specs.Prelude.{Some, None, is_some, option_map, take, drop, if◌then◌else◌};
ghost use Rattle.std.specs.Prelude.{◌⊎◌, IfSome, IfNone};
ghost use Rattle.std.specs.List.{AllByRecursion};
ghost use Rattle.asdu.specs.Asdu.{IsAsdu};
ghost use Rattle.asdu.specs.InformationObjects.{monitor_objects_of};
ghost use Rattle.asdu.specs.Reading.{value_of};
ghost use Rattle.ft12.specs.Borrowed.{owned, FitsMemory};
ghost use Rattle.link.specs.declared.outcome.Outcome.TheVariants as exchange;
ghost use Rattle.link.specs.Exchanges.{Sending};
ghost use Rattle.link.specs.Leave.{is_poll_request, is_polling, is_report};
ghost use Rattle.link.specs.Primary.{request_of, answered_with};
ghost use Rattle.link.specs.Primary.{answer_outcome as outcome_of_frame};
ghost use Rattle.command.specs.Judging.{judged};
ghost use Rattle.events.specs.Queue.{free_places, octets_of};
ghost use Rattle.session.specs.Session.{may_send};
ghost use Rattle.gateway.specs.Polls.{has_room};
ghost use Rattle.gateway.specs.Counting.{is_answer_type, one_skipped, one_mirrored, one_lost};
ghost use Rattle.gateway.specs.Serial.{kept_until, all_kept, listed, refused, refusal_fits};
ghost use Rattle.gateway.specs.Serial.{arrived, answer_outcome, accepted, given_up, with_gap};
ghost use Rattle.gateway.specs.Serial.{without_gap, timed, settled};
ghost use Rattle.gateway.specs.Serial.{cut, next_request, asked};
ghost use Rattle.gateway.specs.State.{line_timed, settled as after_timers, after_request};
ghost use Rattle.gateway.specs.State.{with_serial};
ghost use Rattle.gateway.specs.Steps.{Mirrors, LearnsReport, Receives, Learns, SendsOwn};
ghost use Rattle.gateway.specs.Steps.{SpellFrame};
ghost use Rattle.gateway.specs.Works.{is_command_report};

use super::Gateway;
use super::centre::CentreSide;
use super::tagging::tag_pieces;
use crate::counts::Tally;
use crate::gaps::Gap;
use asdu::{Asdu, Piece, objects_are_those_of_the_asdu, pieces_carry_the_report, read, translate};
use command::{Act, Commands};
use elements::TypeId;
use ft12::{Frame, FrameRef};
use link::{LinkUser, Master, Outcome, Request, RequestKind, polls_wait_for_leave};
use session::Close;
use std::marker::Model;

/// The primary station of the line, the commands that go down to it, and what is counted of both.
#[derive(Drop)]
pub(crate) struct SerialSide {
    pub(crate) line: Master,
    pub(crate) commands: Commands,
    pub(crate) counts: Tally,
    /// The station whose link the step's silence took down.
    pub(crate) silent: Option<usize>,
    /// The gap that is still to be reported.
    pub(crate) gap: Option<Gap>,
}

impl Model for SerialSide {
    ghost use Rattle.gateway.specs.Serial.{Serial};

    ghost Value = { Serial };

    ghost view = { λ a. record {
      line = a.line;
      commands = a.commands;
      counts = a.counts;
      silent = a.silent;
      gap = a.gap;
    } };
}

impl Tally {
    /// One more report that isn't passed on.
    fn skip(&mut self)
        ensures { self.new ≡ one_skipped self.old }
    {
        self.skipped = self.skipped.saturating_add(1);
    }

    /// One more command that is given up.
    fn lose(&mut self)
        ensures { self.new ≡ one_lost self.old }
    {
        self.lost = self.lost.saturating_add(1);
    }

    /// One more report of a command type.
    fn mirror(&mut self)
        ensures { self.new ≡ one_mirrored self.old }
    {
        self.mirrors = self.mirrors.saturating_add(1);
    }
}

/// Whether a station answers a command by this type: a command type without a time tag.
fn is_answer(kind: TypeId) -> bool
    ensures { result ≡ is_answer_type kind }
{
    // From a station a type with a tag is skipped: the line knows none (docs/DECISIONS.md,
    // "Time-tagged commands").
    !kind.monitor() && !kind.tagged()
}

/// The commands, lent to the line: each waits in them until it goes out.
#[derive(Drop)]
struct Lent<'a> {
    commands: &'a Commands,
}

impl LinkUser for Lent<'_> {
    ghost use Rattle.gateway.specs.Serial.{waiting_in};

    ghost waiting = { λ user. waiting_in user.commands.now };

    fn command(&self, station: usize) -> Option<&[u8]> {
        self.commands.waiting(station)
    }
}

/// Keeps own answers, up to the first that finds no place.
fn keep_all(commands: &mut Commands, pieces: &[Piece]) -> bool
    requires long { AllByRecursion (λ p. (9 ≤ length p.items) × (length p.items ≤ 249)) pieces.now }
    ensures state { commands.new ≡ kept_until (octets_of pieces.now) commands.old }
    ensures all { result ≡ all_kept (octets_of pieces.now) commands.old }
{
    for piece in pieces {
        if !commands.own(piece) {
            return false;
        }
    }
    true
}

impl SerialSide {
    /// Takes octets of the line whose front is the whole answer to the request that is outstanding,
    /// and answers what came of them. Else nothing changes.
    fn receive_whole<'a>(&mut self, octets: &'a [u8]) -> Option<Outcome<'a>>
        ensures whole { IfSome result (λ outcome. (self.new ≡ arrived octets.now self.old)
            × (outcome ≡ answer_outcome octets.now self.old)) }
        ensures none { IfNone result (self.new ≡ self.old) }
        ensures report { IfSome result (λ outcome. is_report outcome ≡ true →
            (is_polling self.old.line ≡ true) × (is_polling self.new.line ≡ false)) }
        ensures polls { is_polling self.new.line ≡ true → is_polling self.old.line ≡ true }
    {
        polls_wait_for_leave();
        self.line.receive_whole(octets)
    }

    /// Gathers octets of the line up to one that may be the last of the answer, and says how many:
    /// all if none may, and then nothing comes of them. What is received with the others is what is
    /// received with all.
    fn gather_inner(&mut self, octets: &[u8]) -> usize
        ensures within { result ≤ length octets.now }
        ensures all { result ≡ length octets.now → (self.new ≡ arrived octets.now self.old)
            × (answer_outcome octets.now self.old ≡ exchange.None) }
        ensures rest { result < length octets.now →
            (arrived (drop result octets.now) self.new ≡ arrived octets.now self.old)
            × (answer_outcome (drop result octets.now) self.new
            ≡ answer_outcome octets.now self.old) }
        ensures others { self.new ≡ record self.old { line = self.new.line } }
        ensures polls { is_polling self.new.line ≡ true → is_polling self.old.line ≡ true }
    {
        polls_wait_for_leave();
        self.line.gather_inner(octets)
    }

    /// Gathers octets of the line up to the frame that is the answer.
    fn gather(&mut self, octets: &[u8]) -> Option<Frame>
        ensures whole { IfSome result (λ frame. (record self.new {
          line =
              answered_with self.new.line self.new.line.outstanding frame;
        } ≡ arrived octets.now self.old)
            × (outcome_of_frame self.new.line self.new.line.outstanding frame
            ≡ answer_outcome octets.now self.old)) }
        ensures none { IfNone result ((self.new ≡ arrived octets.now self.old)
            × (answer_outcome octets.now self.old ≡ exchange.None)) }
    {
        self.line.gather(octets)
    }

    /// Receives the frame that is the answer, and says what came of the exchange.
    fn receive_frame<'a>(&mut self, frame: FrameRef<'a>) -> Outcome<'a>
        requires { FitsMemory frame }
        ensures state { self.new ≡ record self.old {
          line =
              answered_with self.old.line self.old.line.outstanding (owned frame.entry);
        } }
        ensures outcome { result
            ≡ outcome_of_frame self.old.line self.old.line.outstanding (owned frame.entry) }
    {
        self.line.receive(frame)
    }

    /// The command on a station's line was accepted.
    fn accept(&mut self, station: usize)
        ensures { self.new ≡ accepted station self.old }
    {
        self.commands.accepted(station);
    }

    /// A session of the station's link ended with a gap.
    fn note_gap(&mut self, station: usize, session: u64)
        ensures { self.new ≡ with_gap station session self.old }
    {
        self.gap = Some(Gap { station, session });
    }

    /// One more report that isn't passed on.
    fn skip(&mut self)
        ensures { self.new ≡ record self.old { counts = one_skipped self.old.counts } }
    {
        self.counts.skip();
    }

    /// A station answered a command: if data transfer runs, the answer is passed on as own answers.
    /// `false` says that one of these found no place.
    ///
    /// It stands apart, so that other reports make no place for its pieces.
    #[inline(never)]
    fn mirror(&mut self, asdu: &Asdu<'_>, moment: u64, is_transferring: bool) -> bool
        requires short { length asdu.now.octets.now ≤ 253 }
        requires found { IsAsdu asdu.now.sizes (value_of asdu.now) asdu.now.octets.now }
        requires plain { monitor_objects_of asdu.now.sizes asdu.now.octets.now ≡ [] }
        ensures { Mirrors asdu.now.sizes moment is_transferring self.old asdu.now.octets.now
            result self.new }
    {
        objects_are_those_of_the_asdu();
        // Also while data transfer is stopped: what the station confirmed counts for a selection.
        let tag = self.commands.mirror(asdu, moment);
        let mut pieces = translate(asdu);
        tag_pieces(&mut pieces, tag);
        if is_transferring {
            return keep_all(&mut self.commands, &pieces);
        }
        self.counts.mirror();
        true
    }

    /// A station was busy: its command is answered, if the connection that sent it is open.
    #[inline(never)]
    fn refuse(&mut self, station: usize) -> bool
        ensures state { self.new ≡ refused station self.old }
        ensures all { result ≡ refusal_fits station self.old }
    {
        match self.commands.busy(station) {
            Some(answer) => self.commands.own(&answer),
            None => true,
        }
    }

    /// The command on a station's line, if there is one, is given up.
    #[inline(never)]
    pub(super) fn give_up(&mut self, station: usize)
        ensures { self.new ≡ given_up station self.old }
    {
        if self.commands.lost(station) {
            self.counts.lose();
        }
    }

    /// Ends the line's exchange if its time is over.
    fn end_late_exchange(&mut self, moment: u64)
        ensures state { self.new ≡ timed moment self.old }
        ensures polls { is_polling self.new.line ≡ true → is_polling self.old.line ≡ true }
    {
        polls_wait_for_leave();
        self.silent = match self.line.due(moment) {
            Outcome::Down(station) => Some(station),
            _ => None,
        };
    }

    /// The timers of commands: the command of a station that fell silent is given up, and
    /// selections end.
    fn run_command_timers(&mut self, moment: u64)
        ensures { self.new ≡ settled moment self.old }
    {
        if let Some(station) = self.silent {
            self.give_up(station);
        }
        self.silent = None;
        self.commands.due(moment);
    }

    /// The gap that is still to be reported, if there is one.
    fn take_gap(&mut self) -> Option<Gap>
        ensures gap { result ≡ self.old.gap }
        ensures state { self.new ≡ without_gap self.old }
    {
        self.gap.take()
    }

    /// Commands that were never put on the line, selections and own answers go.
    pub(super) fn cut(&mut self)
        ensures { self.new ≡ cut self.old }
    {
        self.commands.cut();
    }

    /// Judges an ASDU of the control centre. If its answer finds no place, that closes the
    /// connection.
    ///
    /// It stands apart, so that a frame without an ASDU makes no place for an answer.
    #[inline(never)]
    pub(super) fn judge(&mut self, octets: &[u8], moment: u64, wall: Option<u64>) -> Option<Close>
        requires long { 9 ≤ length octets.now }
        requires short { length octets.now ≤ 249 }
        ensures state { self.new ≡ record self.old {
          commands = kept_until (listed (judged octets.now moment wall self.old.commands).0)
              (judged octets.now moment wall self.old.commands).1;
        } }
        ensures close { result ≡ (
            if all_kept (listed (judged octets.now moment wall self.old.commands).0)
            (judged octets.now moment wall self.old.commands).1
            then None else Some Close.OwnAnswers) }
    {
        match self.commands.judge_command(octets, moment, wall) {
            Act::Forward => None,
            Act::Own(answer) => {
                if self.commands.own(&answer) {
                    None
                } else {
                    Some(Close::OwnAnswers)
                }
            }
        }
    }

    /// The line's next request. A command that goes out for the first time waits no more.
    fn next(&mut self, moment: u64, may_poll: bool) -> Option<Request>
        ensures state { self.new ≡ asked moment may_poll (next_request may_poll self.old) self.old }
        ensures request { result
            ≡ option_map (request_of self.old.line) (next_request may_poll self.old) }
        ensures polls { is_polling self.new.line ≡ true →
            (is_polling self.old.line ≡ true) ⊎ (may_poll ≡ true) }
    {
        polls_wait_for_leave();
        let user = Lent {
            commands: &self.commands,
        };
        // It is looked at where it stands: no request is moved.
        let next = self.line.next(moment, may_poll, &user);
        if let Some(request) = &next {
            if request.kind == RequestKind::Command && !request.again {
                self.commands.on_line(request.station);
            }
        }
        next
    }

    /// Writes the frame of the oldest own answer, if one may be sent, and says how many octets it
    /// has.
    pub(super) fn write_own(
        &mut self,
        octets: &mut [u8; 255],
        centre: &mut CentreSide,
        moment: u64,
    ) -> Option<usize>
        ensures some { IfSome result (λ count.
            SpellFrame (λ frame. SendsOwn moment self.old centre.old frame self.new centre.new)
            (take count octets.new)) }
        ensures within { IfSome result (λ count. count ≤ 255) }
        ensures none { IfNone result ((self.new ≡ self.old) × (centre.new ≡ centre.old)
            × (may_send centre.new.session ≡ true → self.new.commands.answers ≡ [])) }
    {
        if !centre.may_send() {
            return None;
        }
        // It is taken off the list only once its frame is made: no answer is lost in between.
        let asdu = self.commands.own_answer()?;
        let count = centre.write_own(octets, asdu, moment);
        self.commands.own_sent();
        Some(count)
    }
}

impl Gateway {
    /// Takes octets of the line, and keeps what comes with them. `false` says that an own answer
    /// found no place.
    pub(crate) fn receive_line(&mut self, octets: &[u8]) -> bool
        ensures { Receives self.old octets.now result self.new }
    {
        match self.serial.receive_whole(octets) {
            Some(outcome) => self.learn(&outcome),
            None => self.receive_piece(octets),
        }
    }

    /// As `receive_line`, for octets that aren't a whole answer by themselves.
    fn receive_piece(&mut self, octets: &[u8]) -> bool
        ensures { Receives self.old octets.now result self.new }
    {
        let count = self.serial.gather_inner(octets);
        if count == octets.len() {
            return true;
        }
        self.receive_end(&octets[count..])
    }

    /// As `receive_line`, for octets of which the first may be the last of an answer.
    fn receive_end(&mut self, octets: &[u8]) -> bool
        ensures { Receives self.old octets.now result self.new }
    {
        polls_wait_for_leave();
        let Some(frame) = self.serial.gather(octets) else {
            return true;
        };
        let outcome = self.serial.receive_frame(frame.lent());
        self.learn(&outcome)
    }

    /// What came of an exchange.
    #[inline(always)]
    fn learn(&mut self, outcome: &Outcome<'_>) -> bool
        requires room { is_report outcome.now ≡ true →
            (3 ≤ free_places self.old.centre.queue) × (is_polling self.old.serial.line ≡ false) }
        ensures { Learns self.old outcome.now result self.new }
    {
        match outcome {
            Outcome::Report(_, report) => self.take_report(report.octets()),
            Outcome::Accepted(station) => {
                self.serial.accept(*station);
                true
            }
            Outcome::Busy(station) => self.serial.refuse(*station),
            Outcome::Down(station) => {
                self.serial.give_up(*station);
                true
            }
            Outcome::StartedGap(station, session) => {
                self.serial.note_gap(*station, *session);
                true
            }
            Outcome::None => true,
            Outcome::Started(_) => true,
            Outcome::Empty(_) => true,
        }
    }

    /// Keeps the pieces of a report that is passed on. An answer to a command is passed on as own
    /// answers while data transfer runs, and any other report is counted.
    #[inline(always)]
    fn take_report(&mut self, report: &[u8]) -> bool
        requires short { length report.now ≤ 253 }
        requires room { 3 ≤ free_places self.old.centre.queue }
        requires done { is_polling self.old.serial.line ≡ false }
        ensures { LearnsReport (is_command_report self.old.sizes report.now)
            self.old report.now result self.new }
    {
        let Ok(asdu) = read(self.sizes, report) else {
            self.serial.skip();
            return true;
        };
        if asdu.is_passed_on() {
            pieces_carry_the_report();
            self.centre.push(&asdu);
            return true;
        }
        if !is_answer(asdu.kind) {
            self.serial.skip();
            return true;
        }
        let moment = self.moment;
        let is_transferring = self.centre.is_transferring();
        self.serial.mirror(&asdu, moment, is_transferring)
    }

    /// Ends the line's exchange if its time is over.
    pub(crate) fn end_late_exchange(&mut self)
        ensures { self.new ≡ line_timed self.old }
    {
        self.serial.end_late_exchange(self.moment);
    }

    /// The timers of commands.
    pub(crate) fn run_command_timers(&mut self)
        ensures { self.new ≡ after_timers self.old }
    {
        self.serial.run_command_timers(self.moment);
    }

    /// The gap that is still to be reported, if there is one: it is reported now.
    pub(crate) fn take_gap(&mut self) -> Option<Gap>
        ensures gap { result ≡ self.old.serial.gap }
        ensures state { self.new ≡ with_serial (without_gap self.old.serial) self.old }
    {
        self.serial.take_gap()
    }

    /// Whether a request of the line is outstanding, so that there is no next one.
    pub(crate) fn is_awaiting(&self) -> bool
        ensures { result ≡ is_some self.now.serial.line.outstanding }
    {
        self.serial.line.is_awaiting()
    }

    /// The line's next request. It is a poll only if the queue has room, or if it is sent again at
    /// once. A command that goes out for the first time waits no more.
    pub(crate) fn next_request(&mut self) -> Option<Request>
        ensures state { self.new ≡ after_request self.old
            (next_request (has_room self.old.centre.queue) self.old.serial) }
        ensures request { result ≡ option_map (request_of self.old.serial.line)
            (next_request (has_room self.old.centre.queue) self.old.serial) }
        ensures room { (s : Sending) →
            next_request (has_room self.old.centre.queue) self.old.serial ≡ Some s →
            is_poll_request s.request ≡ true → 3 ≤ free_places self.old.centre.queue }
    {
        polls_wait_for_leave();
        let may_poll = self.centre.has_room();
        self.serial.next(self.moment, may_poll)
    }
}
