//! The control centre's side: the connection's session, its octets, and the pieces that go up to
//! it.
ghost use Rattle.std.specs.Prelude.{◌≡◌, ◌<◌, ◌≤◌, true, List, [], length, IfSome, IfNone};
ghost use Rattle.std.specs.Prelude.{Some, None, IsTrue, ◌↔◌, take, option_map, if◌then◌else◌};
ghost use Rattle.apci.specs.Spelling.{Fits, spelling};
ghost use Rattle.apci.specs.Borrowed.{owned};
ghost use Rattle.apci.specs.Short.{apdu_of};
ghost use Rattle.session.specs.Session.{confirmed, pulled, may_send, is_open, is_transferring};
ghost use Rattle.session.specs.Session.{outcome_of};
ghost use Rattle.session.specs.Session.{timed_out as answers_late};
ghost use Rattle.session.specs.Ends.{IsConfirmed};
ghost use Rattle.asdu.specs.Reading.{value_of};
ghost use Rattle.asdu.specs.Translation.{report_pieces};
ghost use Rattle.events.specs.Queue.{free_places};
ghost use Rattle.gateway.specs.Agrees.{IsSpent};
ghost use Rattle.gateway.specs.Centre.{closed, opened, taken, pushed, next_frame, own_sent};
ghost use Rattle.gateway.specs.Serial.{judged, has_place};
ghost use Rattle.gateway.specs.State.{disconnected, connected, received as frame_received};
ghost use Rattle.gateway.specs.State.{with_serial, with_centre, with_session, wall_now};
ghost use Rattle.gateway.specs.Steps.{Judged, SendsPiece, SendsData, SpellFrame};
ghost use Rattle.gateway.specs.Finding.{Finds, FindsWhole};
ghost use Rattle.gateway.specs.Polls.{has_room};

use super::{Arrival, Gateway};
use apci::{Apdu, ApduRef, Assembler, FrontRef, Received, Short, front_ref, write_information};
use asdu::Asdu;
use events::Events;
use session::{Close, FrameOrigin, Session, Taken};
use std::marker::Model;

/// The session of the connection, the octets of a frame that isn't whole, and the pieces that no
/// connection has acknowledged.
#[derive(Drop)]
pub(crate) struct CentreSide {
    pub(crate) session: Session,
    pub(crate) assembler: Assembler,
    pub(crate) queue: Events,
}

impl Model for CentreSide {
    ghost use Rattle.gateway.specs.Centre.{Centre, IsWhole};

    ghost Value = { Centre };

    ghost view = { λ a. record {
      session = a.session;
      so_far = a.assembler.so_far;
      arrived = a.assembler.whole;
      queue = a.queue;
    } };

    // The pieces sent are those that the session counts as the queue's; and the assembler isn't
    // deaf.
    ghost invariant = { λ a. IsWhole a.session a.assembler.so_far a.queue };
}

impl CentreSide {
    /// Nothing is left of the connection: all kept pieces are unsent again.
    fn close(&mut self)
        ensures { self.new ≡ closed self.old }
    {
        // What was sent and not acknowledged may not have come, so it goes out again.
        self.queue.rewind();
        self.session.cut();
        // Half an APDU of this connection is no beginning of one of the next.
        self.assembler.clear();
    }

    fn open(&mut self, moment: u64)
        requires { self.old.queue.sent ≡ [] }
        ensures { self.new ≡ opened moment self.old }
    {
        self.session.open(moment);
    }

    /// One more I frame may go out.
    pub(super) fn may_send(&self) -> bool
        ensures { result ≡ may_send self.now.session }
    {
        self.session.may_send()
    }

    /// Data transfer runs.
    pub(super) fn is_transferring(&self) -> bool
        ensures { result ≡ is_transferring self.now.session }
    {
        self.session.is_transferring()
    }

    /// The pieces of any report have places.
    pub(super) fn has_room(&self) -> bool
        ensures { result ≡ has_room self.now.queue }
    {
        !self.queue.is_full()
    }

    /// Keeps the pieces of a report of at most 253 octets.
    pub(super) fn push(&mut self, report: &Asdu<'_>)
        requires room { 3 ≤ free_places self.old.queue }
        requires short { length report.now.octets.now ≤ 253 }
        ensures { self.new ≡ pushed (report_pieces (value_of report.now)) self.old }
    {
        self.queue.push_report(report);
    }

    /// Looks for an APDU in the octets that came. After a refusal the assembler begins afresh.
    fn feed(&mut self, piece: &[u8]) -> Arrival
        requires { 0 < length piece.now }
        ensures { Finds self.old piece.now result self.new }
    {
        let (count, arrived) = self.assembler.feed(piece);
        match arrived {
            Received::Whole => Arrival::Whole(count),
            Received::More => Arrival::More,
            Received::Never(_, _) => {
                self.assembler.clear();
                Arrival::Refused
            }
            Received::Deaf => {
                self.assembler.clear();
                Arrival::Refused
            }
        }
    }

    /// The APDU that came in pieces and is whole now.
    fn take_whole(&mut self) -> Apdu
        requires { (frame : Apdu) × (self.old.arrived ≡ Some frame) }
        ensures frame { self.old.arrived ≡ Some result }
        ensures rest { self.new ≡ record self.old { arrived = None } }
    {
        self.assembler.take().unwrap()
    }

    /// A whole APDU at the front of octets that came, if none had come since the last one, and how
    /// many octets it has. Its ASDU is lent where it stands.
    #[inline(always)]
    fn find_whole<'a>(&self, piece: &'a [u8]) -> Option<(ApduRef<'a>, usize)>
        requires { 0 < length piece.now }
        ensures { IfSome result (λ found.
            FindsWhole self.now piece.now (owned found.0) found.1) }
    {
        // What came before is its beginning, and only the assembler has both (docs/DECISIONS.md,
        // "A whole APDU is read where it stands").
        if !self.assembler.is_empty() {
            return None;
        }
        match front_ref(piece) {
            FrontRef::Whole(apdu, count) => Some((apdu, count)),
            FrontRef::More => None,
            FrontRef::Never(_, _) => None,
        }
    }

    /// Takes an APDU, and frees the places that it acknowledges.
    fn take_frame(&mut self, apdu: ApduRef<'_>, moment: u64) -> Taken
        ensures outcome { result ≡ outcome_of self.old.session (owned apdu.entry) }
        ensures state { self.new ≡ taken (owned apdu.entry) moment self.old }
        ensures places { free_places self.old.queue ≤ free_places self.new.queue }
    {
        let taken = self.session.take_ref(apdu, moment);
        // Own answers left their list when they went out. They aren't sent again.
        let (pieces, _own) = self.session.acked();
        self.queue.acknowledge(pieces);
        taken
    }

    /// The next confirmation that is due.
    fn confirm(&mut self) -> Option<Short>
        ensures due { (option_map apdu_of result, self.new.session) ≡ confirmed self.old.session }
        ensures rest { self.new ≡ record self.old { session = self.new.session } }
        ensures fits { IfSome result (λ frame. Fits (apdu_of frame)) }
    {
        self.session.confirm_short()
    }

    /// The next S frame or TESTFR act that is due.
    fn pull(&mut self, moment: u64) -> Option<Short>
        ensures due { (option_map apdu_of result, self.new.session)
            ≡ pulled moment self.old.session }
        ensures rest { self.new ≡ record self.old { session = self.new.session } }
        ensures fits { IfSome result (λ frame. Fits (apdu_of frame)) }
    {
        self.session.pull_short(moment)
    }

    /// Writes the frame of an own answer, and says how many octets it has.
    pub(super) fn write_own(&mut self, octets: &mut [u8; 255], asdu: &[u8], moment: u64) -> usize
        requires may { may_send self.old.session ≡ true }
        requires long { 9 ≤ length asdu.now }
        requires short { length asdu.now ≤ 249 }
        ensures frame { take result octets.new ≡ spelling (next_frame self.old.session asdu.now) }
        ensures fits { Fits (next_frame self.old.session asdu.now) }
        ensures within { result ≤ 255 }
        ensures state { self.new ≡ own_sent moment self.old }
    {
        let (ns, nr) = self.session.sent(FrameOrigin::Own, moment);
        write_information(octets, ns, nr, asdu)
    }

    /// Writes the frame of the oldest piece that isn't sent, if one may be sent, and says how many
    /// octets it has.
    fn write_report(&mut self, octets: &mut [u8; 255], moment: u64) -> Option<usize>
        ensures some { IfSome result (λ count.
            SpellFrame (λ frame. SendsPiece moment self.old frame self.new)
            (take count octets.new)) }
        ensures within { IfSome result (λ count. count ≤ 255) }
        ensures none { IfNone result ((self.new ≡ self.old)
            × (may_send self.new.session ≡ true → self.new.queue.unsent ≡ [])) }
    {
        if !self.session.may_send() {
            return None;
        }
        let asdu = self.queue.unsent()?;
        let (ns, nr) = self.session.sent(FrameOrigin::Queue, moment);
        let count = write_information(octets, ns, nr, asdu);
        self.queue.mark_sent();
        Some(count)
    }
}

impl Gateway {
    /// Nothing is left of the connection: all kept pieces are unsent again, and commands that were
    /// never put on the line are taken back.
    pub(crate) fn disconnect(&mut self)
        ensures { self.new ≡ disconnected self.old }
    {
        self.serial.cut();
        self.centre.close();
    }

    pub(crate) fn connect(&mut self)
        requires { self.old.centre.queue.sent ≡ [] }
        ensures { self.new ≡ connected self.old }
    {
        self.centre.open(self.moment);
    }

    pub(crate) fn is_open(&self) -> bool
        ensures { result ≡ is_open self.now.centre.session }
    {
        self.centre.session.is_open()
    }

    /// Looks for an APDU in the octets that came.
    pub(crate) fn feed(&mut self, piece: &[u8]) -> Arrival
        requires { 0 < length piece.now }
        ensures finds { Finds self.old.centre piece.now result self.new.centre }
        ensures rest { self.new ≡ with_centre self.new.centre self.old }
    {
        self.centre.feed(piece)
    }

    /// The APDU that came in pieces and is whole now.
    pub(crate) fn take_whole(&mut self) -> Apdu
        requires { (frame : Apdu) × (self.old.centre.arrived ≡ Some frame) }
        ensures frame { self.old.centre.arrived ≡ Some result }
        ensures rest { self.new ≡ with_centre (record self.old.centre { arrived = None }) self.old }
    {
        self.centre.take_whole()
    }

    /// A whole APDU at the front of octets that came, if none had come since the last one, and how
    /// many octets it has.
    #[inline(always)]
    pub(crate) fn find_whole<'a>(&self, piece: &'a [u8]) -> Option<(ApduRef<'a>, usize)>
        requires { 0 < length piece.now }
        ensures { IfSome result (λ found.
            FindsWhole self.now.centre piece.now (owned found.0) found.1) }
    {
        self.centre.find_whole(piece)
    }

    /// Takes an APDU, and judges its ASDU. If it closes the connection, the cause is answered.
    #[inline(always)]
    pub(crate) fn judge(&mut self, apdu: ApduRef<'_>) -> Option<Close>
        requires { Fits (owned apdu) }
        ensures { Judged self.old (owned apdu.entry) result self.new }
    {
        match self.take_frame(apdu) {
            Taken::Close(cause) => Some(cause),
            // It has no ASDU.
            Taken::Nothing => None,
            Taken::Asdu => self.judge_data(apdu),
        }
    }

    /// Takes an APDU, and frees the places that it acknowledges.
    fn take_frame(&mut self, apdu: ApduRef<'_>) -> Taken
        ensures outcome { result ≡ outcome_of self.old.centre.session (owned apdu.entry) }
        ensures state { self.new ≡ frame_received (owned apdu.entry) self.old }
    {
        self.centre.take_frame(apdu, self.moment)
    }

    /// Judges the ASDU of an APDU, if it has one. If its answer finds no place, that closes the
    /// connection.
    fn judge_data(&mut self, apdu: ApduRef<'_>) -> Option<Close>
        requires { Fits (owned apdu) }
        ensures state { self.new
            ≡ with_serial (judged (owned apdu.entry) self.old.moment (wall_now self.old)
            self.old.serial) self.old }
        ensures close { result ≡ (
            if has_place (owned apdu.entry) self.old.moment (wall_now self.old)
            self.old.serial.commands
            then None else Some Close.OwnAnswers) }
    {
        match apdu {
            ApduRef::I { asdu, .. } => {
                let wall = self.wall();
                self.serial.judge(asdu, self.moment, wall)
            }
            ApduRef::S { .. } => None,
            ApduRef::U(_) => None,
        }
    }

    /// The next confirmation that is due.
    pub(crate) fn confirm(&mut self) -> Option<Short>
        ensures due { (option_map apdu_of result, self.new.centre.session)
            ≡ confirmed self.old.centre.session }
        ensures rest { self.new ≡ with_session self.new.centre.session self.old }
        ensures fits { IfSome result (λ frame. Fits (apdu_of frame)) }
    {
        self.centre.confirm()
    }

    /// Whether no confirmation is due.
    pub(crate) fn is_confirmed(&self) -> bool
        ensures { IsTrue result ↔ IsConfirmed self.now.centre.session }
    {
        self.centre.session.is_confirmed()
    }

    /// The next S frame or TESTFR act that is due.
    pub(crate) fn pull(&mut self) -> Option<Short>
        ensures due { (option_map apdu_of result, self.new.centre.session)
            ≡ pulled self.old.moment self.old.centre.session }
        ensures rest { self.new ≡ with_session self.new.centre.session self.old }
        ensures fits { IfSome result (λ frame. Fits (apdu_of frame)) }
    {
        self.centre.pull(self.moment)
    }

    /// The cause to close the connection when a frame has been without an answer for t1.
    pub(crate) fn late(&self) -> Option<Close>
        ensures { result ≡ (
            if answers_late self.now.moment self.now.centre.session
            then Some Close.Timeout else None) }
    {
        self.centre.session.due(self.moment)
    }

    /// Whether no I frame goes out now: each own answer and each piece is sent, or none may be.
    pub(crate) fn has_sent_all(&self) -> bool
        ensures { IsTrue result ↔ IsSpent self.now }
    {
        if !self.centre.may_send() {
            return true;
        }
        self.serial.commands.own_answer().is_none() && self.centre.queue.unsent().is_none()
    }

    /// Writes the next I frame, and says how many octets it has: own answers go before the queue's
    /// pieces.
    pub(crate) fn write_data(&mut self, octets: &mut [u8; 255]) -> Option<usize>
        ensures some { IfSome result (λ count.
            SpellFrame (λ frame. SendsData self.old frame self.new) (take count octets.new)) }
        ensures within { IfSome result (λ count. count ≤ 255) }
        ensures none { IfNone result ((self.new ≡ self.old) × IsSpent self.new) }
    {
        let moment = self.moment;
        // Own answers first: they have sixteen places, and one without a place closes the
        // connection.
        if let Some(count) = self.serial.write_own(octets, &mut self.centre, moment) {
            return Some(count);
        }
        self.centre.write_report(octets, moment)
    }
}
