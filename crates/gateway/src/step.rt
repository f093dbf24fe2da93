//! One event, and what goes out at it.
ghost use Rattle.std.specs.Prelude.{◌≡◌, ℕ, ◌+◌, ◌<◌, ◌≤◌, Bool, true, false, List, [], ◌∷◌, ◌++◌};
ghost use Rattle.std.specs.Prelude.{length, drop, IfSome, Some, None, Option, if◌then◌else◌};
ghost use Rattle.std.specs.Bool.{OnTrue};
ghost use Rattle.apci.specs.declared.apdu.Apdu.{Apdu};
ghost use Rattle.apci.specs.Spelling.{Fits, spelling};
ghost use Rattle.apci.specs.Borrowed.{owned};
ghost use Rattle.apci.specs.Short.{apdu_of};
ghost use Rattle.session.specs.Session.{is_open, pulled};
ghost use Rattle.session.specs.Ends.{after_confirm, after_pull, IsConfirmed, IsInTime};
ghost use Rattle.gateway.specs.Log.{LogEntry, Went, LineIn, TcpOut, Opened, with_news};
ghost use Rattle.gateway.specs.Ports.{input_of};
ghost use Rattle.gateway.specs.Reports.{Setup};
ghost use Rattle.gateway.specs.Traffic.{IsFaithful};
ghost use Rattle.gateway.specs.Accounts.{IsAccounted};
ghost use Rattle.gateway.specs.State.{State, disconnected, connected, with_session, with_octets};
ghost use Rattle.gateway.specs.Agrees.{IsClear, Tracks, Awaits, Meets, Leaves, Follows, HasCome};
ghost use Rattle.gateway.specs.Agrees.{Rests, IsSpent, StaysInTime};
ghost use Rattle.gateway.specs.Steps.{MayClose, ReceivesEvent, Begins};
ghost use Rattle.gateway.specs.Phases.{Phase, Idle, Timed, Asked, IsFlushing};
ghost use Rattle.gateway.specs.Judging.{Goes, IsOnward, faults_in};
ghost use Rattle.gateway.specs.Runs.{Puts, faults_unless};

use crate::engine::{Arrival, Gateway};
use crate::ports::{Action, Event, Port};
use apci::{ApduRef, Short};
use link::line_keeps_the_procedures;
use session::{Close, calls_come_to_an_end};

/// What an APDU leads to.
#[derive(Clone, Copy)]
pub enum Progress {
    /// It is taken, and the octets after it are next.
    On,
    /// Nothing is left to be done with the octets.
    Over,
    /// The device failed.
    Failed,
}

impl Gateway {
    /// Hands the octets of an APDU to TCP.
    fn hand<P: Port>(&self, octets: &[u8], port: &mut P) -> bool
        requires { P.failed port.old < u64.MAX }
        ensures logged { P.log port.new ≡ (if result
            then with_news (P.log port.old) (Went self.now.moment (TcpOut octets.now) ∷ [])
            else P.log port.old) }
        ensures puts { Puts P.log P.script P.failed port.old port.new (faults_unless result) }
    {
        port.put(self.moment(), &Action::Tcp(octets))
    }

    /// Hands an APDU without an ASDU to TCP.
    fn hand_short<P: Port>(&self, apdu: Short, port: &mut P) -> bool
        requires ready { P.failed port.old < u64.MAX }
        requires fits { Fits (apdu_of apdu) }
        ensures logged { P.log port.new ≡ (if result
            then with_news (P.log port.old)
            (Went self.now.moment (TcpOut (spelling (apdu_of apdu))) ∷ [])
            else P.log port.old) }
        ensures puts { Puts P.log P.script P.failed port.old port.new (faults_unless result) }
    {
        self.hand(&apdu.to_octets(), port)
    }

    /// Sends the next confirmation, if one is due.
    fn send_confirmation<P: Port>(&mut self, port: &mut P) -> bool
        requires { P.failed port.old < u64.MAX }
        ensures kept { (p : Setup) (unjudged : List ℕ) (phase : Phase) → IsFlushing phase →
            Tracks p self.old (P.log port.old) unjudged phase →
            Leaves result p self.new (P.log port.new) unjudged phase }
        ensures open { is_open self.new.centre.session ≡ is_open self.old.centre.session }
        ensures next { OnTrue result (self.new
            ≡ with_session (after_confirm self.old.centre.session) self.old) }
        ensures puts { Puts P.log P.script P.failed port.old port.new (faults_unless result) }
    {
        match self.confirm() {
            None => true,
            Some(apdu) => self.hand_short(apdu, port),
        }
    }

    /// Sends the confirmations that are due: an S frame, STARTDT con or TESTFR con, and STOPDT con.
    #[inline(always)]
    fn send_confirmations<P: Port>(&mut self, port: &mut P) -> bool
        requires { P.failed port.old < u64.MAX }
        ensures kept { (p : Setup) (unjudged : List ℕ) (phase : Phase) → IsFlushing phase →
            Tracks p self.old (P.log port.old) unjudged phase →
            Leaves result p self.new (P.log port.new) unjudged phase }
        ensures open { is_open self.new.centre.session ≡ is_open self.old.centre.session }
        ensures confirmed { OnTrue result (IsConfirmed self.new.centre.session) }
        ensures in_time { OnTrue result (StaysInTime self.old self.new) }
        ensures puts { Puts P.log P.script P.failed port.old port.new (faults_unless result) }
    {
        calls_come_to_an_end();
        if self.is_confirmed() {
            return true;
        }
        if !self.send_confirmation(port) {
            return false;
        }
        // Most often that was all.
        if self.is_confirmed() {
            return true;
        }
        // At most two more: an S frame, a reply and STOPDT con are all that can be due at once.
        if !self.send_confirmation(port) {
            return false;
        }
        self.send_confirmation(port)
    }

    /// Sends own answers and reports while the window is open.
    fn send_data<P: Port>(&mut self, port: &mut P) -> bool
        requires { P.failed port.old < u64.MAX }
        ensures kept { (p : Setup) (unjudged : List ℕ) (phase : Phase) → IsFlushing phase →
            IsConfirmed self.old.centre.session →
            Tracks p self.old (P.log port.old) unjudged phase →
            Leaves result p self.new (P.log port.new) unjudged phase }
        ensures open { is_open self.new.centre.session ≡ is_open self.old.centre.session }
        ensures spent { OnTrue result (IsSpent self.new) }
        ensures confirmed { OnTrue result (IsConfirmed self.old.centre.session →
            IsConfirmed self.new.centre.session) }
        ensures in_time { OnTrue result (StaysInTime self.old self.new) }
        ensures puts { Puts P.log P.script P.failed port.old port.new (faults_unless result) }
    {
        calls_come_to_an_end();
        // One place for the octets of all frames: none is moved once it is written.
        let mut octets = [0; 255];
        while let Some(count) = self.write_data(&mut octets) {
            if !self.hand(&octets[..count], port) {
                return false;
            }
        }
        true
    }

    /// Sends the S frame, or else the TESTFR act, if one is due.
    fn send_due<P: Port>(&mut self, port: &mut P) -> bool
        requires { P.failed port.old < u64.MAX }
        ensures kept { (p : Setup) (unjudged : List ℕ) (phase : Phase) → IsFlushing phase →
            IsClear self.old → Tracks p self.old (P.log port.old) unjudged phase →
            Leaves result p self.new (P.log port.new) unjudged phase }
        ensures open { is_open self.new.centre.session ≡ is_open self.old.centre.session }
        ensures next { OnTrue result (self.new
            ≡ with_session (after_pull self.old.moment self.old.centre.session) self.old) }
        ensures puts { Puts P.log P.script P.failed port.old port.new (faults_unless result) }
    {
        match self.pull() {
            None => true,
            Some(apdu) => self.hand_short(apdu, port),
        }
    }

    /// Sends the S frame and the TESTFR act that are due.
    #[inline(always)]
    fn send_dues<P: Port>(&mut self, port: &mut P) -> bool
        requires { P.failed port.old < u64.MAX }
        ensures kept { (p : Setup) (unjudged : List ℕ) (phase : Phase) → IsFlushing phase →
            IsClear self.old → Tracks p self.old (P.log port.old) unjudged phase →
            Leaves result p self.new (P.log port.new) unjudged phase }
        ensures open { is_open self.new.centre.session ≡ is_open self.old.centre.session }
        ensures spent { OnTrue result (IsSpent self.old → IsSpent self.new) }
        ensures confirmed { OnTrue result (IsConfirmed self.old.centre.session →
            IsConfirmed self.new.centre.session) }
        ensures pulled { OnTrue result ((pulled self.new.moment self.new.centre.session).0 ≡ None) }
        ensures in_time { OnTrue result (StaysInTime self.old self.new) }
        ensures puts { Puts P.log P.script P.failed port.old port.new (faults_unless result) }
    {
        calls_come_to_an_end();
        match self.pull() {
            None => true,
            Some(apdu) => {
                if self.hand_short(apdu, port) {
                    return self.send_due(port);
                }
                false
            }
        }
    }

    /// Sends what may be sent: confirmations, then reports, then what else is due.
    #[inline(always)]
    fn flush<P: Port>(&mut self, port: &mut P) -> bool
        requires { P.failed port.old < u64.MAX }
        ensures kept { (p : Setup) (unjudged : List ℕ) (phase : Phase) → IsFlushing phase →
            Tracks p self.old (P.log port.old) unjudged phase →
            Leaves result p self.new (P.log port.new) unjudged phase }
        ensures open { is_open self.new.centre.session ≡ is_open self.old.centre.session }
        ensures spent { OnTrue result (IsSpent self.new) }
        ensures confirmed { OnTrue result (IsConfirmed self.new.centre.session) }
        ensures pulled { OnTrue result ((pulled self.new.moment self.new.centre.session).0 ≡ None) }
        ensures in_time { OnTrue result (StaysInTime self.old self.new) }
        ensures puts { Puts P.log P.script P.failed port.old port.new (faults_unless result) }
    {
        // First: the control centre awaits STARTDT con before any I frame (IEC 60870-5-104, 5.3).
        if !self.send_confirmations(port) {
            return false;
        }
        if self.has_sent_all() {
            return self.send_dues(port);
        }
        if !self.send_data(port) {
            return false;
        }
        // Last: an I frame that has just gone out acknowledges, and no S frame is due any more.
        self.send_dues(port)
    }

    /// Closes the connection.
    fn close<P: Port>(&mut self, cause: Close, port: &mut P) -> bool
        requires { P.failed port.old < u64.MAX }
        ensures kept { (p : Setup) (phase : Phase) →
            IfSome (P.log port.old) (MayClose p self.old cause phase) →
            Leaves result p self.new (P.log port.new) [] phase }
        ensures closed { OnTrue result (self.new ≡ disconnected self.old) }
        ensures puts { Puts P.log P.script P.failed port.old port.new (faults_unless result) }
    {
        let went = port.put(self.moment(), &Action::Close(cause));
        if went {
            self.disconnect();
        }
        went
    }

    /// Takes an APDU, and sends what it makes room for, or closes the connection.
    #[inline(always)]
    fn take_apdu<P: Port>(&mut self, apdu: ApduRef<'_>, port: &mut P) -> Progress
        requires ready { P.failed port.old < u64.MAX }
        requires fits { Fits (owned apdu) }
        requires open { is_open self.old.centre.session ≡ true }
        requires whole { self.old.centre.so_far ≡ Some [] }
        ensures kept { (p : Setup) (rest : List ℕ) →
            Meets p self.old (P.log port.old) (spelling (owned apdu.entry) ++ rest) rest →
            Goes result p self.new (P.log port.new) rest }
        ensures open { IsOnward result (is_open self.new.centre.session ≡ true) }
        ensures puts { Puts P.log P.script P.failed port.old port.new (faults_in result) }
    {
        if let Some(cause) = self.judge(apdu) {
            return self.shut(cause, port);
        }
        // Behind each APDU and not once a piece: the next one is taken when no confirmation is
        // due.
        if !self.flush(port) {
            return Progress::Failed;
        }
        Progress::On
    }

    /// Takes what stands at the front of the octets, and says how many that is. A whole APDU is
    /// read where it stands; the assembler takes only what a piece leaves over.
    fn take_front<P: Port>(&mut self, octets: &[u8], port: &mut P) -> (usize, Progress)
        requires ready { P.failed port.old < u64.MAX }
        requires some { 0 < length octets.now }
        requires open { is_open self.old.centre.session ≡ true }
        ensures kept { (p : Setup) → Awaits p self.old (P.log port.old) octets.now →
            Goes result.1 p self.new (P.log port.new) (drop result.0 octets.now) }
        ensures open { IsOnward result.1 (is_open self.new.centre.session ≡ true) }
        ensures progress { IsOnward result.1 ((0 < result.0) × (result.0 ≤ length octets.now)) }
        ensures puts { Puts P.log P.script P.failed port.old port.new (faults_in result.1) }
    {
        if let Some((apdu, count)) = self.find_whole(octets) {
            return (count, self.take_apdu(apdu, port));
        }
        match self.feed(octets) {
            Arrival::Whole(count) => (count, self.take_received(port)),
            Arrival::More => (0, Progress::Over),
            Arrival::Refused => (0, self.shut(Close::Grammar, port)),
        }
    }

    /// Takes the APDU that came in pieces and is whole now.
    fn take_received<P: Port>(&mut self, port: &mut P) -> Progress
        requires ready { P.failed port.old < u64.MAX }
        requires arrived { (frame : Apdu) × (self.old.centre.arrived ≡ Some frame) × Fits frame }
        requires open { is_open self.old.centre.session ≡ true }
        requires whole { self.old.centre.so_far ≡ Some [] }
        ensures kept { (p : Setup) (frame : Apdu) (rest : List ℕ) →
            self.old.centre.arrived ≡ Some frame →
            Meets p (with_octets (Some []) self.old) (P.log port.old) (spelling frame ++ rest)
            rest →
            Goes result p self.new (P.log port.new) rest }
        ensures open { IsOnward result (is_open self.new.centre.session ≡ true) }
        ensures puts { Puts P.log P.script P.failed port.old port.new (faults_in result) }
    {
        let apdu = self.take_whole();
        self.take_apdu(apdu.as_ref(), port)
    }

    /// Closes the connection, and the octets that are left are dropped.
    fn shut<P: Port>(&mut self, cause: Close, port: &mut P) -> Progress
        requires { P.failed port.old < u64.MAX }
        ensures kept { (p : Setup) → IfSome (P.log port.old) (MayClose p self.old cause Idle) →
            (rest : List ℕ) → Goes result p self.new (P.log port.new) rest }
        ensures over { IsOnward result ⊥ }
        ensures puts { Puts P.log P.script P.failed port.old port.new (faults_in result) }
    {
        if !self.close(cause, port) {
            return Progress::Failed;
        }
        Progress::Over
    }

    /// Takes the octets of a piece.
    fn receive<P: Port>(&mut self, octets: &[u8], port: &mut P) -> bool
        requires ready { P.failed port.old < u64.MAX }
        requires open { is_open self.old.centre.session ≡ true }
        ensures kept { (p : Setup) → Awaits p self.old (P.log port.old) octets.now →
            Leaves result p self.new (P.log port.new) [] Idle }
        ensures puts { Puts P.log P.script P.failed port.old port.new (faults_unless result) }
    {
        let mut done = 0;
        while done < octets.len() {
            let (count, went) = self.take_front(&octets[done..], port);
            match went {
                Progress::On => done += count,
                // The first cause in the octets decides (docs/DECISIONS.md, "Several causes in one
                // piece").
                Progress::Over => return true,
                Progress::Failed => return false,
            }
        }
        true
    }

    /// Begins a connection, in place of one that is open.
    fn begin<P: Port>(&mut self, port: &mut P) -> bool
        requires { P.failed port.old < u64.MAX }
        ensures kept { (p : Setup) (s : State) (now : ℕ) (fits : Bool) →
            Begins s now Opened fits self.old → IfSome (P.log port.old) (HasCome p s now Opened) →
            Leaves result p self.new (P.log port.new) [] Idle }
        ensures puts { Puts P.log P.script P.failed port.old port.new (faults_unless result) }
    {
        if self.is_open() {
            return self.replace(port);
        }
        line_keeps_the_procedures();
        self.renew();
        true
    }

    /// Begins a connection, and closes the one before it.
    fn replace<P: Port>(&mut self, port: &mut P) -> bool
        requires ready { P.failed port.old < u64.MAX }
        requires open { is_open self.old.centre.session ≡ true }
        ensures kept { (p : Setup) (s : State) (now : ℕ) (fits : Bool) →
            Begins s now Opened fits self.old → IfSome (P.log port.old) (HasCome p s now Opened) →
            Leaves result p self.new (P.log port.new) [] Idle }
        ensures puts { Puts P.log P.script P.failed port.old port.new (faults_unless result) }
    {
        line_keeps_the_procedures();
        // The old one may be long dead, and t1 alone would show it (docs/DECISIONS.md, "A new
        // connection replaces the open one").
        //
        // A live port shuts nothing now: the new connection has taken the place of the old one
        // (docs/DECISIONS.md, "A close with cause 7").
        if !port.put(self.moment(), &Action::Close(Close::Replaced)) {
            return false;
        }
        self.renew();
        true
    }

    fn renew(&mut self)
        ensures { self.new ≡ connected (disconnected self.old) }
    {
        self.disconnect();
        self.connect();
    }

    /// Takes what an event means for the line. `false` says that an own answer found no place.
    #[inline(always)]
    fn receive_event(&mut self, event: Event<'_>) -> bool
        ensures { ReceivesEvent self.old (input_of event.entry) result self.new }
    {
        match event {
            Event::Line(octets) => self.receive_line(octets),
            Event::Open => true,
            Event::Bytes(_) => true,
            Event::Cut => true,
            Event::Tick => true,
            Event::Wall(_) => true,
        }
    }

    /// Takes what an event means for the connection; `fits` says whether what the line brought of
    /// own answers found places.
    fn take_connection_event<P: Port>(&mut self, event: Event<'_>, fits: bool, port: &mut P) -> bool
        requires { P.failed port.old < u64.MAX }
        ensures kept { (p : Setup) (s : State) (now : ℕ) →
            Begins s now (input_of event.entry) fits self.old →
            IfSome (P.log port.old) (HasCome p s now (input_of event.entry)) →
            Leaves result p self.new (P.log port.new) [] Idle }
        ensures puts { Puts P.log P.script P.failed port.old port.new (faults_unless result) }
    {
        line_keeps_the_procedures();
        match event {
            Event::Line(_) => self.end_line(fits, port),
            Event::Open => self.begin(port),
            Event::Bytes(octets) => self.take_bytes(octets, port),
            Event::Cut => {
                self.disconnect();
                true
            }
            Event::Tick => true,
            Event::Wall(number) => {
                self.set_wall(number);
                true
            }
        }
    }

    /// Closes the connection if the line brought an own answer that found no place.
    fn end_line<P: Port>(&mut self, fits: bool, port: &mut P) -> bool
        requires { P.failed port.old < u64.MAX }
        ensures kept { (p : Setup) (s : State) (now : ℕ) (octets : List ℕ) →
            Begins s now (LineIn octets) fits self.old →
            IfSome (P.log port.old) (HasCome p s now (LineIn octets)) →
            Leaves result p self.new (P.log port.new) [] Idle }
        ensures puts { Puts P.log P.script P.failed port.old port.new (faults_unless result) }
    {
        line_keeps_the_procedures();
        if fits {
            return true;
        }
        // Never: without a connection nothing is passed on, and no own answer is made
        // (docs/DECISIONS.md, "No own answer without a connection").
        if !self.is_open() {
            return true;
        }
        // Dropped, it would leave the control centre waiting, or sure of its command
        // (docs/DECISIONS.md, "An own answer without a place").
        self.close(Close::OwnAnswers, port)
    }

    /// Takes the octets of a piece, if a connection is open.
    fn take_bytes<P: Port>(&mut self, octets: &[u8], port: &mut P) -> bool
        requires { P.failed port.old < u64.MAX }
        ensures kept { (p : Setup) →
            Awaits p self.old (P.log port.old) (if is_open self.old.centre.session then octets.now
            else []) → Leaves result p self.new (P.log port.new) [] Idle }
        ensures puts { Puts P.log P.script P.failed port.old port.new (faults_unless result) }
    {
        // They came behind a close, of which their sender doesn't know yet.
        if !self.is_open() {
            return true;
        }
        self.receive(octets, port)
    }

    /// Reports the gap of the session that the event's octets have ended, if there is one.
    fn report_gap<P: Port>(&mut self, port: &mut P) -> bool
        requires { P.failed port.old < u64.MAX }
        ensures kept { (p : Setup) → Tracks p self.old (P.log port.old) [] Idle →
            Leaves result p self.new (P.log port.new) [] Idle }
        ensures logged { self.new.serial.gap ≡ None }
        ensures puts { Puts P.log P.script P.failed port.old port.new (faults_unless result) }
    {
        match self.take_gap() {
            None => true,
            Some(gap) => port.put(
                self.moment(),
                &Action::Gap {
                    station: gap.station,
                    session: gap.session,
                },
            ),
        }
    }

    /// Closes the connection if an answer is late, once each gap is reported.
    fn close_if_late<P: Port>(&mut self, port: &mut P) -> bool
        requires ready { P.failed port.old < u64.MAX }
        requires logged { self.old.serial.gap ≡ None }
        ensures kept { (p : Setup) → Tracks p self.old (P.log port.old) [] Timed →
            Leaves result p self.new (P.log port.new) [] Timed }
        ensures in_time { OnTrue result (IsInTime self.new.moment self.new.centre.session) }
        ensures logged { OnTrue result (self.new.serial.gap ≡ None) }
        ensures puts { Puts P.log P.script P.failed port.old port.new (faults_unless result) }
    {
        match self.late() {
            None => true,
            Some(cause) => self.close(cause, port),
        }
    }

    /// Puts out the line's next request, if there is one, once each gap is reported and no answer
    /// is late.
    fn send_request<P: Port>(&mut self, port: &mut P) -> bool
        requires ready { P.failed port.old < u64.MAX }
        requires logged { self.old.serial.gap ≡ None }
        requires in_time { IsInTime self.old.moment self.old.centre.session }
        ensures kept { (p : Setup) → Tracks p self.old (P.log port.old) [] Timed →
            Leaves result p self.new (P.log port.new) [] Asked }
        ensures session { self.new.centre.session ≡ self.old.centre.session }
        ensures moment { self.new.moment ≡ self.old.moment }
        ensures puts { Puts P.log P.script P.failed port.old port.new (faults_unless result) }
    {
        line_keeps_the_procedures();
        // Nothing is sought while an answer is awaited, as at each octet that comes in a piece.
        if self.is_awaiting() {
            return true;
        }
        let next = self.next_request();
        match &next {
            None => true,
            Some(request) => port.put(self.moment(), &Action::Line(&request.octets)),
        }
    }

    /// Takes one event, and puts out what follows from it, then what the timers bring, then the
    /// line's request, then what else may be sent to TCP. After `false` the device has failed, and
    /// the gateway is given up.
    pub fn step<P: Port>(&mut self, now: u64, event: Event<'_>, port: &mut P) -> bool
        requires { P.failed port.old < u64.MAX }
        ensures kept { (p : Setup) →
            IfSome (P.log port.old) (HasCome p self.old now (input_of event.entry)) →
            OnTrue result (Follows p self.new (P.log port.new)) }
        ensures rests { (p : Setup) →
            IfSome (P.log port.old) (HasCome p self.old now (input_of event.entry)) →
            OnTrue result (Rests p (P.log port.new)) }
        ensures faithful { (p : Setup) →
            IfSome (P.log port.old) (HasCome p self.old now (input_of event.entry)) →
            IfSome (P.log port.new) (IsFaithful p) }
        // What it then keeps is what was taken and not acknowledged, and what it has counted is
        // what the log shows.
        ensures accounts { (p : Setup) →
            IfSome (P.log port.old) (HasCome p self.old now (input_of event.entry)) →
            OnTrue result (IfSome (P.log port.new) (IsAccounted p self.new)) }
        ensures puts { Puts P.log P.script P.failed port.old port.new (faults_unless result) }
    {
        line_keeps_the_procedures();
        self.advance_to(now);
        let fits = self.receive_event(event);
        // Behind the octets, which may be the answer, and before any action: in the log the
        // exchange is closed from this event on.
        self.end_late_exchange();
        if !self.take_connection_event(event, fits, port) {
            return false;
        }
        // Before the timers: the gap follows from the event (docs/DECISIONS.md, "A gap is an
        // action").
        if !self.report_gap(port) {
            return false;
        }
        self.run_command_timers();
        if !self.close_if_late(port) {
            return false;
        }
        // Once all that came is taken (docs/DECISIONS.md, "What is free in a step").
        if !self.send_request(port) {
            return false;
        }
        // Behind the request: only what a frame of the event brings about goes out before it
        // (docs/DECISIONS.md, "A request before frames").
        self.flush(port)
    }
}
