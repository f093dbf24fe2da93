//! The controlling station of one connection.
ghost use Rattle.std.specs.Prelude.{◌≡◌, ◌<◌, ◌≤◌, IfOk, IfSome, length};
ghost use Rattle.apci.specs.Spelling.{Fits};
ghost use Rattle.apci.specs.declared.apdu.Apdu.TheVariants.{I};
ghost use Rattle.session.specs.Session.{new_session, opened};
ghost use Rattle.centre.specs.Centres.{asked_for, begun, cut_off, due_running, first_centre};
ghost use Rattle.centre.specs.Centres.{is_over, kept, next_of, pulls_or_stops, sends, took};
ghost use Rattle.centre.specs.declared.centre.Phase.TheVariants as phase;

use crate::errand::{Errand, Loss, Outcome};
use apci::{Apdu, Uf};
use arrayvec::ArrayVec;
use session::{Close, FrameOrigin, NoMemory, Session, Taken};
use std::alloc::Global;

/// The values that IEC 60870-5-104, 9.6, has by default: k and w in APDUs, t1 to t3 in ms.
const K: u16 = 12;

const W: u16 = 8;

const T1_MS: u64 = 15_000;

const T2_MS: u64 = 10_000;

const T3_MS: u64 = 20_000;

/// How far the connection is (IEC 60870-5-104, 5.3).
#[derive(Clone, Copy, Debug, PartialEq, Eq)]
enum Phase {
    /// It is there, and nothing went out.
    Opened,
    /// STARTDT act went out, at this moment, in ms.
    Starting(u64),
    /// STARTDT con came.
    Running,
    /// STOPDT act went out, at this moment, in ms.
    Stopping(u64),
    /// STOPDT con came, or the connection is lost.
    Over,
}

/// A control centre with an errand on one connection, from the opening on. Moments are in ms and
/// never fall from call to call.
///
/// After each `take`, `next` is called until it answers None.
#[derive(Drop)]
pub struct Centre {
    // Numbers, windows, timers and tests are the same on both sides of a connection. It is given
    // STARTDT act when STARTDT con comes, and keeps running while this side stops.
    session: Session,
    errand: Errand,
    phase: Phase,
}

/// An I frame.
fn information(ns: u16, nr: u16, asdu: &[u8]) -> Apdu
    requires counters { (ns < 32768) × (nr < 32768) }
    requires long { 9 ≤ length asdu.now }
    requires short { length asdu.now ≤ 249 }
    ensures frame { result ≡ I ns nr (record { items = asdu.now }) }
    ensures fits { Fits result }
{
    let asdu = ArrayVec::try_from(asdu).unwrap();
    Apdu::I { ns, nr, asdu }
}

impl Centre {
    /// One whose connection opens at this moment. This alone takes memory.
    pub fn new(alloc: Global, errand: Errand, now: u64) -> Result<Centre, NoMemory>
        ensures { IfOk result (λ c. c ≡ first_centre now errand) }
    {
        let mut session = Session::new(alloc, K, W, T1_MS, T2_MS, T3_MS)?;
        session.open(now);
        Ok(Centre {
            session,
            errand,
            phase: Phase::Opened,
        })
    }

    /// Whether all is done: data transfer is stopped, or the connection is lost.
    pub fn is_over(&self) -> bool
        ensures { result ≡ is_over self.now }
    {
        matches!(self.phase, Phase::Over)
    }

    /// What became of the errand, once that is known.
    pub fn outcome(&self) -> Option<Outcome>
        ensures { result ≡ self.now.errand.outcome }
    {
        self.errand.outcome()
    }

    /// The common addresses of which nothing has come, of those that a request to all waits for.
    pub fn silent(&self) -> &[u16]
        ensures { result.now ≡ self.now.errand.silent }
    {
        self.errand.silent()
    }

    /// The connection is lost. An errand that has ended before has ended so.
    pub fn lose(&mut self, why: Loss)
        ensures { self.new ≡ cut_off why self.old }
    {
        self.errand.lose(why);
        self.phase = Phase::Over;
    }

    /// An APDU came.
    pub fn take(&mut self, apdu: &Apdu, now: u64)
        ensures { self.new ≡ took apdu.now now self.old }
    {
        match (apdu, self.phase) {
            (Apdu::U(Uf::StartCon), Phase::Starting(_)) => self.begin(now),
            (Apdu::U(Uf::StopCon), Phase::Stopping(_)) => self.phase = Phase::Over,
            // Nobody asked for that, and a controlled station starts and stops nothing.
            (Apdu::U(Uf::StartCon | Uf::StopCon | Uf::StartAct | Uf::StopAct), _) => {}
            (_, _) => self.keep(apdu, now),
        }
    }

    /// STARTDT con came, which was asked for: data transfer runs.
    fn begin(&mut self, now: u64)
        ensures { self.new ≡ begun now self.old }
    {
        let _started = self.session.take(&Apdu::U(Uf::StartAct), now);
        // This side confirms nothing: STARTDT con is what came.
        let _confirmed = self.session.confirm();
        self.phase = Phase::Running;
    }

    /// A frame came that the session keeps.
    fn keep(&mut self, apdu: &Apdu, now: u64)
        ensures { self.new ≡ kept apdu.now now self.old }
    {
        match self.session.take(apdu, now) {
            Taken::Nothing => {}
            Taken::Close(why) => self.lose(Loss::Closed(why)),
            Taken::Asdu => {
                if let Apdu::I { asdu, .. } = apdu {
                    self.errand.take(asdu, now);
                }
            }
        }
    }

    /// The next APDU that is due at this moment, if any is. It counts as sent.
    pub fn next(&mut self, now: u64) -> Option<Apdu>
        ensures due { (result, self.new) ≡ next_of now self.old }
        ensures fits { IfSome result Fits }
    {
        if self.is_over() {
            return None;
        }
        if let Some(confirmation) = self.session.confirm() {
            return Some(confirmation);
        }
        if self.session.due(now).is_some() {
            self.lose(Loss::Closed(Close::Timeout));
            return None;
        }
        self.go_on(now)
    }

    /// The next one by the phase.
    fn go_on(&mut self, now: u64) -> Option<Apdu>
        ensures due { (result, self.new) ≡ asked_for now self.old.phase self.old }
        ensures fits { IfSome result Fits }
    {
        match self.phase {
            Phase::Opened => {
                self.phase = Phase::Starting(now);
                Some(Apdu::U(Uf::StartAct))
            }
            Phase::Starting(since) | Phase::Stopping(since) if now.saturating_sub(since) >= T1_MS =>
                {
                    self.lose(Loss::Closed(Close::Timeout));
                    None
                }
            Phase::Starting(_) | Phase::Over => None,
            Phase::Running => self.run_on(now),
            // What still comes is acknowledged at once.
            Phase::Stopping(_) => self.session.pull(now.saturating_add(T2_MS)),
        }
    }

    /// While data transfer runs the errand goes on, and behind its end data transfer stops.
    fn run_on(&mut self, now: u64) -> Option<Apdu>
        ensures due { (result, self.new) ≡ due_running now self.old }
        ensures fits { IfSome result Fits }
    {
        self.errand.wait_on(now);
        if self.errand.outcome().is_some() {
            return self.stop(now);
        }
        if let Some(information) = self.send(now) {
            return Some(information);
        }
        self.session.pull(now)
    }

    /// The next request of the errand, if one is due and the window has room for it.
    fn send(&mut self, now: u64) -> Option<Apdu>
        ensures due { (result, self.new) ≡ sends now self.old }
        ensures fits { IfSome result Fits }
    {
        let asdu = self.errand.due()?.octets();
        if !self.session.may_send() {
            return None;
        }
        let (ns, nr) = self.session.sent(FrameOrigin::Own, now);
        self.errand.sent(now);
        Some(information(ns, nr, asdu.as_slice()))
    }

    /// All that came is acknowledged, and then STOPDT act goes out.
    fn stop(&mut self, now: u64) -> Option<Apdu>
        ensures due { (result, self.new) ≡ pulls_or_stops now self.old }
        ensures fits { IfSome result Fits }
    {
        // What would be due within t2: the other side confirms no stop before it is acknowledged.
        if let Some(frame) = self.session.pull(now.saturating_add(T2_MS)) {
            return Some(frame);
        }
        self.phase = Phase::Stopping(now);
        Some(Apdu::U(Uf::StopAct))
    }
}
