//! The session of one connection.

ghost use Rattle.std.specs.Prelude.{◌≡◌, ◌+◌, ◌-◌, ◌^◌, ◌<◌, ◌≤◌, if◌then◌else◌, true, false, Some};
ghost use Rattle.std.specs.Prelude.{None, IfOk, IfSome, length, take, option_map, IsTrue, ◌↔◌};
ghost use Rattle.apci.specs.Borrowed.{owned};
ghost use Rattle.apci.specs.Short.{apdu_of};
ghost use Rattle.apci.specs.Spelling.{Fits};
ghost use Rattle.session.specs.Session.{from_queue};
ghost use Rattle.session.specs.Ends.{IsConfirmed};
ghost use Rattle.std.specs.Prelude.{ℕ, List, ◌++◌, OnOk, MatchResult};
ghost use Rattle.checkpoint.specs.declared.StateFault.TheVariants.{Wrong};
ghost use Rattle.session.specs.Session.{Session as Machine};
ghost use Rattle.session.specs.Restored.{session_lines, numbers_line, numbers_of, dues_line};
ghost use Rattle.session.specs.Restored.{dues_of, IsSavable, HasSettings};

use crate::kinds::{Close, FrameOrigin, Taken, Transfer, Unacknowledged};
use crate::saving::{
    put_frames, put_moment, read_dues, read_frames, read_numbers, reply_number, transfer_number,
};
use apci::{Apdu, ApduRef, Short, Uf};
use checkpoint::{Lines, Sheet, StateFault};
use circular_buffer::HeapCircularBuffer;
use std::alloc::{AllocError, Global};
use std::marker::Model;
use thiserror::Error;

/// Memory was refused.
#[derive(Clone, Copy, Debug, PartialEq, Eq, Error)]
#[error("no memory")]
pub struct NoMemory;

/// The counters N(S) and N(R) run modulo this.
const MODULUS: u16 = 32768;

/// One connection at a time, as the controlled station keeps it: the counters N(S) and N(R), the
/// windows k and w, the timers t1, t2 and t3, and start and stop of data transfer. Moments are in
/// ms and never fall from call to call.
#[derive(Drop)]
pub struct Session {
    k: u16,
    w: u16,
    t1: u64,
    t2: u64,
    t3: u64,
    transfer: Transfer,
    /// The sent I frames that aren't acknowledged, oldest first.
    unacknowledged: HeapCircularBuffer<Unacknowledged>,
    acked_queue: usize,
    acked_own: usize,
    next_sent: u16,
    next_received: u16,
    /// How many received I frames aren't acknowledged, counted up to w, and when the oldest of them
    /// came.
    unconfirmed: u16,
    unconfirmed_since: u64,
    last_frame: u64,
    /// When the outstanding TESTFR act was sent.
    test_sent: Option<u64>,
    /// A STARTDT con or TESTFR con that is due.
    reply: Option<Uf>,
}

impl Model for Session {
    ghost use Rattle.session.specs.Session.{Session as Machine};

    ghost Value = { Machine };

    ghost use Rattle.session.specs.Fields.{machine_of, IsSound};

    ghost view = { machine_of };

    ghost invariant = { IsSound };
}

impl Session {
    ghost use Rattle.session.specs.Session.{new_session, opened, closed, is_open, is_stopping};
    ghost use Rattle.session.specs.Session.{turned_to, is_transferring, may_send as can_send};
    ghost use Rattle.session.specs.Session.{sent as after_sent, left_by, refuses, outcome_of};
    ghost use Rattle.session.specs.Session.{taken, timed_out, confirmed, pulled, is_valid};
    ghost use Rattle.session.specs.Session.{acknowledged, newly_by, counted, after_u};

    /// A session without a connection. This alone takes memory: room for k frames.
    ///
    /// k is the most I frames that are sent and not acknowledged, w after how many received ones an
    /// S frame is due, both 1 to 32767. t1 is how long an I frame or a TESTFR act may wait, t2 how
    /// long a received I frame may, t3 after how long without a frame the connection is tested, all
    /// in ms (IEC 60870-5-104, 5.2, 5.5 and 9.6).
    pub fn new(
        alloc: Global,
        k: u16,
        w: u16,
        t1: u64,
        t2: u64,
        t3: u64,
    ) -> Result<Session, NoMemory>
        requires k_in_range { (0 < k) × (k < 32768) }
        requires w_in_range { (0 < w) × (w < 32768) }
        ensures { IfOk result (λ s. s ≡ new_session k w t1 t2 t3) }
    {
        // All its room now, since nothing takes memory later (docs/DECISIONS.md, "Rings from the
        // start").
        let unacknowledged = HeapCircularBuffer::with_capacity(alloc, usize::from(k)).map_err(
            |_| NoMemory,
        )?;
        Ok(Session {
            k,
            w,
            t1,
            t2,
            t3,
            transfer: Transfer::Closed,
            unacknowledged,
            acked_queue: 0,
            acked_own: 0,
            next_sent: 0,
            next_received: 0,
            unconfirmed: 0,
            unconfirmed_since: 0,
            last_frame: 0,
            test_sent: None,
            reply: None,
        })
    }

    /// A connection begins, stopped, with all counters at 0. One that was open is forgotten.
    pub fn open(&mut self, now: u64)
        ensures { self.new ≡ opened now self.old }
    {
        // The one that was open may be long dead, and t1 alone would show it (docs/DECISIONS.md, "A
        // new connection replaces the open one").
        self.transfer = Transfer::Stopped;
        self.unacknowledged.clear();
        self.acked_queue = 0;
        self.acked_own = 0;
        self.next_sent = 0;
        self.next_received = 0;
        self.unconfirmed = 0;
        self.unconfirmed_since = 0;
        // t3 runs from the opening at first, so a peer that never sends anything is tested too.
        self.last_frame = now;
        self.test_sent = None;
        self.reply = None;
    }

    /// The connection ends, and nothing of it is left.
    pub fn cut(&mut self)
        ensures { self.new ≡ closed self.old }
    {
        self.open(0);
        self.transfer = Transfer::Closed;
    }

    /// Whether a connection is open.
    pub fn is_open(&self) -> bool
        ensures { result ≡ is_open self.now }
    {
        !matches!(self.transfer, Transfer::Closed)
    }

    /// Whether data transfer is started and no STOPDT is pending. Without a connection it is false.
    pub fn runs(&self) -> bool
        ensures { result ≡ is_transferring self.now }
    {
        matches!(self.transfer, Transfer::Started)
    }

    /// Another name of `runs`.
    pub fn is_transferring(&self) -> bool
        ensures { result ≡ is_transferring self.now }
    {
        self.runs()
    }

    /// Whether a STOPDT act isn't confirmed yet.
    fn is_stopping(&self) -> bool
        ensures { result ≡ is_stopping self.now }
    {
        matches!(self.transfer, Transfer::Stopping)
    }

    /// Whether an I frame may go out: data transfer runs, and fewer than k are unacknowledged.
    pub fn may_send(&self) -> bool
        ensures { result ≡ can_send self.now }
    {
        self.runs() && self.unacknowledged.len() < usize::from(self.k)
    }

    /// Counts an I frame of this kind as sent now, and answers its N(S) and N(R).
    pub fn sent(&mut self, kind: FrameOrigin, now: u64) -> (u16, u16)
        requires { can_send self.old ≡ true }
        ensures numbers { result ≡ (self.old.next_sent, self.old.next_received) }
        ensures session { self.new ≡ after_sent kind now self.old }
        ensures fit { (result.0 < 32768) × (result.1 < 32768) }
    {
        let numbers = (self.next_sent, self.next_received);
        // There is a place: the caller has asked `may_send`, and the ring has k.
        let _ = self
            .unacknowledged
            .try_push_back(Unacknowledged { kind, moment: now });
        self.next_sent = (self.next_sent + 1) % MODULUS;
        // Its N(R) acknowledges all that came, so no S frame is due for it any more.
        self.unconfirmed = 0;
        numbers
    }

    /// How many sent frames a valid N(R) leaves unacknowledged.
    fn left_by(&self, nr: u16) -> usize
        ensures value { result ≡ left_by nr self.now }
    {
        // A sum and no difference: the counters run round, so N(R) may be the greater number.
        usize::from((self.next_sent + (MODULUS - nr % MODULUS)) % MODULUS)
    }

    /// Whether N(R) equals, modulo 32768, a number from the acknowledged count to the sent count.
    fn is_valid(&self, nr: u16) -> bool
        ensures { result ≡ is_valid nr self.now }
    {
        // Against what was sent so far: a refused number closes, and its step sends no more
        // (docs/DECISIONS.md, "N(R) and its step").
        self.left_by(nr) <= self.unacknowledged.len()
    }

    /// The oldest frames are acknowledged.
    fn acknowledge(&mut self, count: usize)
        requires { count ≤ length self.old.unacknowledged }
        ensures { self.new ≡ acknowledged count self.old }
    {
        // As at each frame in U format.
        if count == 0 {
            self.acked_queue = 0;
            self.acked_own = 0;
            return;
        }
        let queue = from_queue(&self.unacknowledged, count);
        self.unacknowledged
            .truncate_front(self.unacknowledged.len() - count);
        self.acked_queue = queue;
        self.acked_own = count - queue;
    }

    /// An APDU came. If the answer is a close, nothing is acknowledged, and the connection is to be
    /// cut.
    ///
    /// It is meant for an open connection, once `confirm` has answered None since the `take`
    /// before.
    pub fn take(&mut self, apdu: &Apdu, now: u64) -> Taken
        ensures outcome { result ≡ outcome_of self.old apdu.now }
        ensures session { self.new ≡ taken apdu.now now self.old }
    {
        self.take_ref(apdu.as_ref(), now)
    }

    /// An APDU came, and its ASDU is lent: the answer and the state of `take`.
    pub fn take_ref(&mut self, apdu: ApduRef<'_>, now: u64) -> Taken
        ensures outcome { result ≡ outcome_of self.old (owned apdu.entry) }
        ensures session { self.new ≡ taken (owned apdu.entry) now self.old }
    {
        // Of any session: the machine is total (docs/DECISIONS.md, "`take` requires nothing").
        let outcome = self.judge(apdu);
        // Whatever it says, a frame came: t3 starts anew.
        self.last_frame = now;
        if let Taken::Close(_) = outcome {
            // What it would have acknowledged goes out again on the next connection, so nothing is
            // lost (docs/DECISIONS.md, "A frame that closes").
            self.acknowledge(0);
            return outcome;
        }
        self.acknowledge(self.newly(apdu));
        match apdu {
            ApduRef::I { .. } => self.count(now),
            ApduRef::S { .. } => {}
            ApduRef::U(function) => self.obey(function),
        }
        outcome
    }

    /// What the frame leads to.
    fn judge(&self, apdu: ApduRef<'_>) -> Taken
        ensures { result ≡ outcome_of self.now (owned apdu.entry) }
    {
        // The first fault is the cause that is reported. While no I frame may come, its numbers
        // say nothing, so this is asked first.
        match apdu {
            ApduRef::I { .. } if !self.runs() => Taken::Close(Close::Stopped),
            ApduRef::I { ns, .. } if ns != self.next_received => Taken::Close(Close::SendNumber),
            ApduRef::I { nr, .. } if !self.is_valid(nr) => Taken::Close(Close::ReceiveNumber),
            ApduRef::I { .. } => Taken::Asdu,
            ApduRef::S { nr } if !self.is_valid(nr) => Taken::Close(Close::ReceiveNumber),
            ApduRef::S { .. } => Taken::Nothing,
            ApduRef::U(_) => Taken::Nothing,
        }
    }

    /// How many frames the frame newly acknowledges.
    fn newly(&self, apdu: ApduRef<'_>) -> usize
        requires { refuses self.now (owned apdu) ≡ false }
        ensures value { result ≡ newly_by (owned apdu.entry) self.now }
        ensures fits { result ≤ length self.now.unacknowledged }
    {
        match apdu {
            ApduRef::I { nr, .. } | ApduRef::S { nr } => {
                self.unacknowledged.len() - self.left_by(nr)
            }
            ApduRef::U(_) => 0,
        }
    }

    /// An I frame came.
    fn count(&mut self, now: u64)
        ensures { self.new ≡ counted now self.old }
    {
        self.next_received = (self.next_received + 1) % MODULUS;
        // t2 runs from the oldest of them.
        if self.unconfirmed == 0 {
            self.unconfirmed_since = now;
        }
        // Nothing looks at more than w (docs/DECISIONS.md, "Received frames are counted up to w").
        self.unconfirmed = self.unconfirmed.saturating_add(1).min(self.w);
    }

    /// A STARTDT act or STOPDT act came. Without a connection it says nothing.
    fn turn_to(&mut self, transfer: Transfer)
        ensures { self.new ≡ record self.old { transfer = turned_to transfer self.old } }
    {
        self.transfer = match self.transfer {
            Transfer::Closed => Transfer::Closed,
            Transfer::Stopped | Transfer::Started | Transfer::Stopping => transfer,
        };
    }

    /// A U frame came.
    fn obey(&mut self, function: Uf)
        ensures { self.new ≡ after_u function self.old }
    {
        match function {
            // Also while a STOPDT is pending: the start is newer, so the stop is forgotten.
            Uf::StartAct => {
                self.turn_to(Transfer::Started);
                self.reply = Some(Uf::StartCon);
            }
            // Its con waits until no sent I frame is unacknowledged (IEC 60870-5-104, 5.3).
            // A second one changes nothing (docs/DECISIONS.md, "STOPDT act while one is pending").
            Uf::StopAct => self.turn_to(Transfer::Stopping),
            // One place for a reply is enough: the caller takes each before the next frame.
            Uf::TestAct => self.reply = Some(Uf::TestCon),
            Uf::TestCon => self.test_sent = None,
            // Nothing is asked that these would confirm (docs/DECISIONS.md, "Confirmations that
            // nobody asked for").
            Uf::StartCon | Uf::StopCon => {}
        }
    }

    /// How many frames of the queue, and how many own ones, the last `take` acknowledged.
    pub fn acked(&self) -> (usize, usize)
        ensures { result ≡ (self.now.acked_queue, self.now.acked_own) }
    {
        (self.acked_queue, self.acked_own)
    }

    /// How many of the unacknowledged frames are the queue's.
    pub fn queue_frames(&self) -> usize
        ensures { result ≡ from_queue self.now.unacknowledged }
    {
        from_queue(&self.unacknowledged, self.unacknowledged.len())
    }

    /// Close 5 if an I frame or a TESTFR act has waited for t1. Without a connection it is None.
    pub fn due(&self, now: u64) -> Option<Close>
        ensures { result ≡ (if timed_out now self.now then Some Close.Timeout else None) }
    {
        if !self.is_open() {
            return None;
        }
        // The oldest decides: all others went out later.
        let frame_late = match self.unacknowledged.front() {
            Some(frame) => now.saturating_sub(frame.moment) >= self.t1,
            None => false,
        };
        let test_late = match self.test_sent {
            Some(moment) => now.saturating_sub(moment) >= self.t1,
            None => false,
        };
        if frame_late || test_late {
            Some(Close::Timeout)
        } else {
            None
        }
    }

    /// The S frame for all that was received.
    fn confirm_received(&mut self) -> Short
        ensures frame { result ≡ Short.S self.old.next_received }
        ensures fits { Fits (apdu_of result) }
        ensures session { self.new ≡ record self.old { unconfirmed = 0 } }
    {
        self.unconfirmed = 0;
        Short::S {
            nr: self.next_received,
        }
    }

    /// Whether no confirmation is due, so that `confirm` answers None.
    pub fn is_confirmed(&self) -> bool
        ensures { IsTrue result ↔ IsConfirmed self.now }
    {
        if !self.is_open() {
            return true;
        }
        if self.is_stopping() && (self.unconfirmed > 0 || self.unacknowledged.is_empty()) {
            return false;
        }
        self.reply.is_none()
    }

    /// The next confirmation that is due, if any. A STOPDT act has an S frame first, if received I
    /// frames aren't acknowledged, and its STOPDT con once no sent I frame is unacknowledged.
    pub fn confirm(&mut self) -> Option<Apdu>
        ensures due { (result, self.new) ≡ confirmed self.old }
        ensures fits { IfSome result Fits }
    {
        Some(self.confirm_short()?.to_apdu())
    }

    /// The answer and the state of `confirm`, with no room for an ASDU.
    pub fn confirm_short(&mut self) -> Option<Short>
        ensures due { (option_map apdu_of result, self.new) ≡ confirmed self.old }
        ensures fits { IfSome result (λ frame. Fits (apdu_of frame)) }
    {
        // The gateway calls this one (docs/DECISIONS.md, "Short answers of the session").
        if !self.is_open() {
            return None;
        }
        // The S frame first: with STOPDT con data transfer ends, and by then all that came is
        // acknowledged.
        if self.is_stopping() && self.unconfirmed > 0 {
            return Some(self.confirm_received());
        }
        if let Some(function) = self.reply.take() {
            return Some(Short::U(function));
        }
        if self.is_stopping() && self.unacknowledged.is_empty() {
            self.transfer = Transfer::Stopped;
            return Some(Short::U(Uf::StopCon));
        }
        None
    }

    /// The S frame if one is due, else the TESTFR act if one is due.
    pub fn pull(&mut self, now: u64) -> Option<Apdu>
        ensures due { (result, self.new) ≡ pulled now self.old }
        ensures fits { IfSome result Fits }
    {
        Some(self.pull_short(now)?.to_apdu())
    }

    /// The answer and the state of `pull`, with no room for an ASDU.
    pub fn pull_short(&mut self, now: u64) -> Option<Short>
        ensures due { (option_map apdu_of result, self.new) ≡ pulled now self.old }
        ensures fits { IfSome result (λ frame. Fits (apdu_of frame)) }
    {
        if !self.is_open() {
            return None;
        }
        let waited = now.saturating_sub(self.unconfirmed_since);
        // Before a test: the other side's t1 may run for these frames (docs/DECISIONS.md, "S before
        // TESTFR").
        if self.unconfirmed > 0 && (self.unconfirmed >= self.w || waited >= self.t2) {
            return Some(self.confirm_received());
        }
        // One test at a time: the one that is out has t1 to be answered.
        if self.test_sent.is_none() && now.saturating_sub(self.last_frame) >= self.t3 {
            self.test_sent = Some(now);
            return Some(Short::U(Uf::TestAct));
        }
        None
    }

    /// The ring with the unacknowledged frames, oldest first. Without a connection it is empty.
    pub fn into_ring(self) -> HeapCircularBuffer<Unacknowledged>
        ensures { result.items ≡ self.unacknowledged }
    {
        let Session {
            k: _,
            w: _,
            t1: _,
            t2: _,
            t3: _,
            transfer: _,
            unacknowledged,
            acked_queue: _,
            acked_own: _,
            next_sent: _,
            next_received: _,
            unconfirmed: _,
            unconfirmed_since: _,
            last_frame: _,
            test_sent: _,
            reply: _,
        } = self;
        unacknowledged
    }
}

impl Session {
    /// Each session can be read back.
    fn is_savable(&self)
        ensures { IsSavable self.now }
    {
        // Reading it gives the proof what its type bounds.
        let _unconfirmed = self.unconfirmed;
    }

    /// Puts the line of the counters.
    fn put_counters(&self, line: &mut Vec<u64>) -> Result<(), AllocError>
        ensures { OnOk result (line.new.items
            ≡ line.old.items ++ numbers_line (numbers_of self.now)) }
    {
        line.push(transfer_number(self.transfer))?;
        line.push(u64::from(self.next_sent))?;
        line.push(u64::from(self.next_received))?;
        line.push(self.acked_queue as u64)?;
        line.push(self.acked_own as u64)?;
        Ok(())
    }

    /// Puts the line of what is due.
    fn put_dues(&self, line: &mut Vec<u64>) -> Result<(), AllocError>
        ensures { OnOk result (line.new.items ≡ line.old.items ++ dues_line (dues_of self.now)) }
    {
        line.push(self.unacknowledged.len() as u64)?;
        line.push(u64::from(self.unconfirmed))?;
        line.push(self.unconfirmed_since)?;
        line.push(self.last_frame)?;
        line.push(reply_number(self.reply))?;
        put_moment(self.test_sent, line)
    }

    /// Puts all of its state but the settings onto a sheet: two lines, and one for each
    /// unacknowledged frame. The line is for use meanwhile.
    pub fn put_state<S: Sheet>(&self, sheet: &mut S, line: &mut Vec<u64>) -> Result<(), StateFault>
        ensures lines { OnOk result (S.written sheet.new
            ≡ S.written sheet.old ++ session_lines self.now) }
        ensures savable { IsSavable self.now }
    {
        self.is_savable();
        line.clear();
        self.put_counters(line)?;
        sheet.put(line.as_slice())?;
        line.clear();
        self.put_dues(line)?;
        sheet.put(line.as_slice())?;
        put_frames(&self.unacknowledged, sheet, line)
    }

    /// A session with these settings and the state that the lines give. This takes memory: room for
    /// k frames. `Wrong` says that the lines give none.
    pub fn read_state<L: Lines>(
        alloc: Global,
        k: u16,
        w: u16,
        t1: u64,
        t2: u64,
        t3: u64,
        lines: &mut L,
        line: &mut Vec<u64>,
    ) -> Result<Session, StateFault>
        requires k_in_range { (0 < k) × (k < 32768) }
        requires w_in_range { (0 < w) × (w < 32768) }
        ensures back { (s : Machine) (rest : List (List ℕ)) → IsSavable s →
            HasSettings s k w t1 t2 t3 → L.coming lines.old ≡ session_lines s ++ rest →
            MatchResult result (λ r. (r ≡ s) × (L.coming lines.new ≡ rest))
            (λ fault. fault ≡ Wrong → ⊥) }
        // So what isn't the lines of a session is refused.
        ensures exact { IfOk result (λ r.
            L.coming lines.old ≡ session_lines r ++ L.coming lines.new) }
        ensures settings { IfOk result (λ r. HasSettings r k w t1 t2 t3) }
    {
        let numbers = read_numbers(lines, line)?;
        let dues = read_dues(lines, line)?;
        // No session with this k has more. One with another k begins without a connection.
        if dues.frames > usize::from(k) {
            return Err(StateFault::Wrong);
        }
        let Ok(mut unacknowledged) = HeapCircularBuffer::with_capacity(alloc, usize::from(k)) else {
            return Err(StateFault::NoMemory);
        };
        read_frames(&mut unacknowledged, dues.frames, lines, line)?;
        Ok(Session {
            k,
            w,
            t1,
            t2,
            t3,
            transfer: numbers.transfer,
            unacknowledged,
            acked_queue: numbers.acked_queue,
            acked_own: numbers.acked_own,
            next_sent: numbers.next_sent,
            next_received: numbers.next_received,
            unconfirmed: dues.unconfirmed,
            unconfirmed_since: dues.unconfirmed_since,
            last_frame: dues.last_frame,
            test_sent: dues.test_sent,
            reply: dues.reply,
        })
    }
}

/// How many of the oldest frames came from the queue.
fn from_queue(frames: &HeapCircularBuffer<Unacknowledged>, count: usize) -> usize
    ensures value { result ≡ from_queue (take count frames.now.items) }
    ensures fits { result ≤ count }
{
    frames
        .iter()
        .take(count)
        .filter(|frame| matches!(frame.kind, FrameOrigin::Queue))
        .count()
}
