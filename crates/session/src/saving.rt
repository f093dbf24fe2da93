//! The parts of a session as lines of numbers, and back.

ghost use Rattle.std.specs.Prelude.{◌≡◌, ℕ, ◌+◌, ◌<◌, ◌≤◌, List, ◌∷◌, ◌++◌, length, MatchResult};
ghost use Rattle.std.specs.Prelude.{OnOk, IfOk, IfSome};
ghost use Rattle.checkpoint.specs.declared.StateFault.TheVariants.{Wrong};
ghost use Rattle.session.specs.declared.kinds.Unacknowledged.{Unacknowledged};
ghost use Rattle.session.specs.Session.{Session};
ghost use Rattle.session.specs.Restored.{transfer_number, transfer_from, kind_number, kind_from};
ghost use Rattle.session.specs.Restored.{reply_number, reply_from, moment_numbers, moment_from};
ghost use Rattle.session.specs.Restored.{numbers_line, dues_line, frame_line, frame_lines};
ghost use Rattle.session.specs.Restored.{frame_from, numbers_from, numbers_of, dues_from, dues_of};
ghost use Rattle.session.specs.Restored.{IsSavable};

use crate::kinds::{FrameOrigin, Transfer, Unacknowledged};
use apci::Uf;
use checkpoint::{Lines, Sheet, StateFault};
use circular_buffer::HeapCircularBuffer;
use std::alloc::AllocError;

/// What the line of the counters says.
#[derive(Clone, Copy)]
pub(crate) struct Numbers {
    pub(crate) transfer: Transfer,
    pub(crate) next_sent: u16,
    pub(crate) next_received: u16,
    pub(crate) acked_queue: usize,
    pub(crate) acked_own: usize,
}

/// What the line of what is due says, and how many lines of frames follow it.
#[derive(Clone, Copy)]
pub(crate) struct Dues {
    pub(crate) frames: usize,
    pub(crate) unconfirmed: u16,
    pub(crate) unconfirmed_since: u64,
    pub(crate) last_frame: u64,
    pub(crate) reply: Option<Uf>,
    pub(crate) test_sent: Option<u64>,
}

pub(crate) fn transfer_number(transfer: Transfer) -> u64
    ensures { result ≡ transfer_number transfer }
{
    match transfer {
        Transfer::Closed => 0,
        Transfer::Stopped => 1,
        Transfer::Started => 2,
        Transfer::Stopping => 3,
    }
}

fn transfer_from(number: u64) -> Option<Transfer>
    ensures { result ≡ transfer_from number }
{
    match number {
        0 => Some(Transfer::Closed),
        1 => Some(Transfer::Stopped),
        2 => Some(Transfer::Started),
        3 => Some(Transfer::Stopping),
        _ => None,
    }
}

fn kind_number(kind: FrameOrigin) -> u64
    ensures { result ≡ kind_number kind }
{
    match kind {
        FrameOrigin::Queue => 0,
        FrameOrigin::Own => 1,
    }
}

fn kind_from(number: u64) -> Option<FrameOrigin>
    ensures { result ≡ kind_from number }
{
    match number {
        0 => Some(FrameOrigin::Queue),
        1 => Some(FrameOrigin::Own),
        _ => None,
    }
}

pub(crate) fn reply_number(reply: Option<Uf>) -> u64
    ensures { result ≡ reply_number reply }
{
    match reply {
        None => 0,
        Some(Uf::StartAct) => 1,
        Some(Uf::StartCon) => 2,
        Some(Uf::StopAct) => 3,
        Some(Uf::StopCon) => 4,
        Some(Uf::TestAct) => 5,
        Some(Uf::TestCon) => 6,
    }
}

fn reply_from(number: u64) -> Option<Option<Uf>>
    ensures { result ≡ reply_from number }
{
    match number {
        0 => Some(None),
        1 => Some(Some(Uf::StartAct)),
        2 => Some(Some(Uf::StartCon)),
        3 => Some(Some(Uf::StopAct)),
        4 => Some(Some(Uf::StopCon)),
        5 => Some(Some(Uf::TestAct)),
        6 => Some(Some(Uf::TestCon)),
        _ => None,
    }
}

/// Puts a moment, if there is one, behind a line.
pub(crate) fn put_moment(moment: Option<u64>, line: &mut Vec<u64>) -> Result<(), AllocError>
    ensures { OnOk result (line.new.items ≡ line.old.items ++ moment_numbers moment) }
{
    if let Some(moment) = moment {
        line.push(moment)?;
    }
    Ok(())
}

fn moment_from(numbers: &[u64]) -> Option<Option<u64>>
    ensures { result ≡ moment_from numbers.now }
{
    match numbers {
        [] => Some(None),
        [moment] => Some(Some(*moment)),
        _ => None,
    }
}

fn put_frame(frame: Unacknowledged, line: &mut Vec<u64>) -> Result<(), AllocError>
    ensures { OnOk result (line.new.items ≡ line.old.items ++ frame_line frame) }
{
    line.push(kind_number(frame.kind))?;
    line.push(frame.moment)?;
    Ok(())
}

fn frame_from(numbers: &[u64]) -> Option<Unacknowledged>
    ensures { result ≡ frame_from numbers.now }
{
    match numbers {
        [kind, moment] => {
            let kind = kind_from(*kind)?;
            Some(Unacknowledged {
                kind,
                moment: *moment,
            })
        }
        _ => None,
    }
}

/// What a line of counters says.
fn numbers_from(numbers: &[u64]) -> Option<Numbers>
    ensures table { result ≡ numbers_from numbers.now }
    ensures small { IfSome result (λ n. (n.next_sent < 32768) × (n.next_received < 32768)) }
{
    match numbers {
        [transfer, next_sent, next_received, acked_queue, acked_own] => {
            let transfer = transfer_from(*transfer)?;
            if *next_sent > 32767 || *next_received > 32767 {
                return None;
            }
            Some(Numbers {
                transfer,
                next_sent: *next_sent as u16,
                next_received: *next_received as u16,
                acked_queue: *acked_queue as usize,
                acked_own: *acked_own as usize,
            })
        }
        _ => None,
    }
}

/// What a line of what is due says.
fn dues_from(numbers: &[u64]) -> Option<Dues>
    ensures { result ≡ dues_from numbers.now }
{
    match numbers {
        [frames, unconfirmed, since, last_frame, reply, test @ ..] => {
            let reply = reply_from(*reply)?;
            let test_sent = moment_from(test)?;
            if *unconfirmed > 65535 {
                return None;
            }
            Some(Dues {
                frames: *frames as usize,
                unconfirmed: *unconfirmed as u16,
                unconfirmed_since: *since,
                last_frame: *last_frame,
                reply,
                test_sent,
            })
        }
        _ => None,
    }
}

/// Puts a line for each frame, the oldest one first.
pub(crate) fn put_frames<S: Sheet>(
    frames: &HeapCircularBuffer<Unacknowledged>,
    sheet: &mut S,
    line: &mut Vec<u64>,
) -> Result<(), StateFault>
    ensures { OnOk result (S.written sheet.new
        ≡ S.written sheet.old ++ frame_lines frames.now.items) }
{
    let mut left = frames.iter();
    while let Some(frame) = left.next() {
        line.clear();
        put_frame(*frame, line)?;
        sheet.put(line.as_slice())?;
    }
    Ok(())
}

/// Reads the line of the counters.
pub(crate) fn read_numbers<L: Lines>(
    lines: &mut L,
    line: &mut Vec<u64>,
) -> Result<Numbers, StateFault>
    ensures back { (s : Session) (rest : List (List ℕ)) → IsSavable s →
        L.coming lines.old ≡ numbers_line (numbers_of s) ∷ rest →
        MatchResult result (λ n. (n ≡ numbers_of s) × (L.coming lines.new ≡ rest))
        (λ fault. fault ≡ Wrong → ⊥) }
    ensures exact { IfOk result (λ n.
        L.coming lines.old ≡ numbers_line n ∷ L.coming lines.new) }
    ensures small { IfOk result (λ n. (n.next_sent < 32768) × (n.next_received < 32768)) }
{
    lines.next(line)?;
    match numbers_from(line.as_slice()) {
        Some(numbers) => Ok(numbers),
        None => Err(StateFault::Wrong),
    }
}

/// Reads the line of what is due.
pub(crate) fn read_dues<L: Lines>(lines: &mut L, line: &mut Vec<u64>) -> Result<Dues, StateFault>
    ensures back { (s : Session) (rest : List (List ℕ)) → IsSavable s →
        L.coming lines.old ≡ dues_line (dues_of s) ∷ rest →
        MatchResult result (λ d. (d ≡ dues_of s) × (L.coming lines.new ≡ rest))
        (λ fault. fault ≡ Wrong → ⊥) }
    ensures exact { IfOk result (λ d. L.coming lines.old ≡ dues_line d ∷ L.coming lines.new) }
{
    lines.next(line)?;
    match dues_from(line.as_slice()) {
        Some(dues) => Ok(dues),
        None => Err(StateFault::Wrong),
    }
}

/// Reads the line of a frame.
fn read_frame<L: Lines>(lines: &mut L, line: &mut Vec<u64>) -> Result<Unacknowledged, StateFault>
    ensures back { (frame : Unacknowledged) (rest : List (List ℕ)) →
        L.coming lines.old ≡ frame_line frame ∷ rest →
        MatchResult result (λ f. (f ≡ frame) × (L.coming lines.new ≡ rest))
        (λ fault. fault ≡ Wrong → ⊥) }
    ensures exact { IfOk result (λ f. L.coming lines.old ≡ frame_line f ∷ L.coming lines.new) }
{
    lines.next(line)?;
    match frame_from(line.as_slice()) {
        Some(frame) => Ok(frame),
        None => Err(StateFault::Wrong),
    }
}

/// Reads so many frames behind those that are there.
pub(crate) fn read_frames<L: Lines>(
    frames: &mut HeapCircularBuffer<Unacknowledged>,
    count: usize,
    lines: &mut L,
    line: &mut Vec<u64>,
) -> Result<(), StateFault>
    requires { length frames.old.items + count ≤ frames.old.capacity }
    ensures back { (fs : List Unacknowledged) (rest : List (List ℕ)) → length fs ≡ count →
        L.coming lines.old ≡ frame_lines fs ++ rest →
        MatchResult result
        (λ _. (frames.new.items ≡ frames.old.items ++ fs) × (L.coming lines.new ≡ rest))
        (λ fault. fault ≡ Wrong → ⊥) }
    ensures exact { OnOk result ((fs : List Unacknowledged) × (length fs ≡ count)
        × (frames.new.items ≡ frames.old.items ++ fs)
        × (L.coming lines.old ≡ frame_lines fs ++ L.coming lines.new)) }
    ensures room { frames.new.capacity ≡ frames.old.capacity }
{
    for _i in 0..count {
        let frame = read_frame(lines, line)?;
        let _ = frames.try_push_back(frame);
    }
    Ok(())
}
