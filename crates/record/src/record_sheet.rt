//! Where the text of a record goes.
ghost use Rattle.std.specs.Prelude.{◌≡◌, None};

use gateway::{Action, Next};
use live::{MOST_AT_ONCE, STANDARD_ERROR, STANDARD_OUTPUT, has_room};
use std::alloc::{AllocError, Global};
use std::io::{Eprint, Print};

/// So many octets wait at the most if there is no room for them.
const MOST_WAITING: usize = 262_144;

/// What waits goes out in so many pieces at the most.
const MOST_PIECES: usize = 65;

const LINE_FEED: u8 = b'\n';

/// Where a text goes. A sheet that says what it took adds each text that it took. One that says
/// what passed unwritten adds that.
pub trait RecordSheet {
    ghost use Rattle.gateway.specs.Log.{LogEntry, Went, with_news};
    ghost use Rattle.gateway.specs.Ports.{FitsBuffer, output_of, logged_by};
    ghost use Rattle.record.specs.Recording.{added};
    ghost use Rattle.std.specs.Prelude.{◌≡◌, ℕ, ◌∷◌, [], List, Option, if◌then◌else◌};

    /// What it took, if it says that.
    ghost taken: { Self → Option (List ℕ) };

    /// What passed once the record was over, the newest first, if it says that.
    ghost missed: { Self → Option (List LogEntry) };

    /// Takes a text. `false` says that it didn't: a front of the text may then stand where it goes.
    fn take(&mut self, text: &[u8]) -> bool
        ensures text { taken self.new
            ≡ (if result then added (taken self.old) text.now else taken self.old) }
        ensures missed { missed self.new ≡ missed self.old };

    /// A line of the state with which the run goes on, which is no event and no action.
    fn preface(&mut self, _line: &[u8])
        ensures text { taken self.new ≡ taken self.old }
        ensures missed { missed self.new ≡ missed self.old }
    {}

    /// The record is over: nothing is given to it any more.
    fn end(&mut self)
        ensures text { taken self.new ≡ taken self.old }
        ensures missed { missed self.new ≡ missed self.old };

    /// An event passes that isn't written, whose octets are the front of the buffer.
    fn miss_event(&mut self, next: Next, buf: &[u8; 1024])
        requires { FitsBuffer next }
        ensures text { taken self.new ≡ taken self.old }
        ensures missed { missed self.new ≡ with_news (missed self.old) (logged_by next buf.now) };

    /// An action passes that isn't written.
    fn miss_action(&mut self, now: u64, action: &Action<'_>)
        ensures text { taken self.new ≡ taken self.old }
        ensures missed { missed self.new
            ≡ with_news (missed self.old) (Went now (output_of action.now) ∷ []) };
}

/// Standard output. What finds no room there waits, and what finds none among that either is left
/// out, which a comment tells where the record goes on. If the record ends before the run, a line
/// on standard error says so.
#[derive(Drop)]
pub struct StandardOutput<'a, R> {
    rt: &'a R,
    alloc: Global,
    /// What waits for room.
    waiting: Vec<u8>,
    /// So many octets of it have gone out.
    gone: usize,
    /// So many lines were left out since.
    left_out: u64,
}

impl<'a, R: AllocGlobal> StandardOutput<'a, R> {
    /// That of this process.
    pub fn new(rt: &'a R) -> StandardOutput<'a, R>
        ensures { result.rt.now ≡ rt.entry.now }
    {
        StandardOutput {
            rt,
            alloc: rt.alloc(),
            waiting: Vec::new(rt.alloc()),
            gone: 0,
            left_out: 0,
        }
    }
}

/// How many lines a text has.
fn lines_in(text: &[u8]) -> u64 {
    let mut lines = 0u64;
    for octet in text {
        if *octet == LINE_FEED {
            lines = lines.saturating_add(1);
        }
    }
    lines
}

/// The line of a record that tells how many are left out there. Readers of traces skip it.
fn hole_of(alloc: Global, left_out: u64) -> Result<String, AllocError> {
    let mut line = String::new(alloc);
    if left_out > 0 {
        writeln!(line, "# left out: {left_out} lines")?;
    }
    Ok(line)
}

impl<R: Print + Eprint> StandardOutput<'_, R> {
    /// Gives what waits, as far as there is room. `false` says that it can't be written.
    fn give(&mut self) -> bool {
        for _ in 0..MOST_PIECES {
            let waiting = self.waiting.as_slice();
            // A write that waited would hold up the line and the control centre (docs/DECISIONS.md,
            // "Nobody who reads holds a run up").
            if waiting.len() <= self.gone || !has_room(STANDARD_OUTPUT) {
                return true;
            }
            let left = &waiting[self.gone..];
            let len = left.len().min(MOST_AT_ONCE);
            if self.rt.write_all(&left[..len]).is_err() {
                return false;
            }
            self.gone = self.gone.saturating_add(len);
        }
        true
    }

    /// Puts a text behind what waits, if there is place for it; else it is left out.
    fn keep(&mut self, text: &[u8]) -> Result<(), AllocError> {
        if self.waiting.len() <= self.gone {
            self.waiting.clear();
            self.gone = 0;
        }
        if MOST_WAITING.saturating_sub(self.waiting.len()) < text.len() {
            self.left_out = self.left_out.saturating_add(lines_in(text));
            return Ok(());
        }
        let hole = hole_of(self.alloc, self.left_out)?;
        self.waiting.extend_from_slice(hole.as_bytes())?;
        self.left_out = 0;
        self.waiting.extend_from_slice(text)
    }
}

impl<R: Print + Eprint> RecordSheet for StandardOutput<'_, R> {
    // Standard output says no text (docs/DECISIONS.md, "A record's log").
    ghost taken = { λ _. None };

    ghost missed = { λ _. None };

    fn take(&mut self, text: &[u8]) -> bool {
        self.give() && self.keep(text).is_ok() && self.give()
    }

    fn preface(&mut self, line: &[u8]) {
        if !self.take(line) {
            self.left_out = self.left_out.saturating_add(lines_in(line));
        }
    }

    fn end(&mut self) {
        if has_room(STANDARD_ERROR) {
            let _ = eprintln!(self.rt; "the record ends here: it can't be written");
        }
    }

    fn miss_event(&mut self, _next: Next, _buf: &[u8; 1024]) {}

    fn miss_action(&mut self, _now: u64, _action: &Action<'_>) {}
}
