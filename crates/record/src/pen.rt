//! Lines that are held, and given to a sheet.
ghost use Rattle.std.specs.Prelude.{◌≡◌, ◌∷◌, [], true, IfSome, false};
ghost use Rattle.std.specs.List.{AllByRecursion};
ghost use Rattle.gateway.specs.Log.{Went, with_news};
ghost use Rattle.gateway.specs.Ports.{FitsBuffer, output_of, logged_by};
ghost use Rattle.record.specs.Recording.{Gives, IsKept, Notes, added, held_or_over, log_of};
ghost use Rattle.record.specs.Written.{IsWritten};
ghost use Rattle.traces.specs.Actions.{line_of};
ghost use Rattle.traces.specs.Printed.{IsPrintable, lines_of_log};

use crate::record_sheet::RecordSheet;
use checkpoint::StateFault;
use gateway::{Action, Gateway, History, Next};
use statetext::{Octets, TextSheet};
use std::alloc::Global;
use std::marker::Model;
use traces::{Page, cut, print_action, print_event, printed_lines_read_back};

/// Writes lines down, and gives them to its sheet, until that takes none any more. What it has
/// written is always the lines of a log.
#[derive(Drop)]
pub struct Pen<W: RecordSheet + Drop> {
    alloc: Global,
    sheet: W,
    /// The lines that the sheet hasn't been given yet.
    held: Page,
    /// It is to write: one that isn't is over from the beginning.
    is_wished: bool,
    is_over: bool,
    /// What passed in the lives before, for proofs alone.
    before: History,
}

impl<W: RecordSheet + Drop> Model for Pen<W> {
    ghost use Rattle.record.specs.Recording.{IsKept, Recording};

    ghost Value = { Recording };

    ghost view = { λ p. record {
      before = p.before.entries;
      taken = W.taken p.sheet;
      held = p.held;
      is_wished = p.is_wished;
      is_over = p.is_over;
      missed = W.missed p.sheet;
    } };

    ghost invariant = { λ p. IsKept (record {
      before = p.before.entries;
      taken = W.taken p.sheet;
      held = p.held;
      is_wished = p.is_wished;
      is_over = p.is_over;
      missed = W.missed p.sheet;
    }) };
}

/// The text of a state, in memory.
#[derive(Drop)]
struct StateText(Vec<u8>);

impl Octets for StateText {
    ghost appended = { λ text. text.0.items };

    fn append(&mut self, octets: &[u8]) -> Result<(), StateFault> {
        self.0.extend_from_slice(octets)?;
        Ok(())
    }
}

/// The state of a gateway as text, line by line.
fn state_text(alloc: Global, gateway: &Gateway) -> Result<Vec<u8>, StateFault> {
    let mut sheet = TextSheet::new(alloc, StateText(Vec::new(alloc)));
    let mut line = Vec::new(alloc);
    gateway.put_state(&mut sheet, &mut line)?;
    let StateText(text) = sheet.into_octets();
    Ok(text)
}

/// Gives a sheet the state of a gateway, line by line.
fn put_state<W: RecordSheet>(
    alloc: Global,
    sheet: &mut W,
    gateway: &Gateway,
) -> Result<(), StateFault>
    ensures taken { W.taken sheet.new ≡ W.taken sheet.old }
    ensures missed { W.missed sheet.new ≡ W.missed sheet.old }
{
    let text = state_text(alloc, gateway)?;
    let mut row = Vec::new(alloc);
    let mut left = text.as_slice();
    'putting: for _ in 0..text.len() {
        let (line, rest) = cut(left, b'\n');
        let Some(behind) = rest else {
            return Ok(());
        };
        row.clear();
        row.extend_from_slice(b"# state: ")?;
        row.extend_from_slice(line)?;
        row.extend_from_slice(b"\n")?;
        sheet.preface(row.as_slice());
        left = behind;
    }
    Ok(())
}

impl<W: RecordSheet + Drop> Pen<W> {
    /// One that writes to this sheet, which hasn't missed anything, at first these lines.
    pub fn new(alloc: Global, sheet: W, first: Vec<u8>) -> Pen<W>
        requires written { IsWritten (added (W.taken sheet) first.items) }
        requires whole { IfSome (W.missed sheet) (λ log. log ≡ []) }
        ensures { result ≡ record {
          before = [];
          taken = W.taken sheet;
          held = first.items;
          is_wished = true;
          is_over = false;
          missed = W.missed sheet;
        } }
    {
        Pen {
            alloc,
            sheet,
            held: Page::holding(first),
            is_wished: true,
            is_over: false,
            before: History::new(),
        }
    }

    /// One that writes nothing.
    pub fn idle(alloc: Global, sheet: W) -> Pen<W>
        requires { IsWritten (W.taken sheet) }
        ensures { result ≡ record {
          before = [];
          taken = W.taken sheet;
          held = [];
          is_wished = false;
          is_over = true;
          missed = W.missed sheet;
        } }
    {
        Pen {
            alloc,
            sheet,
            held: Page::new(alloc),
            is_wished: false,
            is_over: true,
            before: History::new(),
        }
    }

    /// The run comes behind these lives.
    pub fn come_behind(&mut self, before: History)
        ensures { self.new ≡ record self.old { before = before.entries } }
    {
        self.before = before;
    }

    /// Writes first, line by line, the state of the gateway with which a run goes on.
    pub fn begin_with(&mut self, gateway: &Gateway)
        ensures { self.new ≡ self.old }
    {
        if self.is_over {
            return;
        }
        if put_state(self.alloc, &mut self.sheet, gateway).is_err() {
            // Without memory an audit is told so (docs/DECISIONS.md, "A record begins with its
            // state").
            self.sheet.preface(b"# left out: the state\n");
        }
    }

    /// The record is over: nothing is written down any more.
    pub fn is_over(&self) -> bool
        ensures over { result ≡ self.now.is_over }
        ensures kept { IsKept self.now }
    {
        self.is_over
    }

    /// Gives the sheet what is held. If it doesn't take that, the record is over.
    pub fn give(&mut self)
        ensures gives { Gives self.old self.new }
        ensures log { log_of self.new ≡ log_of self.old }
    {
        if self.is_over {
            return;
        }
        if self.sheet.take(self.held.octets()) {
            self.held.clear();
        } else {
            // The record ends, and not the run (docs/DECISIONS.md, "A record that can't be
            // written").
            self.end();
        }
    }

    /// The record is over.
    fn end(&mut self)
        ensures { self.new ≡ record self.old { is_over = true } }
    {
        self.sheet.end();
        self.is_over = true;
    }

    /// Holds the line of an event. If there is no memory for it, the record is over.
    fn hold_event(&mut self, next: Next, buf: &[u8; 1024]) -> bool
        requires { FitsBuffer next }
        ensures held { self.new
            ≡ held_or_over result (lines_of_log (logged_by next buf.now)) self.old }
        ensures printable { result ≡ true → AllByRecursion IsPrintable (logged_by next buf.now) }
    {
        printed_lines_read_back();
        if print_event(self.alloc, &mut self.held, next, buf).is_err() {
            self.end();
            return false;
        }
        true
    }

    /// Holds the line of an action. If there is no memory for it, the record is over.
    fn hold_action(&mut self, now: u64, action: &Action<'_>) -> bool
        ensures held { self.new
            ≡ held_or_over result (line_of now (output_of action.now)) self.old }
        ensures printable { result ≡ true → IsPrintable (Went now (output_of action.now)) }
    {
        printed_lines_read_back();
        if print_action(self.alloc, &mut self.held, now, action).is_err() {
            self.end();
            return false;
        }
        true
    }

    /// Writes an event down, whose octets are the front of the buffer. Once the record is over it
    /// passes unwritten.
    pub(crate) fn note_event(&mut self, next: Next, buf: &[u8; 1024])
        requires { FitsBuffer next }
        ensures notes { Notes self.old (logged_by next buf.now) self.new }
        ensures log { log_of self.new ≡ with_news (log_of self.old) (logged_by next buf.now) }
    {
        printed_lines_read_back();
        if self.is_over || !self.hold_event(next, buf) {
            self.sheet.miss_event(next, buf);
        }
    }

    /// Writes an action down. Once the record is over it passes unwritten.
    pub(crate) fn note_action(&mut self, now: u64, action: &Action<'_>)
        ensures notes { Notes self.old (Went now (output_of action.now) ∷ []) self.new }
        ensures log { log_of self.new
            ≡ with_news (log_of self.old) (Went now (output_of action.now) ∷ []) }
    {
        printed_lines_read_back();
        if self.is_over || !self.hold_action(now, action) {
            self.sheet.miss_action(now, action);
        }
    }
}
