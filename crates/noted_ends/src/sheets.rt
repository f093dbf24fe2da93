//! A sheet of a record, in memory.
ghost use Rattle.std.specs.Prelude.{◌≡◌, ◌<◌, ◌++◌, ℕ, false, List, Some};
ghost use Rattle.gateway.specs.Ports.{logged_by};
ghost use Rattle.record.specs.Recording.{text_of};
ghost use Rattle.traces.specs.Printed.{lines_of_log};

use gateway::{Action, History, Next, Port};
use record::{Pen, RecordSheet, Recorder, a_record_is_the_text_of_what_passed};
use std::alloc::Global;

/// A port that gives ticks, a millisecond apart.
#[derive(Drop)]
pub struct Ticks(u64);

impl Ticks {
    /// One whose first tick is at 1.
    pub fn new() -> Ticks {
        Ticks(0)
    }
}

impl Port for Ticks {
    ghost use Rattle.std.specs.Prelude.{None, true, []};

    ghost log = { λ _. None };

    ghost failed = { λ _. 0 };

    ghost ended = { λ _. true };

    ghost script = { λ _. [] };

    fn next(&mut self, _buf: &mut [u8; 1024]) -> Next {
        self.0 = self.0.saturating_add(1);
        Next::Tick(self.0)
    }

    fn put(&mut self, _now: u64, _action: &Action<'_>) -> bool {
        true
    }

    fn failures(&self) -> u64 {
        0
    }
}

/// A sheet that takes so many texts, and then none. It says what it took and what passed unwritten.
#[derive(Drop)]
pub struct NotedSheet {
    takes: u32,
    taken: History,
    missed: History,
}

impl RecordSheet for NotedSheet {
    ghost use Rattle.std.specs.Prelude.{Some};
    ghost use Rattle.noted_ends.specs.Sheets.{text_in};

    ghost taken = { λ sheet. Some (text_in sheet.taken.entries) };

    ghost missed = { λ sheet. Some sheet.missed.entries };

    fn take(&mut self, text: &[u8]) -> bool {
        if self.takes == 0 {
            return false;
        }
        self.takes -= 1;
        self.taken = self.taken.went(&0, &Action::Line(text));
        true
    }

    fn end(&mut self) {}

    fn miss_event(&mut self, next: Next, buf: &[u8; 1024]) {
        self.missed = self.missed.came(&next, buf);
    }

    fn miss_action(&mut self, now: u64, action: &Action<'_>) {
        self.missed = self.missed.went(&now, action);
    }
}

/// The next event of a recorder. Until the record is over the sheet has the text of all that passed
/// before, and behind it the event's line.
fn noted<P: Port + Drop, W: RecordSheet + Drop>(
    port: &mut Recorder<P, W>,
    buf: &mut [u8; 1024],
) -> Next
    requires ready { P.failed port.old.port < u64.MAX }
    requires says { (text : List ℕ) × (text_of port.old.pen ≡ Some text) }
    ensures { port.new.pen.is_over ≡ false → (text : List ℕ) × (text_of port.old.pen ≡ Some text)
        × (port.new.pen.taken ≡ Some (text ++ lines_of_log (logged_by result buf.new))) }
{
    a_record_is_the_text_of_what_passed();
    port.next(buf)
}

/// What the law asks can be met: so a record in memory begins, whose sheet takes one text. The next
/// event, and the recorder behind it.
pub fn noted_in_memory(alloc: Global, buf: &mut [u8; 1024]) -> (Next, Recorder<Ticks, NotedSheet>) {
    let sheet = NotedSheet {
        takes: 1,
        taken: History::new(),
        missed: History::new(),
    };
    let mut port = Recorder::new(Ticks(0), Pen::new(alloc, sheet, Vec::new(alloc)));
    let next = noted(&mut port, buf);
    (next, port)
}
