//! The port over the text of a trace, or over one part of it after another.
ghost use Rattle.std.specs.Prelude.{◌≡◌, ℕ, ◌+◌, ◌<◌, ◌++◌, ◌∷◌, [], Bool, true, false, not, List};
ghost use Rattle.std.specs.Prelude.{Some, None, IfOk, OnOk, OnErr, if◌then◌else◌, string_bytes};
ghost use Rattle.std.specs.Option.{option_copied};
ghost use Rattle.gateway.specs.Log.{events_of};
ghost use Rattle.gateway.specs.Ports.{output_of};
ghost use Rattle.traces.specs.Actions.{line_of, lines_of_actions};
ghost use Rattle.traces.specs.Fields.{parts_after};
ghost use Rattle.traces.specs.Progress.{IsFirst, script_of, coming_in, first_standing, is_through};
ghost use Rattle.traces.specs.Progress.{logs_event};
ghost use Rattle.traces.specs.Trace.{first_wrong, lines_of};

use crate::event::{FirstLine, announce, first_line};
use crate::printout::Printout;
use gateway::{Action, History, Next, Port};
use std::alloc::Global;
use std::marker::Model;

/// A run over the text of a trace before its first part, between two parts, or behind the last one.
/// A part is whole lines, without the line feed behind the last of them: the text need not stand in
/// memory whole.
#[derive(Drop)]
pub struct Pause {
    is_started: bool,
    page: Printout,
    failures: u64,
}

impl Model for Pause {
    ghost use Rattle.traces.specs.Progress.{Standing};

    ghost Value = { Standing };

    ghost view = { λ a. record {
      started = a.is_started;
      log = a.page.log;
      poured = a.page.poured;
      page = a.page.lines;
      failed = a.failures;
    } };
}

impl Pause {
    /// A run that has not begun.
    pub fn new(alloc: Global) -> Pause
        ensures { result ≡ first_standing false }
    {
        Pause::begun(alloc, false)
    }

    /// The same without the tick at moment 0: a record begins with the first event of its run.
    pub fn without_tick(alloc: Global) -> Pause
        ensures { result ≡ first_standing true }
    {
        Pause::begun(alloc, true)
    }

    /// A run that has given the tick at moment 0 if it is to be taken so, and nothing else.
    fn begun(alloc: Global, is_started: bool) -> Pause
        ensures { result ≡ first_standing is_started }
    {
        Pause {
            is_started,
            page: Printout::new(alloc),
            failures: 0,
        }
    }

    /// The run goes on over this part of the text, or over all of it.
    pub fn over<'a>(self, text: &'a [u8]) -> TextPort<'a>
        ensures { result ≡ record {
          part = record {
            text = text.now;
            is_first = not self.started;
            earlier = self.log;
          };
          left = Some text.now;
          started = self.started;
          log = self.log;
          poured = self.poured;
          page = self.page;
          failed = self.failed;
        } }
    {
        let Pause {
            is_started,
            page,
            failures,
        } = self;
        TextPort {
            text,
            left: Some(text),
            is_first: !is_started,
            is_started,
            earlier: page.log(),
            page,
            failures,
        }
    }
}

/// A port that gives a tick at moment 0, if the run has not begun, and then the events of a part of
/// a text, each as its line is due. It prints the line of each action on a page: `MS > S HEX` (to
/// the line), `MS > T HEX` (to TCP), `MS > X CAUSE` (a close) or `MS > G S K` (a gap of station S,
/// counted from 1, at the end of its session K), in upper case. It stores no log, and of its lines
/// those alone that weren't taken off the page. A wrong line is a fault, as want of memory is;
/// after one it takes and gives nothing more.
#[derive(Drop)]
pub struct TextPort<'a> {
    /// Those of this part.
    text: &'a [u8],
    /// The lines that are still to come.
    left: Option<&'a [u8]>,
    /// Whether the tick at moment 0 comes before this part.
    is_first: bool,
    is_started: bool,
    /// The log before this part.
    earlier: History,
    page: Printout,
    failures: u64,
}

impl<'a> Model for TextPort<'a> {
    ghost use Rattle.std.specs.Option.{option_copied};
    ghost use Rattle.traces.specs.Progress.{Progress, IsProgress};

    ghost Value = { Progress };

    ghost view = { λ a. record {
      part = record { text = a.text.now; is_first = a.is_first; earlier = a.earlier.entries };
      left = option_copied a.left;
      started = a.is_started;
      log = a.page.log;
      poured = a.page.poured;
      page = a.page.lines;
      failed = a.failures;
    } };

    ghost invariant = { λ a. IsProgress (record {
      part = record { text = a.text.now; is_first = a.is_first; earlier = a.earlier.entries };
      left = option_copied a.left;
      started = a.is_started;
      log = a.page.log;
      poured = a.page.poured;
      page = a.page.lines;
      failed = a.failures;
    }) };
}

/// The first event of these lines, whose octets are put at the front of the buffer, and the lines
/// behind it; `Done` if they have none. A wrong line before it is a fault.
#[tactic(auto, using(crate::proofs::ProgressLemmas::events_skip, crate::proofs::ProgressLemmas::right_skip, crate::proofs::ProgressLemmas::right_event))]
pub fn first_event<'a>(text: Option<&'a [u8]>, buf: &mut [u8; 1024]) -> (Next, Option<&'a [u8]>)
    ensures { IsFirst (parts_after 10 (option_copied text.entry)) (option_copied result.1)
        result.0 buf.new }
{
    let mut left = text;
    'reading: for _ in 0..u64::MAX {
        let Some(text) = left else {
            return (Next::Done, None);
        };
        match first_line(text) {
            FirstLine::Skipped(rest) => left = rest,
            FirstLine::Event(event) => match announce(&event, buf) {
                Some((next, rest)) => return (next, rest),
                None => return (Next::Fault, left),
            },
            FirstLine::Wrong => return (Next::Fault, left),
        }
    }
    // No memory holds so many lines.
    (Next::Fault, left)
}

/// Whether an answer gives an event.
fn is_event(next: Next) -> bool
    ensures { result ≡ logs_event next }
{
    !matches!(next, Next::Done | Next::Fault)
}

impl<'a> TextPort<'a> {
    /// The page: lines of the log's actions, behind those that were taken off it.
    pub fn page(&self) -> &[u8]
        ensures page { result.now ≡ self.now.page }
        ensures lines { lines_of_actions self.now.poured ++ result.now
            ≡ lines_of_actions self.now.log }
        // The events that came, and those that are still to come, are those of the log before this
        // part, and then those of the part.
        ensures whole { events_of self.now.log ++ coming_in self.now ≡ script_of self.now.part }
        // When all lines were read, none is wrong.
        ensures right { is_through self.now ≡ true →
            first_wrong 1 (lines_of self.now.part.text) ≡ None }
    {
        self.page.lines()
    }

    /// Takes all lines off the page, which keeps its room.
    pub fn clear_page(&mut self)
        ensures { self.new ≡ record self.old { poured = self.old.log; page = [] } }
    {
        self.page.clear();
    }

    /// The run behind this part, or as far as it has come.
    pub fn pause(self) -> Pause
        ensures { result ≡ record {
          started = self.entry.started;
          log = self.entry.log;
          poured = self.entry.poured;
          page = self.entry.page;
          failed = self.entry.failed;
        } }
    {
        let TextPort {
            text: _,
            left: _,
            is_first: _,
            is_started,
            earlier: _,
            page,
            failures,
        } = self;
        Pause {
            is_started,
            page,
            failures,
        }
    }
}

impl<'a> Port for TextPort<'a> {
    ghost use Rattle.gateway.specs.Log.{Log};
    ghost use Rattle.traces.specs.Progress.{Part, is_through};

    ghost log = { λ p. Some p.log };

    ghost failed = { λ p. p.failed };

    ghost ended = { is_through };

    /// The part of the text, and what was taken off the page.
    ghost Fixed = { Part × Log };

    ghost script = { λ p. (p.part, p.poured) };

    fn next(&mut self, buf: &mut [u8; 1024]) -> Next {
        if self.failures > 0 {
            self.failures += 1;
            return Next::Fault;
        }
        if !self.is_started {
            self.is_started = true;
            self.page.came(&Next::Tick(0), buf);
            return Next::Tick(0);
        }
        let (next, left) = first_event(self.left, buf);
        if is_event(next) {
            self.left = left;
            self.page.came(&next, buf);
            return next;
        }
        if let Next::Done = next {
            self.left = None;
            return Next::Done;
        }
        self.failures += 1;
        Next::Fault
    }

    fn put(&mut self, now: u64, action: &Action<'_>) -> bool {
        if self.failures > 0 || self.page.went(now, action).is_err() {
            self.failures += 1;
            return false;
        }
        true
    }

    fn failures(&self) -> u64 {
        self.failures
    }
}
