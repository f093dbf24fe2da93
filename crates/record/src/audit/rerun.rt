//! The port over the lines of a record, part by part.
ghost use Rattle.std.specs.Prelude.{◌≡◌, ◌+◌, [], Some, true};
ghost use Rattle.std.specs.Option.{option_copied};
ghost use Rattle.record.specs.Rerunning.{IsHalted, IsRerunning};

use super::passing::{LineCounts, next_event};
use gateway::{Action, History, Next, Port};
use std::alloc::Global;
use std::marker::Model;
use traces::{Moment, Page, print_action_at, print_event};

/// A run over a record before its first part, between two parts, or behind the last one. A part is
/// whole lines, without the line feed behind the last of them.
#[derive(Drop)]
pub(crate) struct Halt {
    alloc: Global,
    tally: LineCounts,
    history: History,
    /// What passed before the record.
    past: History,
    /// It is empty, and keeps its room.
    page: Page,
    /// That of the latest action.
    moment: Moment,
}

impl Model for Halt {
    ghost use Rattle.std.specs.Prelude.{◌≡◌, []};
    ghost use Rattle.record.specs.Rerunning.{Halted, IsHalted};

    ghost Value = { Halted };

    ghost view = { λ h. record {
      tally = h.tally;
      log = h.history.entries;
      past = h.past.entries;
    } };

    ghost invariant = { λ h. (h.page ≡ []) × IsHalted (record {
      tally = h.tally;
      log = h.history.entries;
      past = h.past.entries;
    }) };
}

impl Halt {
    /// A run that has not begun, behind so many lines and what passed before them.
    pub(crate) fn new(alloc: Global, lines: u64, past: History) -> Halt
        ensures { result ≡ record {
          tally = record { lines = lines; events = 0; actions = 0 };
          log = [];
          past = past.entries;
        } }
    {
        Halt {
            alloc,
            tally: LineCounts {
                lines,
                events: 0,
                actions: 0,
            },
            history: History::new(),
            past,
            page: Page::new(alloc),
            moment: Moment::new(0),
        }
    }

    /// How many lines were passed so far.
    pub(crate) fn tally(&self) -> LineCounts
        ensures tally { result ≡ self.now.tally }
        ensures halted { IsHalted self.now }
    {
        self.tally
    }

    /// The run goes on over this part, or over no line.
    pub(crate) fn over<'a>(self, part: Option<&'a [u8]>) -> Rerun<'a>
        ensures { result ≡ record {
          part = option_copied part.entry;
          start = self;
          left = option_copied part.entry;
          now = self;
          page = [];
          failed = 0;
        } }
    {
        let Halt {
            alloc,
            tally,
            history,
            past,
            page,
            moment,
        } = self;
        Rerun {
            alloc,
            part,
            left: part,
            start: tally,
            tally,
            earlier: history.again(),
            history,
            past,
            page,
            moment,
            failures: 0,
        }
    }
}

/// A port that gives the events of a part of a record, and puts the line of each event that it gave
/// and of each action on a page, as the record of the run has them. It stores no log. A wrong line
/// is a fault, as want of memory is; after one it takes and gives nothing more.
#[derive(Drop)]
pub(crate) struct Rerun<'a> {
    alloc: Global,
    part: Option<&'a [u8]>,
    /// The lines that are still to come.
    left: Option<&'a [u8]>,
    /// What was passed before this part.
    start: LineCounts,
    tally: LineCounts,
    /// The log before this part.
    earlier: History,
    history: History,
    /// What passed before the record.
    past: History,
    page: Page,
    /// That of the latest action.
    moment: Moment,
    failures: u64,
}

impl<'a> Model for Rerun<'a> {
    ghost use Rattle.std.specs.Option.{option_copied};
    ghost use Rattle.record.specs.Rerunning.{Rerunning, IsRerunning};

    ghost Value = { Rerunning };

    ghost view = { λ r. record {
      part = option_copied r.part;
      start = record { tally = r.start; log = r.earlier.entries; past = r.past.entries };
      left = option_copied r.left;
      now = record { tally = r.tally; log = r.history.entries; past = r.past.entries };
      page = r.page;
      failed = r.failures;
    } };

    ghost invariant = { λ r. IsRerunning (record {
      part = option_copied r.part;
      start = record { tally = r.start; log = r.earlier.entries; past = r.past.entries };
      left = option_copied r.left;
      now = record { tally = r.tally; log = r.history.entries; past = r.past.entries };
      page = r.page;
      failed = r.failures;
    }) };
}

impl<'a> Rerun<'a> {
    /// The lines of the events that were given, and of the actions, since the part began.
    pub(crate) fn page(&self) -> &[u8]
        ensures page { result.now ≡ self.now.page }
        ensures holds { IsRerunning self.now }
    {
        self.page.octets()
    }

    /// The run behind this part, or where it was left. The page is cleared.
    pub(crate) fn halt(self) -> Halt
        ensures { result ≡ self.entry.now }
    {
        let Rerun {
            alloc,
            part: _,
            left: _,
            start: _,
            tally,
            earlier: _,
            history,
            past,
            mut page,
            moment,
            failures: _,
        } = self;
        page.clear();
        Halt {
            alloc,
            tally,
            history,
            past,
            page,
            moment,
        }
    }
}

impl<'a> Port for Rerun<'a> {
    ghost use Rattle.std.specs.Prelude.{ℕ, List, Option, Some, is_none};
    ghost use Rattle.record.specs.Rerunning.{Halted, whole_log};

    /// All that has passed, before the record too.
    ghost log = { λ r. Some (whole_log r.now) };

    ghost failed = { λ r. r.failed };

    ghost ended = { λ r. is_none r.left };

    /// The part, and where the run stood before it.
    ghost Fixed = { Option (List ℕ) × Halted };

    ghost script = { λ r. (r.part, r.start) };

    fn next(&mut self, buf: &mut [u8; 1024]) -> Next {
        if self.failures > 0 {
            self.failures += 1;
            return Next::Fault;
        }
        let (next, left, tally) = next_event(self.left, self.tally, buf);
        // Events are compared too: the run prints them anew, so a record has one form
        // (docs/DECISIONS.md, "Events are compared too").
        if print_event(self.alloc, &mut self.page, next, buf).is_err() {
            self.failures += 1;
            return Next::Fault;
        }
        self.left = left;
        self.tally = tally;
        self.history = self.history.came(&next, buf);
        if let Next::Fault = next {
            self.failures += 1;
        }
        next
    }

    fn put(&mut self, now: u64, action: &Action<'_>) -> bool {
        if self.failures > 0 {
            self.failures += 1;
            return false;
        }
        self.moment.renew(now);
        if print_action_at(self.alloc, &mut self.page, &self.moment, action).is_err() {
            self.failures += 1;
            return false;
        }
        self.history = self.history.went(&now, action);
        true
    }

    fn failures(&self) -> u64 {
        self.failures
    }
}
