//! Lines none of which is left out silently.
ghost use Rattle.std.specs.Prelude.{◌≡◌};
ghost use Rattle.runlog.specs.Gathering as spec;

use crate::ends::changed;
use crate::limit::Limit;
use crate::note::{LogLine, Note};

/// What came of one kind and isn't logged yet: the last of it, the moment of that, and what came
/// before it since the last line of the kind.
#[derive(Clone, Copy, PartialEq, Eq)]
pub(crate) struct Gathered {
    limit: Limit,
    last: Option<Note>,
    /// The moment of the last one that came, in ms.
    came: u64,
}

impl Gathered {
    /// That of a kind of which nothing has come.
    pub(crate) fn new() -> Gathered
        ensures { result ≡ spec.nothing }
    {
        Gathered {
            limit: Limit::new(),
            last: None,
            came: 0,
        }
    }

    /// One more came at this moment.
    pub(crate) fn add(&mut self, note: Note, now: u64)
        ensures { self.new ≡ spec.added note now self.old }
    {
        if self.last.is_some() {
            self.limit.leave_out(self.came);
        }
        self.last = Some(note);
        self.came = now;
    }

    /// The line of the last that came, with its own moment, if one is to be logged and may be
    /// logged now.
    pub(crate) fn line(&mut self, now: u64) -> Option<LogLine>
        ensures { (self.new, result) ≡ spec.line_of now self.old }
    {
        let note = self.last?;
        let line = changed(note, &mut self.limit, now)?;
        self.last = None;
        Some(LogLine {
            moment: self.came,
            ..line
        })
    }

    /// The same, at most once a minute.
    pub(crate) fn minute_line(&mut self, now: u64) -> Option<LogLine>
        ensures { (self.new, result) ≡ spec.minute_line_of now self.old }
    {
        if !self.limit.is_minute_after(now) {
            return None;
        }
        self.line(now)
    }
}
