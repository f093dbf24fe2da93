//! What becomes of commands, until it is told.
ghost use Rattle.std.specs.Prelude.{◌≡◌, []};
ghost use Rattle.runlog.specs.Trails as spec;

use crate::limit::LeftOut;
use crate::note::{LogLine, Note};
use arrayvec::ArrayVec;
use std::marker::Model;

/// Lines of commands that aren't told yet, in the order of events.
// Of one step, since all are told behind it. Its octets, 1,279 at most, have 85 APDUs with a
// command at most, which has 15 octets or more; and of each action one line may come.
#[derive(Drop)]
pub(crate) struct Trail {
    lines: ArrayVec<LogLine, 128>,
}

impl Model for Trail {
    ghost use Rattle.std.specs.Prelude.{List};
    ghost use Rattle.runlog.specs.declared.note.LogLine.{LogLine};

    ghost Value = { List LogLine };

    ghost view = { λ t. t.lines.items };
}

impl Trail {
    pub(crate) fn new() -> Trail
        ensures { result ≡ [] }
    {
        Trail {
            lines: ArrayVec::new(),
        }
    }

    /// All is told.
    pub(crate) fn is_empty(&self) -> bool
        ensures { result ≡ spec.is_told self.now }
    {
        self.lines.is_empty()
    }

    /// The lines.
    pub(crate) fn as_slice(&self) -> &[LogLine]
        ensures { result.now ≡ self.now }
    {
        self.lines.as_slice()
    }

    /// This became of a command at this moment.
    pub(crate) fn add(&mut self, note: Note, now: u64)
        ensures { self.new ≡ spec.added note now self.old }
    {
        let _ = self.lines.try_push(LogLine {
            moment: now,
            note,
            left_out: LeftOut::none(),
        });
    }

    /// What stands there is told behind what stands here.
    pub(crate) fn append(&mut self, more: &mut Trail)
        ensures all { self.new ≡ spec.appended more.old self.old }
        ensures none { more.new ≡ [] }
    {
        let count = more.lines.len().min(self.lines.remaining_capacity());
        let _ = self
            .lines
            .try_extend_from_slice(&more.lines.as_slice()[..count]);
        more.lines.clear();
    }

    /// Takes the lines out, to tell them.
    pub(crate) fn take(&mut self) -> Trail
        ensures lines { result ≡ self.old }
        ensures none { self.new ≡ [] }
    {
        Trail {
            lines: self.lines.take(),
        }
    }
}
