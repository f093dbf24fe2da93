//! The latest lines, for who looks at a run.
ghost use Rattle.std.specs.Prelude.{◌≡◌, []};
ghost use Rattle.runlog.specs.Latest as spec;

use crate::note::{LogLine, Note};
use arrayvec::ArrayVec;
use std::marker::Model;

/// The latest lines, the newest first.
#[derive(Drop)]
pub(crate) struct LatestLines {
    lines: ArrayVec<LogLine, 20>,
}

impl Model for LatestLines {
    ghost use Rattle.std.specs.Prelude.{List};
    ghost use Rattle.runlog.specs.declared.note.LogLine.{LogLine};

    ghost Value = { List LogLine };

    ghost view = { λ l. l.lines.items };
}

/// Whether who looks at a run is told of this: the numbers of a line of counts stand there anyway.
fn is_told(note: &Note) -> bool
    ensures { result ≡ spec.is_shown note.now }
{
    !matches!(note, Note::Counts(_))
}

impl LatestLines {
    pub(crate) fn new() -> LatestLines
        ensures { result ≡ [] }
    {
        LatestLines {
            lines: ArrayVec::new(),
        }
    }

    pub(crate) fn as_slice(&self) -> &[LogLine]
        ensures { result.now ≡ self.now }
    {
        self.lines.as_slice()
    }

    /// One more: of 20 the oldest goes.
    pub(crate) fn add(&mut self, line: &LogLine)
        ensures { self.new ≡ spec.latest_with line.now self.old }
    {
        if !is_told(&line.note) {
            return;
        }
        self.lines.truncate(19);
        self.lines.insert(0, *line);
    }
}
