//! A sink of a log, in memory.
ghost use Rattle.std.specs.Prelude.{◌≡◌, ◌∷◌, false, List, Some};
ghost use Rattle.runlog.specs.Watching.{line_of};
ghost use Rattle.runlog.specs.declared.note.LogLine.{LogLine};

use runlog::{LogLine, LogSink, Logger, Note};

/// A sink that takes so many lines, and notes them.
#[derive(Drop)]
pub struct NotedLines<'a> {
    /// Those that it took.
    pub lines: &'a mut Vec<LogLine>,
    /// How many it takes yet.
    pub takes: u32,
}

impl LogSink for NotedLines<'_> {
    ghost use Rattle.std.specs.Prelude.{Some, reverse};

    ghost lines = { λ sink. Some (reverse sink.lines.now.items) };

    fn write(&mut self, line: &LogLine) -> bool {
        if self.takes == 0 {
            return false;
        }
        self.takes -= 1;
        self.lines.push(*line).is_ok()
    }
}

/// Logs a note. A log that goes on has its line, behind the lines before it.
pub fn note_line(logger: &mut Logger<NotedLines<'_>>, note: Note)
    ensures { logger.old.is_over ≡ false → logger.new.is_over ≡ false
        → (before : List LogLine) → logger.old.lines ≡ Some before
        → logger.new.lines ≡ Some (line_of note logger.old.watching ∷ before) }
{
    logger.note(note);
}
