//! Where the lines go.
ghost use Rattle.std.specs.Prelude.{◌≡◌, None, true, false};

use crate::limit::LeftOut;
use crate::names::{LogNames, NamedLine};
use crate::note::{LogLine, Note};
use jiff::Timestamp;
use live::{STANDARD_ERROR, has_room};
use std::io::Eprint;

/// Where lines go. One that notes its lines adds each that it takes, and, beside these, each that
/// it is handed.
pub trait LogSink {
    ghost use Rattle.runlog.specs.Logging.{Lines, kept};
    ghost use Rattle.std.specs.Prelude.{◌≡◌, None, true};

    /// The lines so far, the newest first, if it notes them.
    ghost lines: { Self → Lines };

    /// Those that it was handed so far, taken or not, the newest first, if it notes them.
    ghost handed: { Self → Lines } = { λ _. None };

    /// Takes a line. `false` says that it takes none any more.
    fn write(&mut self, line: &LogLine) -> bool
        ensures taken { lines self.new ≡ kept result line.now (lines self.old) }
        ensures handed { handed self.new ≡ kept true line.now (handed self.old) };
}

/// Standard error: each line has its UTC time (RFC 3339) before it, or how severe it is. A line for
/// which there is no room is left out, and how many were is told once there is.
#[derive(Drop)]
pub struct StandardError<'a, 'n, R> {
    rt: &'a R,
    names: LogNames<'n>,
    has_severity: bool,
    /// So many lines were left out since the last one.
    left_out: u64,
}

impl<'a, 'n, R> StandardError<'a, 'n, R> {
    /// That of this process. Behind each line stands the name of what it is about, if it has one.
    pub fn new(rt: &'a R, names: LogNames<'n>) -> StandardError<'a, 'n, R>
        ensures names { result.names ≡ names.entry }
        ensures plain { result.has_severity ≡ false }
    {
        StandardError {
            rt,
            names,
            has_severity: false,
            left_out: 0,
        }
    }

    /// The same, but each line begins with how severe it is, as `<4>`, in place of its time: so
    /// systemd's journal takes it, which has a time for each line.
    pub fn with_severity(self) -> StandardError<'a, 'n, R>
        ensures names { result.names ≡ self.entry.names }
        ensures severity { result.has_severity ≡ true }
    {
        StandardError {
            rt: self.rt,
            names: self.names,
            has_severity: true,
            left_out: self.left_out,
        }
    }
}

impl<R: Eprint + std::rt::Clock> StandardError<'_, '_, R> {
    /// Writes what stands before a line: how severe it is, if that is wanted, or else the time.
    fn write_head(&self, line: &LogLine) -> bool {
        if self.has_severity {
            let number = line.note.severity().number();
            return eprint!(self.rt; "<{number}>").is_ok();
        }
        match Timestamp::now(self.rt) {
            Ok(now) => eprint!(self.rt; "{now:.3} ").is_ok(),
            // No time is better than no line.
            Err(_) => eprint!(self.rt; "- ").is_ok(),
        }
    }

    /// Tells how many lines were left out, at the moment of the line behind, if any were.
    fn write_left_out(&mut self, moment: u64) -> bool {
        if self.left_out == 0 {
            return true;
        }
        let note = Note::LeftOut(self.left_out);
        self.left_out = 0;
        self.write_line(&LogLine {
            moment,
            note,
            left_out: LeftOut::none(),
        })
    }

    /// Writes a line, for which there is room.
    fn write_line(&self, line: &LogLine) -> bool {
        let named = NamedLine {
            line,
            names: self.names,
        };
        self.write_head(line) && eprintln!(self.rt; "{named}").is_ok()
    }
}

impl<R: Eprint + std::rt::Clock> LogSink for StandardError<'_, '_, R> {
    ghost lines = { λ _. None };

    fn write(&mut self, line: &LogLine) -> bool {
        // A write that waited would hold up the line and the control centre (docs/DECISIONS.md,
        // "Nobody who reads holds a run up").
        if !has_room(STANDARD_ERROR) {
            self.left_out = self.left_out.saturating_add(1);
            return true;
        }
        self.write_left_out(line.moment) && self.write_line(line)
    }
}
