//! A dialler in memory, which notes its tries: an instance of what is asked of one.
ghost use Rattle.std.specs.Prelude.{◌≡◌, [], ◌∷◌, Some};
ghost use Rattle.live.specs.Memory.{attempts_in, dial_calls_in};
ghost use Rattle.live.specs.OctetStreams.{IsNew};
ghost use Rattle.live.specs.Redial.{Asked, Dialed, IfReached, ended};

use super::{Dialled, Dialler};
use crate::ends::OctetStream;
use crate::memory::{MemoryStream, with_attempt};
use gateway::{Action, History};
use std::io::ErrorKind;

/// Reaches a stream, but for the tries that fail first, each once it was asked so often.
#[derive(Drop)]
pub(super) struct MemoryDialler {
    failing_tries: u32,
    /// How many tries were begun.
    pub(super) tries: u32,
    /// How often it is asked of a try before that ends.
    asks: u32,
    asked: u32,
    /// Which read of a stream finds that it is gone.
    failing_read: u32,
    /// Its streams give nothing.
    pub(super) is_silent: bool,
    /// Whether each try that ended reached a stream.
    log: History,
    /// The calls of it.
    calls: History,
}

/// The calls of a dialler, with one that begins a try.
fn with_dial(log: &History, reached: bool) -> History
    ensures { dial_calls_in result.entries ≡ Dialed reached ∷ dial_calls_in log.now.entries }
{
    if reached {
        log.went(&1, &Action::Line(&[]))
    } else {
        log.went(&0, &Action::Line(&[]))
    }
}

/// The calls of a dialler, with one that asks about a try.
fn with_ask(log: &History, reached: bool) -> History
    ensures { dial_calls_in result.entries ≡ Asked reached ∷ dial_calls_in log.now.entries }
{
    if reached {
        log.went(&1, &Action::Tcp(&[]))
    } else {
        log.went(&0, &Action::Tcp(&[]))
    }
}

impl MemoryDialler {
    pub(super) fn new(failing_tries: u32, asks: u32, failing_read: u32) -> MemoryDialler
        ensures tries { result.log.entries ≡ [] }
        ensures calls { result.calls.entries ≡ [] }
    {
        MemoryDialler {
            failing_tries,
            tries: 0,
            asks,
            asked: 0,
            failing_read,
            is_silent: false,
            log: History::new(),
            calls: History::new(),
        }
    }

    /// What has become of the latest try.
    fn answer(&mut self) -> Dialled<MemoryStream>
        ensures fresh { IfReached result (λ stream.
            IsNew (⟦<MemoryStream as OctetStream>⟧.history stream)) }
        ensures noted { Some (attempts_in self.new.log.entries)
            ≡ ended (Some (attempts_in self.old.log.entries)) result }
        ensures calls { self.new.calls ≡ self.old.calls }
    {
        if self.asked < self.asks {
            self.asked = self.asked.saturating_add(1);
            return Dialled::Pending;
        }
        if self.tries <= self.failing_tries {
            self.log = with_attempt(&self.log, false);
            return Dialled::Failed(ErrorKind::ConnectionRefused);
        }
        self.log = with_attempt(&self.log, true);
        let mut stream = if self.is_silent {
            MemoryStream::quiet()
        } else {
            MemoryStream::busy()
        };
        stream.failing_read = self.failing_read;
        Dialled::Reached(stream)
    }
}

impl Dialler for MemoryDialler {
    type Stream = MemoryStream;

    ghost tries = { λ dialler. Some (attempts_in dialler.log.entries) };

    ghost calls = { λ dialler. Some (dial_calls_in dialler.calls.entries) };

    fn dial(&mut self) -> Dialled<MemoryStream> {
        self.tries = self.tries.saturating_add(1);
        self.asked = 0;
        let answer = self.answer();
        self.calls = with_dial(&self.calls, matches!(answer, Dialled::Reached(_)));
        answer
    }

    fn ask(&mut self) -> Dialled<MemoryStream> {
        let answer = self.answer();
        self.calls = with_ask(&self.calls, matches!(answer, Dialled::Reached(_)));
        answer
    }

    fn pause(&mut self) {}
}
