//! Lines of the log.
ghost use Rattle.std.specs.Prelude.{◌≡◌, ◌&&◌, false, true, length, not};
ghost use Rattle.events.specs.Queue.{kept};
ghost use Rattle.gateway.specs.Ports.{FitsBuffer, output_of};
ghost use Rattle.runlog.specs.Logging.{book_fixture, counted, LogsEventSeeing};
ghost use Rattle.runlog.specs.Logging.{LogsAction};
ghost use Rattle.runlog.specs.Logging.{LogsLook, Closes};
ghost use Rattle.runlog.specs.Logging.{LogsNote, Fails, Sums, LogsNotice, IsLogged, LogsEach};
ghost use Rattle.runlog.specs.Logging.{Tells};

use crate::note::{LogLine, Note};
use crate::sink::LogSink;
use crate::watch::Watch;
use gateway::{Action, Gateway, Next};
use live::{EndsSight, Failure, Notice};
use std::marker::Model;

/// Logs the lines of a run to a sink, until that takes none any more.
#[derive(Drop)]
pub struct Logger<S: LogSink + Drop> {
    watch: Watch,
    sink: S,
    /// It is to log: one that isn't is over from the beginning.
    is_wished: bool,
    is_over: bool,
    is_watching: bool,
}

impl<S: LogSink + Drop> Model for Logger<S> {
    ghost use Rattle.runlog.specs.Logging.{Book, IsWishedFirst};

    ghost Value = { Book };

    ghost view = { λ t. record {
      watching = t.watch;
      lines = S.lines t.sink;
      handed = S.handed t.sink;
      is_wished = t.is_wished;
      is_over = t.is_over;
      is_watching = t.is_watching;
    } };

    // So nothing is logged if no log was wished.
    ghost invariant = { λ t. IsWishedFirst t.is_wished t.is_over };
}

/// How many pieces the gateway keeps.
pub fn taken_places(gateway: &Gateway) -> u64
    ensures { result ≡ counted (length (kept gateway.now.centre.queue)) }
{
    let mut taken = 0u64;
    for piece in gateway.kept() {
        let _ = piece;
        taken = taken.saturating_add(1);
    }
    taken
}

impl<S: LogSink + Drop> Logger<S> {
    /// One that logs to this sink from the first event on, or never, if nothing is to be logged.
    pub fn new(watch: Watch, sink: S, is_logging: bool) -> Logger<S>
        ensures { result ≡ record {
          watching = watch;
          lines = S.lines sink;
          handed = S.handed sink;
          is_wished = is_logging;
          is_over = not is_logging;
          is_watching = false;
        } }
    {
        Logger {
            watch,
            sink,
            is_wished: is_logging,
            is_over: !is_logging,
            is_watching: false,
        }
    }

    /// The same, but the run is watched even if nothing is logged.
    pub fn watching(self) -> Logger<S>
        ensures { result ≡ record self { is_watching = true } }
    {
        Logger {
            watch: self.watch,
            sink: self.sink,
            is_wished: self.is_wished,
            is_over: self.is_over,
            is_watching: true,
        }
    }

    /// What is known of the run: how it was watched so far.
    pub fn watch(&self) -> &Watch
        ensures { result.now ≡ self.now.watching }
    {
        &self.watch
    }

    /// Nothing is logged any more, and the run isn't watched.
    fn is_idle(&self) -> bool
        ensures { result ≡ (self.now.is_over && not self.now.is_watching) }
    {
        self.is_over && !self.is_watching
    }

    /// Logs something that no event says, at the moment of the latest event.
    pub fn note(&mut self, note: Note)
        ensures logs { LogsNote self.old note self.new }
        ensures fixed { book_fixture self.new ≡ book_fixture self.old }
    {
        if self.is_idle() {
            return;
        }
        let line = self.watch.line(note);
        self.log(Some(line));
    }

    fn log(&mut self, line: Option<LogLine>)
        ensures logs { IsLogged line self.old self.new }
        ensures fixed { book_fixture self.new ≡ book_fixture self.old }
    {
        let Some(line) = line else {
            return;
        };
        self.watch.keep(&line);
        if !self.is_over {
            // A sink that takes no line ends the log and not the run (docs/DECISIONS.md, "`run
            // --log` is a port around the port").
            self.is_over = !self.sink.write(&line);
        }
    }

    /// An event came, whose octets are the front of the buffer, and the ends are seen so.
    pub(crate) fn note_event(&mut self, event: Next, buf: &[u8; 1024], sight: &EndsSight)
        requires { FitsBuffer event }
        ensures logs { LogsEventSeeing sight.now self.old event buf.now self.new }
        ensures fixed { book_fixture self.new ≡ book_fixture self.old }
    {
        if self.is_idle() {
            return;
        }
        let line = self.watch.note_event(event, buf, sight);
        self.log(line);
    }

    /// An action goes out.
    pub fn put(&mut self, now: u64, action: &Action<'_>)
        ensures logs { LogsAction self.old now (output_of action.now) self.new }
        ensures fixed { book_fixture self.new ≡ book_fixture self.old }
    {
        if self.is_idle() {
            return;
        }
        let line = self.watch.put(now, action);
        self.log(line);
    }

    /// This is to be logged of the state on the disk, if anything.
    pub(crate) fn tend(&mut self, notice: Option<Notice>)
        ensures logs { LogsNotice notice self.old self.new }
        ensures fixed { book_fixture self.new ≡ book_fixture self.old }
    {
        if let Some(notice) = notice {
            self.note(Note::State(notice));
        }
    }

    /// Looks at the gateway between two steps.
    pub(crate) fn look(&mut self, gateway: &Gateway)
        ensures logs { LogsLook self.old gateway.now self.new }
        ensures fixed { book_fixture self.new ≡ book_fixture self.old }
    {
        if self.is_idle() {
            return;
        }
        let line = self.watch.look_between(gateway);
        self.log(line);
    }

    /// Tells what became of commands, if anything did: each has a line of its own, in the order of
    /// events, and none is left out.
    pub(crate) fn tell(&mut self)
        ensures tells { Tells self.old self.new }
        ensures fixed { book_fixture self.new ≡ book_fixture self.old }
    {
        if self.is_idle() || !self.watch.has_trail() {
            return;
        }
        let trail = self.watch.take_trail();
        self.log_each(trail.as_slice());
    }

    /// Logs these lines.
    fn log_each(&mut self, lines: &[LogLine])
        ensures logs { LogsEach lines.now self.old self.new }
        ensures fixed { book_fixture self.new ≡ book_fixture self.old }
    {
        let mut left = lines;
        while let [first, more @ ..] = left {
            self.log(Some(*first));
            left = more;
        }
    }

    /// The run is over: logs what has failed, if anything, and then the counts.
    pub(crate) fn close(&mut self, failure: Option<Failure>, gateway: &Gateway)
        ensures closes { Closes self.old failure gateway.now self.new }
        ensures fixed { book_fixture self.new ≡ book_fixture self.old }
    {
        self.fail(failure);
        self.sum(gateway);
    }

    /// The device has failed, if it has.
    fn fail(&mut self, failure: Option<Failure>)
        ensures logs { Fails self.old failure self.new }
        ensures fixed { book_fixture self.new ≡ book_fixture self.old }
    {
        if self.is_idle() {
            return;
        }
        let line = self.watch.fail(failure);
        self.log(line);
    }

    /// Logs the counts.
    fn sum(&mut self, gateway: &Gateway)
        ensures logs { Sums self.old gateway.now self.new }
        ensures fixed { book_fixture self.new ≡ book_fixture self.old }
    {
        if self.is_idle() {
            return;
        }
        let line = self.watch.sum(gateway.counts(), taken_places(gateway));
        self.log(Some(line));
    }
}
