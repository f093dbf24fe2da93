//! A port that logs what passes it.
ghost use Rattle.std.specs.Prelude.{◌≡◌, ◌+◌, ◌<◌, ◌∷◌, [], true, if◌then◌else◌};
ghost use Rattle.gateway.specs.Log.{Went, with_news};
ghost use Rattle.gateway.specs.Ports.{FitsBuffer, faults_of, output_of, logged_by};
ghost use Rattle.gateway.specs.declared.ports.Next.TheVariants.{Done};
ghost use Rattle.runlog.specs.Logging.{LogsEvent, PutsGone, Tends, Closes};
ghost use Rattle.runlog.specs.Logging.{logged_fixture};

use crate::logger::Logger;
use crate::sink::LogSink;
use gateway::{Action, Gateway, Next, Port};
use live::{Notice, Watched};

/// A port that passes each event and each action of another one on unchanged, and logs them.
#[derive(Drop)]
pub struct RunLog<P: Watched + Drop, S: LogSink + Drop> {
    port: P,
    logger: Logger<S>,
}

impl<P: Watched + Drop, S: LogSink + Drop> RunLog<P, S> {
    /// One over this port.
    pub fn new(port: P, logger: Logger<S>) -> RunLog<P, S>
        ensures { result ≡ record { port = port; logger = logger } }
    {
        RunLog { port, logger }
    }

    /// The port inside.
    pub fn port(&self) -> &P
        ensures { result.now ≡ self.now.port }
    {
        &self.port
    }

    /// What logs, and watches.
    pub fn logger(&self) -> &Logger<S>
        ensures { result.now ≡ self.now.logger }
    {
        &self.logger
    }

    /// Lets the port look at the gateway between two steps, and logs what it reports of the state
    /// on the disk, then the gateway's queue, what it counted or what is gathered, and then what
    /// became of commands. Answers what was reported of the state on the disk, if anything.
    pub fn look(&mut self, gateway: &Gateway) -> Option<Notice>
        ensures log { P.log self.new.port ≡ P.log self.old.port }
        ensures failed { P.failed self.new.port ≡ P.failed self.old.port }
        ensures ended { P.ended self.new.port ≡ P.ended self.old.port }
        ensures lasting { logged_fixture (P.lasting self.new.port) self.new.logger
            ≡ logged_fixture (P.lasting self.old.port) self.old.logger }
        ensures tends { P.tends self.old.port gateway.now self.new.port result }
        ensures logs { Tends result self.old.logger gateway.now self.new.logger }
    {
        let notice = self.port.tend(gateway);
        self.logger.tend(notice);
        self.logger.look(gateway);
        self.logger.tell();
        notice
    }

    /// The run is over: logs what of the port's device has failed, if anything, and then what the
    /// gateway counted.
    pub fn close(&mut self, gateway: &Gateway)
        ensures passes { self.new.port ≡ self.old.port }
        ensures script { logged_fixture (P.script self.new.port) self.new.logger
            ≡ logged_fixture (P.script self.old.port) self.old.logger }
        ensures closes { Closes self.old.logger (P.failure self.old.port) gateway.now
            self.new.logger }
    {
        let sight = self.port.sight();
        self.logger.close(sight.failure, gateway);
    }
}

impl<P: Watched + Drop, S: LogSink + Drop> Port for RunLog<P, S> {
    ghost use Rattle.runlog.specs.Logging.{LoggedFixture, logged_fixture};

    ghost log = { λ j. P.log j.port };

    ghost failed = { λ j. P.failed j.port };

    ghost ended = { λ j. P.ended j.port };

    ghost Fixed = { LoggedFixture P.Fixed };

    /// What is fixed of the port inside, and whether a log was wished, and the run is watched.
    ghost script = { λ j. logged_fixture (P.script j.port) j.logger };

    fn next(&mut self, buf: &mut [u8; 1024]) -> Next
        requires { P.failed self.old.port < u64.MAX }
        ensures logged { P.log self.new.port
            ≡ with_news (P.log self.old.port) (logged_by result buf.new) }
        ensures fits { FitsBuffer result }
        ensures done { result ≡ Done → P.ended self.new.port ≡ true }
        ensures script { logged_fixture (P.script self.new.port) self.new.logger
            ≡ logged_fixture (P.script self.old.port) self.old.logger }
        ensures cause { P.failed self.new.port ≡ P.failed self.old.port + faults_of result }
        // What is seen at an event shows the ends behind it.
        ensures logs { LogsEvent (P.shows self.new.port) self.old.logger result buf.new
            self.new.logger }
    {
        let next = self.port.next(buf);
        // Behind the call, so that it is what was seen at this event.
        let sight = self.port.sight();
        self.logger.note_event(next, buf, &sight);
        next
    }

    fn put(&mut self, now: u64, action: &Action<'_>) -> bool
        requires { P.failed self.old.port < u64.MAX }
        ensures logged { P.log self.new.port
            ≡ (if result then with_news (P.log self.old.port) (Went now (output_of action.now) ∷ [])
            else P.log self.old.port) }
        ensures script { logged_fixture (P.script self.new.port) self.new.logger
            ≡ logged_fixture (P.script self.old.port) self.old.logger }
        ensures cause { P.failed self.new.port
            ≡ P.failed self.old.port + (if result then 0 else 1) }
        ensures puts { PutsGone result self.old.logger now (output_of action.now)
            self.new.logger }
    {
        let has_gone = self.port.put(now, action);
        // Behind the port: if that fails, nothing went out (docs/DECISIONS.md, "`run --log` is a
        // port around the port").
        if has_gone {
            self.logger.put(now, action);
        }
        has_gone
    }

    fn failures(&self) -> u64 {
        self.port.failures()
    }
}
