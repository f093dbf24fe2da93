//! A run in words, as a ladder: outstation, gateway, control centre.
//!
//! [`Ladder`] is a port around any port with a page. It passes each event and each action on
//! unchanged, so what is proved of a run over a port holds of a run over it, and puts a line for
//! each on a page of its own, with the frame in words. A [`Scribe`] remembers what is wanted for
//! that: what came of a frame so far, and which request waits for an answer. [`drive_in_words`]
//! drives a gateway over a ladder and prints the lines while the run goes on.
//!
//! Proved: the log, the script and the failures are the inner port's, and the text that was printed
//! is that of the run's log (`IsLadder`), line by line in its order: each event and action once,
//! each frame with the words of the octets that ended it, late answers and repeats as such. If the
//! output failed, it is a beginning of that text. If memory was refused, it is that of the run up
//! to some turn.
ghost use Rattle.std.specs.Prelude.{◌≡◌, ◌++◌, [], true, Some};
ghost use Rattle.gateway.specs.Log.{Log};
ghost use Rattle.words.specs.Ladders.{IsLadder};

mod driving;
mod memory;
mod notes;
mod rungs;
mod scribe;
mod taken;

pub use self::driving::drive_in_words;
pub use self::rungs::Style;
pub use self::scribe::Scribe;
use gateway::{Action, Next, Port};
use std::marker::Model;
use traces::Paged;

/// A port that passes each event and each action of another one on unchanged, and puts each into
/// words on a page, as a protocol analyser does: the moment in milliseconds, the way, and the
/// frame. If octets come in pieces, a line stands at the piece that ends a frame. Once memory is
/// refused to a line it is a port whose device failed.
#[derive(Drop)]
pub struct Ladder<P: Paged + Drop> {
    port: P,
    scribe: Scribe,
    failures: u64,
}

impl<P: Paged + Drop> Model for Ladder<P> {
    ghost use Rattle.std.specs.Prelude.{◌≡◌, ◌+◌, ◌^◌, ◌<◌, Some};
    ghost use Rattle.words.specs.Scribing.{Climbing};

    ghost Value = { Climbing P };

    ghost view = { λ l. record { port = l.port; scribe = l.scribe; failed = l.failures } };

    // What was written of is the port's log.
    ghost invariant = { λ l. (P.log l.port ≡ Some l.scribe.log)
        × (P.failed l.port + l.failures < 2 ^ 64) };
}

impl<P: Paged + Drop> Ladder<P> {
    /// One over this port, whose log so far the scribe has written of.
    pub fn new(port: P, scribe: Scribe) -> Ladder<P>
        requires log { P.log port ≡ Some scribe.log }
        requires healthy { P.failed port ≡ 0 }
        ensures { result ≡ record { port = port; scribe = scribe; failed = 0 } }
    {
        Ladder {
            port,
            scribe,
            failures: 0,
        }
    }

    /// The port and the scribe again.
    pub fn leave(self) -> (P, Scribe)
        ensures port { result.0 ≡ self.port }
        ensures scribe { result.1 ≡ self.scribe }
    {
        let Ladder {
            port,
            scribe,
            failures: _,
        } = self;
        (port, scribe)
    }

    /// The port inside.
    pub fn port(&self) -> &P
        ensures { result.now ≡ self.now.port }
    {
        &self.port
    }

    /// Whether all that passed was put into words.
    pub fn is_noted(&self) -> bool
        ensures { result ≡ self.now.scribe.is_noted }
    {
        self.scribe.is_noted()
    }

    /// The page: the lines of the log, behind those that were taken off it.
    pub fn page(&self) -> &[u8]
        ensures page { result.now ≡ self.now.scribe.page }
        ensures poured { IsLadder self.now.scribe.style self.now.scribe.poured
            self.now.scribe.logged }
        ensures log { P.log self.now.port ≡ Some self.now.scribe.log }
        ensures behind { (news : Log) × (self.now.scribe.log ≡ news ++ self.now.scribe.poured) }
    {
        let _ = &self.failures;
        self.scribe.page()
    }

    /// Takes all lines off the page, and those off the page of the port inside.
    pub fn clear_page(&mut self)
        requires { self.old.scribe.is_noted ≡ true }
        ensures scribe { self.new.scribe ≡ record self.old.scribe {
          poured = self.old.scribe.log;
          logged = self.old.scribe.logged ++ self.old.scribe.page;
          page = [];
        } }
        ensures log { P.log self.new.port ≡ P.log self.old.port }
        ensures failed { P.failed self.new.port ≡ P.failed self.old.port }
        ensures ended { P.ended self.new.port ≡ P.ended self.old.port }
        ensures course { P.course self.new.port ≡ P.course self.old.port }
        ensures cleared { Some (P.poured self.new.port) ≡ P.log self.old.port }
        ensures own { self.new.failed ≡ self.old.failed }
    {
        self.port.clear_page();
        self.scribe.clear_page();
    }
}

impl<P: Paged + Drop> Port for Ladder<P> {
    ghost use Rattle.std.specs.Prelude.{◌+◌, ℕ, List};
    ghost use Rattle.gateway.specs.Log.{Log};
    ghost use Rattle.words.specs.declared.ladder.rungs.Style.{Style};

    ghost log = { λ l. P.log l.port };

    ghost failed = { λ l. P.failed l.port + l.failed };

    ghost ended = { λ l. P.ended l.port };

    /// What is fixed of the port inside; how lines are written; and what was taken off the page.
    ghost Fixed = { P.Fixed × Style × Log × List ℕ };

    ghost script = { λ l. (P.script l.port, l.scribe.style, l.scribe.poured, l.scribe.logged) };

    fn next(&mut self, buf: &mut [u8; 1024]) -> Next {
        if !self.scribe.is_noted() {
            self.failures += 1;
            return Next::Fault;
        }
        let next = self.port.next(buf);
        self.scribe.note_event(next, buf);
        next
    }

    /// An action that didn't go out is no line.
    fn put(&mut self, now: u64, action: &Action<'_>) -> bool {
        if !self.scribe.is_noted() {
            self.failures += 1;
            return false;
        }
        let has_gone = self.port.put(now, action);
        if has_gone {
            self.scribe.note_action(now, action);
        }
        has_gone
    }

    fn failures(&self) -> u64 {
        self.port.failures() + self.failures
    }
}
