//! A stream that comes back.
ghost use Rattle.std.specs.Prelude.{◌≡◌, ◌≢◌, ℕ, List, Some, None, IfSome, false, true};
ghost use Rattle.live.specs.OctetStreams.{FitsBuffer};
ghost use Rattle.live.specs.Redial.{IsRedialled, HasDropped, IsPut, IsTriedOn, IsTryAnswered};
ghost use Rattle.live.specs.Redial.{clock_read_at, closed_by, dialled_map, is_due, grown, settled};
ghost use Rattle.live.specs.Redial.{Asked, Dialed, waited};
ghost use Rattle.live.specs.Silence.{no_silence};
ghost use Rattle.live.specs.declared.ends.Got.TheVariants.{Quiet, Gone};
ghost use Rattle.live.specs.declared.ends.Presence.TheVariants.{Untried};

use crate::ends::{Got, OctetStream, Presence, Reached, RunClock};
use crate::silence::Silence;
use std::io::ErrorKind;
use std::marker::Model;

/// How long after a try began the next one follows, in ms.
const RETRY_MS: u64 = 1000;

/// The same at the most, if streams are reached again and again and give nothing.
const LONGEST_RETRY_MS: u64 = 30_000;

/// What has become of a try to reach a stream.
#[derive(Drop)]
pub enum Dialled<W> {
    /// This stream was reached.
    Reached(W),
    /// The try goes on.
    Pending,
    /// It failed for this cause.
    Failed(ErrorKind),
}

/// Reaches a stream. One that notes its tries adds each that ended. Nothing has happened yet at a
/// stream that it reaches.
pub trait Dialler {
    ghost use Rattle.live.specs.OctetStreams.{Attempts, IsNew};
    ghost use Rattle.live.specs.Redial.{ended, IfReached, DialCalls, Dialed, Asked, dial_noted};
    ghost use Rattle.live.specs.Redial.{Pauses, is_reached, paused};
    ghost use Rattle.std.specs.Prelude.{None};

    type Stream: OctetStream;

    /// Whether each try that ended reached a stream, the newest first, if it notes that.
    ghost tries: { Self → Attempts };

    /// Its calls, and whether each reached a stream, the newest first, if it notes them.
    ghost calls: { Self → DialCalls } = { λ _. None };

    /// How often it has waited, if it notes that.
    ghost pauses: { Self → Pauses } = { λ _. None };

    /// Begins a try to reach a stream, and doesn't wait for it.
    fn dial(&mut self) -> Dialled<Self::Stream>
        ensures fresh { IfReached result (λ stream. IsNew (Self.Stream.history stream)) }
        ensures noted { tries self.new ≡ ended (tries self.old) result }
        ensures called { calls self.new
            ≡ dial_noted (calls self.old) (Dialed (is_reached result)) }
        ensures unpaused { pauses self.new ≡ pauses self.old };

    /// What has become of the try that goes on, without a wait.
    fn ask(&mut self) -> Dialled<Self::Stream>
        ensures fresh { IfReached result (λ stream. IsNew (Self.Stream.history stream)) }
        ensures noted { tries self.new ≡ ended (tries self.old) result }
        ensures called { calls self.new
            ≡ dial_noted (calls self.old) (Asked (is_reached result)) }
        ensures unpaused { pauses self.new ≡ pauses self.old };

    /// Waits for as long as a look at a quiet stream does, so that who looks at a stream that is
    /// away doesn't spin.
    fn pause(&mut self)
        ensures noted { tries self.new ≡ tries self.old }
        ensures called { calls self.new ≡ calls self.old }
        ensures paused { pauses self.new ≡ paused (pauses self.old) };
}

/// A stream that is reached again when it has gone: a try begins at once, then every second; after
/// each stream that was reached and gave nothing at twice the distance, up to 30 s. While it is
/// away it is quiet and takes nothing, and it begins with nothing in it each time. One to which
/// requests have gone out for 30 s and that gave nothing is closed. If nothing comes from the next
/// one either that is closed after 60 s, and so on up to 240 s.
#[derive(Drop)]
pub struct Redialled<D: Dialler + Drop, C: RunClock + Drop> {
    dialler: D,
    clock: C,
    stream: Option<D::Stream>,
    /// A stream that was found gone, until the next look.
    gone: Option<D::Stream>,
    /// When the last try began, in ms.
    tried: Option<u64>,
    /// That try goes on.
    is_trying: bool,
    /// How long after it the next one begins, in ms.
    wait: u64,
    silence: Silence,
    presence: Presence,
}

impl<D: Dialler + Drop, C: RunClock + Drop> Model for Redialled<D, C> {
    ghost use Rattle.std.specs.Prelude.{option_map};
    ghost use Rattle.live.specs.Redial.{Redial};

    ghost Value = { Redial };

    ghost view = { λ a. record {
      tries = D.tries a.dialler;
      calls = D.calls a.dialler;
      pauses = D.pauses a.dialler;
      clock = C.moments a.clock;
      stream = option_map (λ stream. D.Stream.history stream) a.stream;
      gone = option_map (λ stream. D.Stream.history stream) a.gone;
      tried = a.tried;
      is_trying = a.is_trying;
      wait = a.wait;
      silence = a.silence;
      presence = a.presence;
    } };
}

impl<D: Dialler + Drop, C: RunClock + Drop> Redialled<D, C> {
    /// One that is away. The first look tries to reach it.
    pub fn new(dialler: D, clock: C) -> Redialled<D, C>
        ensures { result ≡ record {
          tries = D.tries dialler;
          calls = D.calls dialler;
          pauses = D.pauses dialler;
          clock = C.moments clock;
          stream = None;
          gone = None;
          tried = None;
          is_trying = false;
          wait = 1000;
          silence = no_silence;
          presence = Untried;
        } }
    {
        Redialled {
            dialler,
            clock,
            stream: None,
            gone: None,
            tried: None,
            is_trying: false,
            wait: RETRY_MS,
            silence: Silence::new(),
            presence: Presence::Untried,
        }
    }

    /// A try is due at this moment.
    fn is_due(&self, now: u64) -> bool
        ensures { result ≡ is_due self.now now }
    {
        match (self.is_trying, self.tried) {
            (true, _) => false,
            (false, None) => true,
            (false, Some(last)) => self.wait <= now.saturating_sub(last),
        }
    }

    /// Looks at it while it is away.
    #[tactic(auto, using(crate::proofs::Tries::looked_away))]
    fn look_away(&mut self) -> Got
        requires { self.old.stream ≡ None }
        ensures quiet { result ≡ Quiet }
        ensures redialled { (buf : List ℕ) → IsRedialled self.old result buf self.new }
    {
        let now = self.read_clock();
        self.try_on(now);
        self.pause();
        Got::Quiet
    }

    /// Asks what has become of the try that goes on, or begins one that is due.
    #[tactic(auto, using(crate::proofs::Tries::tried_asked, crate::proofs::Tries::tried_due, crate::proofs::Tries::tried_not))]
    fn try_on(&mut self, now: u64)
        ensures { IsTriedOn now self.old self.new }
    {
        if self.is_trying {
            self.ask();
        } else if self.is_due(now) {
            // From the try's beginning, so that tries are a second apart however long each takes.
            self.tried = Some(now);
            self.dial();
        }
    }

    /// Asks what has become of the try that goes on.
    fn ask(&mut self)
        ensures { IsTryAnswered Asked self.old self.new }
    {
        let answer = self.dialler.ask();
        self.settle(answer);
    }

    /// Begins a try.
    fn dial(&mut self)
        ensures { IsTryAnswered Dialed self.old self.new }
    {
        let answer = self.dialler.dial();
        self.settle(answer);
    }

    /// Waits as long as a look at a quiet stream does.
    fn pause(&mut self)
        ensures { self.new ≡ waited self.old }
    {
        self.dialler.pause();
    }

    /// Reads the clock, and lets a stream go that was found gone before.
    fn read_clock(&mut self) -> u64
        ensures { self.new ≡ clock_read_at result self.old }
    {
        self.gone = None;
        self.clock.now_ms()
    }

    /// Closes a stream that has given nothing for too long, which is kept until the next look.
    // A device server that hangs keeps its connection open (docs/DECISIONS.md, "A line that is
    // silent").
    fn close_silent(&mut self)
        ensures { self.new ≡ closed_by true self.old }
    {
        self.gone = self.stream.take();
        self.silence.bear_longer();
        self.presence = Presence::Silent;
    }

    /// What has become of a try.
    fn settle(&mut self, answer: Dialled<D::Stream>)
        ensures { self.new
            ≡ settled (dialled_map (λ stream. D.Stream.history stream) answer) self.old }
    {
        match answer {
            Dialled::Reached(stream) => {
                self.stream = Some(stream);
                self.is_trying = false;
                self.wait = grown(self.wait);
                self.silence.begin();
                if !matches!(self.presence, Presence::Silent) {
                    self.presence = Presence::There;
                }
            }
            Dialled::Pending => self.is_trying = true,
            Dialled::Failed(cause) => {
                self.is_trying = false;
                self.presence = Presence::Away(Some(cause));
            }
        }
    }
}

/// How long after a try the next one begins, if its stream gives nothing.
fn grown(wait: u64) -> u64
    ensures { result ≡ grown wait }
{
    wait.saturating_mul(2).min(LONGEST_RETRY_MS)
}

impl<D: Dialler + Drop, C: RunClock + Drop> Reached for Redialled<D, C> {
    fn presence(&self) -> Presence
        ensures { result ≡ self.now.presence }
    {
        self.presence
    }
}

impl<D: Dialler + Drop, C: RunClock + Drop> OctetStream for Redialled<D, C> {
    ghost use Rattle.live.specs.OctetStreams.{noted, looked, Dropped, Wrote};
    ghost use Rattle.std.specs.Prelude.{Some};

    ghost history = { λ _. None };

    ghost presence = { λ r. Some r.presence };

    fn read(&mut self, buf: &mut [u8; 1024]) -> Got
        ensures fits { FitsBuffer result }
        ensures noted { None ≡ noted None (looked result buf.new) }
        ensures stays { result ≢ Gone }
        ensures redialled { IsRedialled self.old result buf.new self.new }
    {
        let Some(stream) = &mut self.stream else {
            return self.look_away();
        };
        match stream.read(buf) {
            Got::Octets(len) => {
                self.wait = RETRY_MS;
                self.silence = Silence::new();
                self.presence = Presence::Receiving;
                Got::Octets(len)
            }
            Got::Quiet if self.silence.is_over() => {
                self.close_silent();
                Got::Quiet
            }
            Got::Quiet => Got::Quiet,
            Got::Gone => {
                // Kept until the next look, as a port does (docs/DECISIONS.md, "A stream that was
                // found gone").
                self.gone = self.stream.take();
                self.presence = Presence::Away(None);
                Got::Quiet
            }
        }
    }

    fn drop_waiting(&mut self) -> u64
        ensures noted { None ≡ noted None (Dropped result) }
        ensures stays { Some self.new.presence ≡ Some self.old.presence }
        ensures dropped { HasDropped self.old result self.new }
    {
        match &mut self.stream {
            None => 0,
            Some(stream) => stream.drop_waiting(),
        }
    }

    fn write(&mut self, octets: &[u8]) -> bool
        ensures noted { None ≡ noted None (Wrote octets.now result) }
        ensures stays { Some self.new.presence ≡ Some self.old.presence }
        ensures put { IsPut self.old octets.now result self.new }
    {
        let Some(stream) = &mut self.stream else {
            return false;
        };
        let is_taken = stream.write(octets);
        let now = self.clock.now_ms();
        self.silence.ask(now);
        is_taken
    }
}

mod noted;
