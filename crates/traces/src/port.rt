//! The port over the entries of a trace.
ghost use Rattle.std.specs.Prelude.{◌≡◌, ℕ, ◌+◌, ◌<◌, ◌≤◌, Bool, true, false, List, [], ◌∷◌, ◌++◌};
ghost use Rattle.std.specs.Prelude.{vec_len, vec_capacity, string_bytes, IfOk, OnOk, OnErr, Option};
ghost use Rattle.std.specs.Prelude.{Some, None, if◌then◌else◌};
ghost use Rattle.std.specs.List.{AllByRecursion};
ghost use Rattle.gateway.specs.Log.{Came, Went, Ticked, with_news, events_of};
ghost use Rattle.gateway.specs.Ports.{output_of};
ghost use Rattle.gateway.specs.Entries.{FitsPort, event_of, script_of, logged_of, log_of};
ghost use Rattle.traces.specs.Actions.{line_of};

use crate::actions::append_line;
use crate::health::Health;
use gateway::{Action, Entry, Next, Port, StoredEntry, announce};
use std::alloc::{AllocError, Global};
use std::io::Write;
use std::marker::{Brand, Model, PhantomData};

/// What a writer holds before a run: known to proofs alone, so that they can say what the run has
/// added.
pub trait HeldBefore {
    ghost use Rattle.std.specs.Prelude.{ℕ, List, Option};

    /// The octets, if they are known.
    ghost held: { Option (List ℕ) };
}

impl HeldBefore for Brand {
    ghost use Rattle.std.specs.Prelude.{None};

    // By default nothing is known (docs/DECISIONS.md, "`Trace<W, B>`").
    ghost held = { None };
}

/// A port that gives a tick at moment 0 and then its entries. It stores the log of the run, and
/// writes the line of each action as it is put: `MS > S HEX` (to the line), `MS > T HEX` (to TCP),
/// `MS > X CAUSE` (a close) or `MS > G S K` (a gap of station S, counted from 1, at the end of its
/// session K), in upper case. Room in the log is made before a line is written. After a fault it
/// takes and gives nothing more.
pub struct Trace<W: Write, B: HeldBefore = Brand> {
    alloc: Global,
    /// Those that are still to come, the last first.
    entries: Vec<Entry>,
    is_started: bool,
    log: Vec<StoredEntry>,
    /// The line that is being written.
    line: String,
    out: W,
    failures: u64,
    health: Health,
    beginning: PhantomData<B>,
}

impl<W: Write, B: HeldBefore> Model for Trace<W, B> {
    ghost use Rattle.std.specs.Prelude.{reverse};
    ghost use Rattle.gateway.specs.Entries.{log_of};
    ghost use Rattle.traces.specs.Traced.{Traced, IsTraced};

    ghost Value = { Traced };

    ghost view = { λ a. record {
      log = log_of a.log.items;
      failed = a.failures;
      health = a.health;
      started = a.is_started;
      left = reverse a.entries.items;
      written = W.contents a.out;
    } };

    ghost invariant = { λ a. IsTraced B.held (record {
      log = log_of a.log.items;
      failed = a.failures;
      health = a.health;
      started = a.is_started;
      left = reverse a.entries.items;
      written = W.contents a.out;
    }) };
}

impl<W: Write, B: HeldBefore> Trace<W, B> {
    ghost use Rattle.traces.specs.Traced.{Traced, Takes, HasLines, first_traced, is_refused};
    ghost use Rattle.traces.specs.Traced.{refused};
    ghost use Rattle.std.specs.Io.KnownBytes.{Keeps};
    ghost use Rattle.traces.specs.declared.health.Health.TheVariants.{Good, Refused, Broken};

    /// A port over these entries, of 1 to 1,024 octets each, that writes to `out`.
    pub fn new(alloc: Global, entries: Vec<Entry>, out: W) -> Trace<W, B>
        requires fits { AllByRecursion FitsPort entries.items }
        requires held { Keeps B.held (W.contents out) }
        ensures { result ≡ first_traced false entries.items (W.contents out) }
    {
        Trace::over(alloc, entries, out, false)
    }

    /// The same without the tick at moment 0: the entries are all events of a run that was
    /// recorded.
    pub fn without_tick(alloc: Global, entries: Vec<Entry>, out: W) -> Trace<W, B>
        requires fits { AllByRecursion FitsPort entries.items }
        requires held { Keeps B.held (W.contents out) }
        ensures { result ≡ first_traced true entries.items (W.contents out) }
    {
        Trace::over(alloc, entries, out, true)
    }

    /// A port over these entries, which has given the tick at moment 0 if it is to be taken so.
    fn over(alloc: Global, entries: Vec<Entry>, out: W, is_started: bool) -> Trace<W, B>
        requires fits { AllByRecursion FitsPort entries.items }
        requires held { Keeps B.held (W.contents out) }
        ensures { result ≡ first_traced is_started entries.items (W.contents out) }
    {
        let mut entries = entries;
        // Each is then taken off the end, and none is moved up.
        entries.reverse();
        Trace {
            alloc,
            entries,
            is_started,
            log: Vec::new(alloc),
            line: String::new(alloc),
            out,
            failures: 0,
            health: Health::Good,
            beginning: PhantomData,
        }
    }

    /// The log so far, the oldest first.
    pub fn logged(&self) -> &[StoredEntry]
        ensures { log_of result.now ≡ self.now.log }
    {
        self.log.as_slice()
    }

    /// The tick at moment 0 comes.
    #[tactic(auto, using(crate::proofs::TracedLemmas::log_next))]
    fn start(&mut self) -> Result<Next, AllocError>
        requires { self.old.started ≡ false }
        ensures tick { IfOk result (λ next. next ≡ Next.Tick 0) }
        ensures ok { OnOk result (self.new
            ≡ record self.old { log = Came 0 Ticked ∷ self.old.log; started = true }) }
        ensures err { OnErr result (self.new ≡ self.old) }
    {
        self.log.push(StoredEntry::Came(Entry::Tick(0)))?;
        self.is_started = true;
        Ok(Next::Tick(0))
    }

    /// The next entry comes, whose octets are put at the front of the buffer.
    #[tactic(auto, using(crate::proofs::TracedLemmas::log_next, crate::proofs::TracedLemmas::first_left))]
    fn take(&mut self, buf: &mut [u8; 1024]) -> Result<Next, AllocError>
        ensures ok { IfOk result (Takes self.old self.new buf.new) }
        ensures err { OnErr result (self.new ≡ self.old) }
    {
        // Room first: what comes then stands in the log for certain.
        self.log.try_reserve(1)?;
        let Some(entry) = self.entries.pop() else {
            return Ok(Next::Done);
        };
        let next = announce(&entry, buf);
        self.log.push_reserved(StoredEntry::Came(entry));
        Ok(next)
    }

    /// One more failure, at first for want of memory.
    fn fail(&mut self)
        requires { self.old.failed < u64.MAX }
        ensures { self.new ≡ record self.old {
          failed = self.old.failed + 1;
          health = refused self.old.health;
        } }
    {
        self.failures += 1;
        if let Health::Good = self.health {
            self.health = Health::Refused;
        }
    }

    /// Whether it gave up for want of memory; if it gave up and this is false, a write failed.
    pub fn refused(&self) -> bool
        ensures { result ≡ is_refused self.now.health }
    {
        matches!(self.health, Health::Refused)
    }

    /// The writer.
    pub fn into_writer(self) -> W
        ensures held { W.contents result ≡ self.written }
        // It has got the lines of the log's actions, if no write failed.
        ensures lines { HasLines B.held self }
        ensures sound { self.failed ≡ 0 → self.health ≡ Good }
    {
        let Trace {
            alloc: _,
            entries: _,
            is_started: _,
            log: _,
            line: _,
            out,
            failures: _,
            health: _,
            beginning: _,
        } = self;
        out
    }
}

/// An action as it is stored, with its line in `line` and room for it in the log.
fn prepare(
    alloc: Global,
    line: &mut String,
    log: &mut Vec<StoredEntry>,
    now: u64,
    action: &Action<'_>,
) -> Result<StoredEntry, AllocError>
    ensures logged { IfOk result (λ logged. logged_of logged ≡ Went now (output_of action.now)) }
    ensures line { OnOk result (string_bytes line.new ≡ line_of now (output_of action.now)) }
    ensures room { OnOk result (vec_len log.new < vec_capacity log.new) }
    ensures log { log.new.items ≡ log.old.items }
{
    let logged = StoredEntry::went(alloc, now, action)?;
    line.clear();
    append_line(alloc, line, &logged)?;
    log.try_reserve(1)?;
    Ok(logged)
}

impl<W: Write, B: HeldBefore> Port for Trace<W, B> {
    ghost use Rattle.std.specs.Prelude.{Some};
    ghost use Rattle.traces.specs.Traced.{has_ended, whole_script};

    ghost log = { λ t. Some t.log };

    ghost failed = { λ t. t.failed };

    ghost ended = { has_ended };

    ghost script = { whole_script };

    fn next(&mut self, buf: &mut [u8; 1024]) -> Next {
        if self.is_started && self.entries.is_empty() {
            return Next::Done;
        }
        if self.health != Health::Good {
            self.fail();
            return Next::Fault;
        }
        let came = if self.is_started {
            self.take(buf)
        } else {
            self.start()
        };
        match came {
            Ok(next) => next,
            Err(_) => {
                self.fail();
                Next::Fault
            }
        }
    }

    fn put(&mut self, now: u64, action: &Action<'_>) -> bool {
        if self.health != Health::Good {
            self.fail();
            return false;
        }
        let Ok(logged) = prepare(self.alloc, &mut self.line, &mut self.log, now, action) else {
            self.fail();
            return false;
        };
        // How much of a line got out isn't known if this fails, so nothing more is written.
        if self.out.write_all(self.line.as_bytes()).is_err() {
            self.failures += 1;
            self.health = Health::Broken;
            return false;
        }
        self.log.push_reserved(logged);
        true
    }

    fn failures(&self) -> u64 {
        self.failures
    }
}
