//! A gateway receives again what it had received.
ghost use Rattle.std.specs.Prelude.{◌≡◌, ◌∷◌, [], List, Some, None, IfErr, IfOk, not, true, false};
ghost use Rattle.gateway.specs.Log.{LogEntry};
ghost use Rattle.gateway.specs.Agrees.{Follows, Rests};
ghost use Rattle.gateway.specs.Reports.{Setup};
ghost use Rattle.gateway.specs.Ports.{output_of};
ghost use Rattle.state.specs.Replays.{AreRead, IsFirst, IsRepeating, IsReplayed, IsLogged, IsRow};
ghost use Rattle.state.specs.Replays.{events_in_front, gap_of};
ghost use Rattle.traces.specs.Trace.{lines_of, logged};

use checkpoint::StateFault;
use gateway::{Action, End, Gateway, History, Next, Port, announce, drive_on};
use std::alloc::Global;
use std::marker::{Brand, Model, PhantomData};
use traces::{TextFault, read_trace};

/// Lines of events that come one after another.
pub trait EventLines {
    ghost use Rattle.std.specs.Prelude.{◌≡◌, ℕ, List, [], ◌∷◌, Ok, true, false};
    ghost use Rattle.traces.specs.Trace.{lines_of};

    /// The lines that are still to come, each without its line feed.
    ghost coming: { Self → List (List ℕ) };

    /// Puts the next line in place of this one. `false` says that none comes any more.
    fn next_line(&mut self, line: &mut Vec<u8>) -> Result<bool, StateFault>
        ensures some { result ≡ Ok true → coming self.old ≡ line.new.items ∷ coming self.new }
        ensures one { result ≡ Ok true → lines_of line.new.items ≡ line.new.items ∷ [] }
        ensures none { result ≡ Ok false → coming self.old ≡ [] };
}

/// The log before a replay, which no code holds.
pub trait Lineage {
    ghost use Rattle.gateway.specs.Log.{LogEntry};
    ghost use Rattle.std.specs.Prelude.{List};

    ghost log: { List LogEntry };
}

impl Lineage for Brand {
    ghost use Rattle.std.specs.Prelude.{[]};

    ghost log = { [] };
}

/// That log, and the lines of the replay.
trait ReplayScript {
    ghost use Rattle.gateway.specs.Log.{LogEntry};
    ghost use Rattle.std.specs.Prelude.{ℕ, List};

    ghost log: { List LogEntry };

    ghost lines: { List (List ℕ) };
}

impl ReplayScript for Brand {
    ghost use Rattle.std.specs.Prelude.{[]};

    ghost log = { [] };

    ghost lines = { [] };
}

/// A gap that was reported: the station by its place among the settings, from 0, and the session
/// numbered from 1.
pub type ReportedGap = (usize, u64);

/// What a replay leaves.
#[derive(Drop)]
pub struct Replayed {
    /// The gap that its last step reported, if it reported one.
    pub gap: Option<ReportedGap>,
    /// The log before it, with the events of the replay and what the gateway did on them.
    pub log: History,
    /// Each line logs an event.
    pub is_whole: bool,
}

/// What a line is.
pub(crate) enum Row {
    /// It logs this event, as a port answers it.
    Event(Next),
    /// It logs none.
    Wrong,
    /// There is none.
    End,
}

/// The gap that an action reports, if it reports one.
fn gap_of(action: &Action<'_>) -> Option<ReportedGap>
    ensures { result ≡ gap_of (output_of action.now) }
{
    match action {
        Action::Gap { station, session } => Some((*station, *session)),
        Action::Line(_) | Action::Tcp(_) | Action::Close(_) => None,
    }
}

/// A port that gives the events that lines log, up to the first line that logs none. It puts no
/// action out. A line that can't be read is a fault.
#[derive(Drop)]
struct Repeater<K: ReplayScript, L: EventLines + Drop> {
    alloc: Global,
    lines: L,
    /// The line that was read last.
    line: Vec<u8>,
    is_over: bool,
    /// A line logs no event.
    is_broken: bool,
    history: History,
    /// The gap that the latest step reported, if it reported one.
    gap: Option<ReportedGap>,
    fault: StateFault,
    failures: u64,
    of: PhantomData<K>,
}

impl<K: ReplayScript, L: EventLines + Drop> Model for Repeater<K, L> {
    ghost use Rattle.state.specs.Replays.{IsRepeating, Replaying};

    ghost Value = { Replaying };

    ghost view = { λ r. record {
      coming = L.coming r.lines;
      is_over = r.is_over;
      is_broken = r.is_broken;
      news = r.history.entries;
      earlier = K.log;
      failed = r.failures;
      gap = r.gap;
    } };

    ghost invariant = { λ r. IsRepeating K.lines (record {
      coming = L.coming r.lines;
      is_over = r.is_over;
      is_broken = r.is_broken;
      news = r.history.entries;
      earlier = K.log;
      failed = r.failures;
      gap = r.gap;
    }) };
}

/// A log that proofs know, behind which such news came.
fn known(_news: &History) -> History
    ghost log: { List LogEntry }
    ensures { result.entries ≡ log }
{
    History::before()
}

/// Gives the event that a line logs, if it logs one, as a port does: its octets are put at the
/// front of the buffer.
#[tactic(auto, using(crate::proofs::Repeated::unannounced, crate::proofs::Repeated::wrongly_logged))]
fn announce_line(
    alloc: Global,
    line: &[u8],
    buf: &mut [u8; 1024],
) -> Result<Option<Next>, StateFault>
    requires { lines_of line.now ≡ line.now ∷ [] }
    ensures { IfOk result (λ found. IsLogged (logged line.now) found buf.new) }
{
    match read_trace(alloc, line) {
        Ok(entries) => match entries.as_slice() {
            [entry, ..] => Ok(Some(announce(entry, buf))),
            [] => Ok(None),
        },
        Err(TextFault::NoMemory) => Err(StateFault::NoMemory),
        Err(TextFault::Line(_)) => Ok(None),
    }
}

/// What the next line is. Its event is given as a port gives it.
#[tactic(auto, using(crate::proofs::Repeated::event_row, crate::proofs::Repeated::wrong_row))]
pub(crate) fn next_row<L: EventLines>(
    alloc: Global,
    lines: &mut L,
    line: &mut Vec<u8>,
    buf: &mut [u8; 1024],
) -> Result<Row, StateFault>
    ensures { IfOk result (λ row.
        IsRow (L.coming lines.old) (L.coming lines.new) row buf.new) }
{
    if !lines.next_line(line)? {
        return Ok(Row::End);
    }
    match announce_line(alloc, line.as_slice(), buf)? {
        Some(next) => Ok(Row::Event(next)),
        None => Ok(Row::Wrong),
    }
}

impl<K: ReplayScript, L: EventLines + Drop> Repeater<K, L> {
    ghost use Rattle.state.specs.Replays.{log_of};

    /// One over these lines.
    fn over(alloc: Global, lines: L) -> Repeater<K, L>
        requires { L.coming lines ≡ K.lines }
        ensures { result ≡ record {
          coming = L.coming lines;
          is_over = false;
          is_broken = false;
          news = [];
          earlier = K.log;
          failed = 0;
          gap = None;
        } }
    {
        Repeater {
            alloc,
            lines,
            line: Vec::new(alloc),
            is_over: false,
            is_broken: false,
            history: History::new(),
            gap: None,
            fault: StateFault::NoMemory,
            failures: 0,
            of: PhantomData,
        }
    }

    /// Why a line couldn't be read.
    fn fault(&self) -> StateFault {
        self.fault
    }

    /// The gap that the latest step reported, if it reported one.
    fn gap(&self) -> Option<ReportedGap>
        ensures { result ≡ self.now.gap }
    {
        self.gap
    }

    /// The log before the replay, with what was received and done in it.
    fn log(&self) -> History
        ensures { result.entries ≡ log_of self.now }
    {
        known(&self.history)
    }

    /// Whether each line so far logs an event.
    fn is_whole(&self) -> bool
        ensures is { result ≡ not self.now.is_broken }
        ensures whole { IsRepeating K.lines self.now }
        ensures earlier { self.now.earlier ≡ K.log }
    {
        !self.is_broken
    }
}

impl<K: ReplayScript, L: EventLines + Drop> Port for Repeater<K, L> {
    ghost use Rattle.state.specs.Replays.{log_of};
    ghost use Rattle.std.specs.Prelude.{Some};

    ghost log = { λ r. Some (log_of r) };

    ghost failed = { λ r. r.failed };

    ghost ended = { λ r. r.is_over };

    ghost Fixed = { Unit };

    ghost script = { λ _. tt };

    #[tactic(auto, using(crate::proofs::Repeated::one_more, crate::proofs::Repeated::no_more, crate::proofs::Repeated::broken_off))]
    fn next(&mut self, buf: &mut [u8; 1024]) -> Next {
        if self.is_over {
            return Next::Done;
        }
        match next_row(self.alloc, &mut self.lines, &mut self.line, buf) {
            Ok(Row::Event(next)) => {
                self.history = self.history.came(&next, buf);
                self.gap = None;
                next
            }
            Ok(Row::Wrong) => {
                self.is_over = true;
                self.is_broken = true;
                Next::Done
            }
            Ok(Row::End) => {
                self.is_over = true;
                Next::Done
            }
            Err(fault) => {
                self.fault = fault;
                self.failures += 1;
                Next::Fault
            }
        }
    }

    fn put(&mut self, now: u64, action: &Action<'_>) -> bool {
        self.history = self.history.went(&now, action);
        if let Some(gap) = gap_of(action) {
            self.gap = Some(gap);
        }
        true
    }

    fn failures(&self) -> u64 {
        self.failures
    }
}

/// Why a replay didn't come to its end. That a line can't be had says nothing against the state
/// that it stands behind.
pub(crate) fn broken_off(fault: StateFault) -> StateFault
    ensures { result ≡ StateFault.Wrong → ⊥ }
{
    match fault {
        StateFault::NoMemory => StateFault::NoMemory,
        StateFault::Wrong | StateFault::Device => StateFault::Device,
    }
}

/// Brings a gateway to the state to which these lines lead, whose events are known to proofs.
fn repeat<K: ReplayScript, L: EventLines + Drop>(
    alloc: Global,
    gateway: &mut Gateway,
    lines: L,
) -> Result<Replayed, StateFault>
    requires { L.coming lines ≡ K.lines }
    ensures replayed { (p : Setup) → Follows p gateway.old (Some K.log) → Rests p (Some K.log) →
        IfOk result (λ r. IsReplayed p K.log (events_in_front K.lines) r.gap r.log.entries
        gateway.new) }
    ensures whole { IfOk result (λ r. r.is_whole ≡ true → AreRead K.lines) }
    ensures broken { IfOk result (λ r. r.is_whole ≡ false → AreRead K.lines → ⊥) }
    ensures fault { IfErr result (λ fault. fault ≡ StateFault.Wrong → ⊥) }
{
    let mut port: Repeater<K, L> = Repeater::over(alloc, lines);
    let end = drive_on(gateway, &mut port, u64::MAX);
    match end {
        End::Finished => {
            Ok(Replayed {
                gap: port.gap(),
                log: port.log(),
                is_whole: port.is_whole(),
            })
        }
        // No memory holds so many lines.
        End::Turns => Err(StateFault::NoMemory),
        End::Device => Err(broken_off(port.fault())),
    }
}

/// Brings a gateway to the state to which these lines lead. It receives their events again, up to
/// the first line that logs none, and what it does goes nowhere. After an `Err` the gateway is
/// given up; it is never `Wrong`, whatever the lines are.
pub fn replay<K: Lineage, L: EventLines + Drop>(
    alloc: Global,
    gateway: &mut Gateway,
    lines: L,
) -> Result<Replayed, StateFault>
    ensures replayed { (p : Setup) → Follows p gateway.old (Some K.log) → Rests p (Some K.log) →
        IfOk result (λ r. IsReplayed p K.log (events_in_front (L.coming lines)) r.gap
        r.log.entries gateway.new) }
    ensures whole { IfOk result (λ r. r.is_whole ≡ true → AreRead (L.coming lines)) }
    ensures broken { IfOk result (λ r. r.is_whole ≡ false → AreRead (L.coming lines) → ⊥) }
    ensures fault { IfErr result (λ fault. fault ≡ StateFault.Wrong → ⊥) }
{
    repeat::<Brand, L>(alloc, gateway, lines)
}
