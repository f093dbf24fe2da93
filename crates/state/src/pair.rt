//! A port, and a store beside it.
ghost use Rattle.std.specs.Prelude.{◌≡◌, ◌⊎◌, ◌+◌, ◌++◌, ℕ, List, true, false, [], length, IfErr};
ghost use Rattle.std.specs.Prelude.{OnOk};
ghost use Rattle.std.specs.Fmt.{decimal};
ghost use Rattle.std.specs.List.{AllByRecursion};
ghost use Rattle.gateway.specs.Ports.{FitsBuffer, logged_by};
ghost use Rattle.state.specs.Lines.{FitsLine, IsRefusedBy, IsWritable};
ghost use Rattle.traces.specs.Printed.{IsPrintable, lines_of_log};

use crate::disk_store::DiskStore;
use crate::ends::Ends;
use crate::folder::Folder;
use crate::loss::{Loss, StoreFault};
use crate::renewal::is_renewal_due;
use crate::store::Store;
use crate::trail::{Done, Trail};
use gateway::{Action, Gateway, LAST_MOMENT, Next};
use live::{EndsSight, SyncTimes, Timed, Watched};
use segments::row_with_room;
use std::alloc::{AllocError, Global};
use std::io::ErrorKind;
use std::marker::Model;
use traces::{Moment, Page, print_event};

/// A port, and a store beside it. What is done at both is one history, which only proofs read.
#[derive(Drop)]
pub struct Pair<P: Watched + Timed + Drop, S: Store + Drop> {
    alloc: Global,
    port: P,
    store: S,
    /// The line of an event, while that is appended.
    page: Page,
    /// How long syncs of the store took.
    syncs: SyncTimes,
    trail: Trail,
}

impl<P: Watched + Timed + Drop, S: Store + Drop> Model for Pair<P, S> {
    ghost use Rattle.std.specs.List.{AllByRecursion};
    ghost use Rattle.state.specs.Both.{Both};
    ghost use Rattle.state.specs.Deeds.{written};
    ghost use Rattle.state.specs.Lines.{IsWritable};
    ghost use Rattle.state.specs.Stores.{IsMarked, IsStored};

    ghost Value = { Both P S };

    ghost view = { λ p. record { port = p.port; store = p.store; deeds = p.trail.deeds } };

    // While the state is kept the store has the events' lines, and nothing else.
    ghost invariant = { λ p. IsStored (S.settings p.store) p.trail.deeds (S.stored p.store)
        × IsMarked p.trail.deeds (S.mark p.store)
        × AllByRecursion IsWritable (written p.trail.deeds) };
}

impl<P: Watched + Timed + Drop, S: Store + Drop> Pair<P, S> {
    ghost use Rattle.std.specs.List.{AllByRecursion};
    ghost use Rattle.state.specs.Deeds.{written};
    ghost use Rattle.state.specs.Lines.{IsWritable};
    ghost use Rattle.state.specs.Stores.{IsMarked, IsStored};

    /// Both, at which nothing was done.
    pub fn new(alloc: Global, port: P, store: S) -> Pair<P, S>
        ensures { result ≡ record { port = port; store = store; deeds = [] } }
    {
        Pair {
            alloc,
            port,
            store,
            page: Page::holding(row_with_room(alloc, ROW)),
            syncs: SyncTimes::none(),
            trail: Trail::new(),
        }
    }

    /// The store.
    pub fn store(&self) -> &S
        ensures store { result.now ≡ self.now.store }
        ensures stored { IsStored (S.settings self.now.store) self.now.deeds
            (S.stored self.now.store) }
        ensures marked { IsMarked self.now.deeds (S.mark self.now.store) }
        ensures writable { AllByRecursion IsWritable (written self.now.deeds) }
    {
        &self.store
    }

    /// The store, with the port given up.
    pub fn into_store(self) -> S
        ensures { result ≡ self.store }
    {
        let Pair { store, .. } = self;
        store
    }
}

impl<P: Watched + Timed + Drop, F: Folder + Drop> Pair<P, DiskStore<F>> {
    ghost use Rattle.segments.specs.Crash.{AreMixing};
    ghost use Rattle.state.specs.Crashed.{IsKeptIn};
    ghost use Rattle.state.specs.Deeds.{is_kept};
    ghost use Rattle.state.specs.Logs.{HasFreshLog, IsOlderBeside, leaves_amid, leaves_both};
    ghost use Rattle.state.specs.Logs.{leaves_in};

    /// While the state is kept a start finds it, whatever a crash leaves now of the log's file:
    /// with all events that are synced, with the oldest of those that wait, and with no other line.
    /// What a crash leaves of the other file has older segments alone. Amid a renewal it may have
    /// the next log, and this file is the older one then.
    pub fn survives(&self)
        ensures kept { is_kept self.now.deeds ≡ true → AreMixing F.File.Disk → (file : List ℕ) →
            leaves_in self.now.store.opened file →
            IsKeptIn self.now.store.settings.items self.now.deeds file }
        ensures older { is_kept self.now.deeds ≡ true → (file other : List ℕ) →
            leaves_both self.now.store.opened file other → IsOlderBeside file other }
        ensures amid { is_kept self.now.deeds ≡ true → (number : ℕ) (settings : List ℕ)
            (lines : List (List ℕ)) (file other : List ℕ) →
            leaves_amid self.now.store.opened number settings lines file other →
            IsOlderBeside file other
            ⊎ (HasFreshLog number settings lines other × IsOlderBeside other file) }
    {
        let store = self.store();
        store.survives();
        store.has_older_beside();
    }
}

/// A line can hold the event of this answer: its moment has 15 digits at most, and it has octets.
fn is_writable(next: Next) -> bool
    ensures fits { result ≡ true → FitsLine next }
    ensures others { result ≡ false → FitsLine next → ⊥ }
{
    match next {
        Next::Line(now, len) | Next::Bytes(now, len) => now <= LAST_MOMENT && len >= 1,
        Next::Open(now) | Next::Cut(now) | Next::Tick(now) => now <= LAST_MOMENT,
        Next::Wall(now, number) => now <= LAST_MOMENT && number <= LAST_MOMENT,
        Next::Done | Next::Fault => true,
    }
}

/// More octets than any line of an event has.
const ROW: usize = 4_096;

/// Puts a number, and words behind it.
fn put_number(page: &mut Page, number: u64, words: &str) -> Result<(), AllocError>
    ensures { OnOk result (page.new ≡ page.old ++ (decimal number ++ words.now)) }
{
    page.put(Moment::new(number).digits())?;
    page.put(words.as_bytes())
}

/// Puts the line of an event, if there is one.
fn put_line(alloc: Global, page: &mut Page, next: Next, buf: &[u8; 1024]) -> Result<(), AllocError>
    requires { FitsBuffer next }
    ensures line { OnOk result (page.new
        ≡ page.old ++ lines_of_log (logged_by next buf.now)) }
    ensures printable { OnOk result (AllByRecursion IsPrintable (logged_by next buf.now)) }
{
    match next {
        Next::Open(now) => put_number(page, now, " O\n"),
        Next::Cut(now) => put_number(page, now, " C\n"),
        Next::Tick(now) => put_number(page, now, " T\n"),
        Next::Wall(now, number) => {
            put_number(page, now, " W ")?;
            put_number(page, number, "\n")
        }
        Next::Line(..) | Next::Bytes(..) | Next::Done | Next::Fault => {
            print_event(alloc, page, next, buf)
        }
    }
}

/// Appends the line of an event to a store, if there is one, by way of this page.
fn take<S: Store>(
    alloc: Global,
    page: &mut Page,
    store: &mut S,
    next: Next,
    buf: &[u8; 1024],
) -> Result<(), StoreFault>
    requires { FitsBuffer next }
    ensures taken { OnOk result (S.stored store.new ≡ record (S.stored store.old) {
      held = (S.stored store.old).held ++ lines_of_log (logged_by next buf.now);
      octets = (S.stored store.old).octets + length (lines_of_log (logged_by next buf.now));
    }) }
    ensures refused { IfErr result (λ fault.
        IsRefusedBy fault (logged_by next buf.now) (S.stored store.old).octets) }
    ensures writable { OnOk result (AllByRecursion IsWritable (logged_by next buf.now)) }
    ensures mark { S.mark store.new ≡ S.mark store.old }
    ensures settings { S.settings store.new ≡ S.settings store.old }
{
    // A start couldn't read such a line (docs/DECISIONS.md, "A line that can't be read").
    if !is_writable(next) {
        return Err(StoreFault::Unwritable);
    }
    page.clear();
    if put_line(alloc, page, next, buf).is_err() {
        return Err(StoreFault::Failed);
    }
    // Its write gets a seal at the sync.
    store.append(page.octets())
}

impl<P: Watched + Timed + Drop, S: Store + Drop> Ends for Pair<P, S> {
    ghost use Rattle.state.specs.Both.{ShowsBoth};

    ghost log = { λ p. P.log p.port };

    ghost failed = { λ p. P.failed p.port };

    ghost ended = { λ p. P.ended p.port };

    ghost Fixed = { P.Fixed };

    ghost script = { λ p. P.script p.port };

    ghost failure = { λ p. P.failure p.port };

    ghost shows = { λ p sight. ShowsBoth P.shows p.port sight };

    ghost deeds = { λ p. p.deeds };

    fn next(&mut self, buf: &mut [u8; 1024]) -> Next {
        let next = self.port.next(buf);
        self.trail = self.trail.with(&Done::Received(next, buf));
        next
    }

    fn put(&mut self, now: u64, action: &Action<'_>) -> bool {
        let has_gone = self.port.put(now, action);
        if has_gone {
            self.trail = self.trail.with(&Done::PutOut(now, action));
        }
        has_gone
    }

    fn failures(&self) -> u64 {
        self.port.failures()
    }

    /// The syncs are the store's: its port has none.
    fn sight(&self) -> EndsSight {
        EndsSight {
            syncs: self.syncs,
            ..self.port.sight()
        }
    }

    fn append(&mut self, next: Next, buf: &[u8; 1024]) -> Result<(), Loss> {
        if let Err(fault) = take(self.alloc, &mut self.page, &mut self.store, next, buf) {
            let loss = self.store.give_up();
            self.trail = self.trail.with(&Done::GivenUp(fault, loss));
            return Err(loss);
        }
        self.trail = self.trail.with(&Done::Appended(next, buf));
        Ok(())
    }

    fn sync(&mut self) -> Result<(), Loss> {
        let begun = self.port.shown_ms();
        let is_synced = self.store.sync();
        self.syncs.note(self.port.shown_ms().saturating_sub(begun));
        if is_synced {
            self.trail = self.trail.with(&Done::Synced);
            return Ok(());
        }
        let loss = self.store.give_up();
        self.trail = self.trail.with(&Done::GivenUp(StoreFault::Failed, loss));
        Err(loss)
    }

    fn is_full(&self) -> bool {
        is_renewal_due(self.store.event_octets())
    }

    fn begin(&mut self, gateway: &Gateway) -> Result<(), Loss> {
        if self.store.begin(gateway) {
            self.trail = self.trail.with(&Done::Begun(gateway));
            return Ok(());
        }
        let loss = self.store.give_up();
        self.trail = self.trail.with(&Done::GivenUp(StoreFault::Failed, loss));
        Err(loss)
    }

    fn cause(&self) -> Option<ErrorKind> {
        self.store.cause()
    }
}
