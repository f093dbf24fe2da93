//! A port whose events are kept on a disk before anything goes out on them.
ghost use Rattle.std.specs.Prelude.{◌≡◌, ◌+◌, ◌<◌, ◌≤◌, ◌∷◌, [], ◌++◌, ◌⊎◌, true, false};
ghost use Rattle.std.specs.Prelude.{IfSome, None, Option, if◌then◌else◌, nat_lt};
ghost use Rattle.std.specs.Option.{is_some};
ghost use Rattle.std.specs.declared.io.ErrorKind.{ErrorKind};
ghost use Rattle.gateway.specs.Log.{Went, with_news};
ghost use Rattle.gateway.specs.Ports.{FitsBuffer, faults_of, output_of, logged_by};
ghost use Rattle.gateway.specs.declared.ports.Next.TheVariants.{Done, Fault};
ghost use Rattle.state.specs.Deeds.{HasPassed, IsAllOnDisk, grown, loss_of, passed};
ghost use Rattle.state.specs.Keeping.{IsOrderly, failure_of, unlooked_fixture};
ghost use Rattle.state.specs.Lines.{is_renewal_due};
ghost use Rattle.state.specs.Renewals.{after_notice, after_try, is_try_due, moment_after};
ghost use Rattle.state.specs.Renewals.{notice_of};
ghost use Rattle.state.specs.Standings.{IsPortLeft, Renews, is_lost, is_stopped};

use crate::disk_store::DiskStore;
use crate::ends::Ends;
use crate::folder::Folder;
use crate::keeping::{is_stopped, keep, settle};
use crate::pair::Pair;
use crate::renewal::Patience;
use crate::standing::Standing;
use crate::store::Store;
use gateway::{Action, Gateway, Next, Port};
use live::{EndsSight, Failure, Notice, Timed, Watched};
use std::marker::Model;

/// A port that passes each event and each action of another one on unchanged. The line of each
/// event goes to the log of a store before the gateway receives it. No action is handed out before
/// all received events are on the disk. If the store has failed, the run goes on without it, if
/// that is borne and the state on the disk is marked as stale, or else the port has failed.
#[derive(Drop)]
pub struct Keeper<E: Ends + Drop> {
    ends: E,
    standing: Standing,
    /// If the store has failed, the run goes on without it.
    bears_loss: bool,
    /// How often nothing was asked of the port, since the store has failed.
    stops: u64,
    patience: Patience,
}

impl<E: Ends + Drop> Model for Keeper<E> {
    ghost use Rattle.state.specs.Keeping.{IsKeeping, Keeping};
    ghost use Rattle.std.specs.Prelude.{◌+◌};

    ghost Value = { Keeping E };

    ghost view = { λ k. record {
      ends = k.ends;
      standing = k.standing;
      bears_loss = k.bears_loss;
      stops = k.stops;
      patience = k.patience;
    } };

    ghost invariant = { λ k. IsKeeping (E.log k.ends) (E.deeds k.ends) k.standing k.bears_loss
        (E.failed k.ends + k.stops) };
}

impl<E: Ends + Drop> Keeper<E> {
    /// One over these ends, at which nothing was done and nothing has passed: the log begins with
    /// this gateway's state.
    pub fn new(mut ends: E, gateway: &Gateway, bears_loss: bool) -> Keeper<E>
        requires nothing { E.deeds ends ≡ [] }
        requires quiet { IfSome (E.log ends) (λ log. log ≡ []) }
        requires few { E.failed ends ≤ u64.MAX }
        ensures log { E.log result.ends ≡ E.log ends }
        ensures failed { E.failed result.ends + result.stops ≡ E.failed ends }
        ensures script { E.script result.ends ≡ E.script ends }
        ensures bears { result.bears_loss ≡ bears_loss }
        ensures begun { Renews [] gateway.now (E.deeds result.ends) }
        ensures patience { result.patience ≡ record { moment = 0; tried = None; logged = None } }
    {
        let standing = match ends.begin(gateway) {
            Ok(()) => Standing::Synced,
            Err(loss) => Standing::Lost(loss),
        };
        Keeper {
            ends,
            standing,
            bears_loss,
            stops: 0,
            patience: Patience::NEW,
        }
    }

    /// Looks at the gateway between two steps: begins a new log with its state, if that is due. The
    /// state is that to which all received events have led.
    pub fn look(&mut self, gateway: &Gateway)
        ensures passed { HasPassed (E.log self.old.ends) (E.deeds self.old.ends) }
        ensures port { IsPortLeft E.log E.failed E.ended E.script self.old.ends self.new.ends }
        ensures left { (self.new.stops ≡ self.old.stops)
            × (self.new.bears_loss ≡ self.old.bears_loss) }
        // If the store has failed, a new log is tried, if that is due, and none otherwise.
        ensures tries { is_lost self.old.standing ≡ true → is_try_due self.old.patience ≡ true →
            Renews (E.deeds self.old.ends) gateway.now (E.deeds self.new.ends) }
        ensures waits { is_lost self.old.standing ≡ true → is_try_due self.old.patience ≡ false →
            self.new ≡ self.old }
        // If it hasn't, a new log is begun if the present one has grown, and none otherwise.
        ensures renews { is_lost self.old.standing ≡ false →
            is_renewal_due (grown (E.deeds self.old.ends)) ≡ true →
            Renews (E.deeds self.old.ends) gateway.now (E.deeds self.new.ends) }
        ensures keeps { is_lost self.old.standing ≡ false →
            is_renewal_due (grown (E.deeds self.old.ends)) ≡ false → self.new ≡ self.old }
        // So there is room for the next line, unless the store has failed.
        ensures room { is_lost self.new.standing ≡ false →
            is_renewal_due (grown (E.deeds self.new.ends)) ≡ false }
        ensures looks { (self.new ≡ self.old)
            ⊎ Renews (E.deeds self.old.ends) gateway.now (E.deeds self.new.ends) }
        ensures tried { (self.new ≡ self.old)
            ⊎ (self.new.patience ≡ after_try (is_lost self.new.standing) self.old.patience) }
    {
        match self.standing {
            Standing::Lost(_) => {
                if self.patience.is_try_due() {
                    self.begin(gateway);
                }
            }
            Standing::Synced | Standing::Waiting(_) => {
                if self.ends.is_full() {
                    self.begin(gateway);
                }
            }
        }
    }

    /// Begins a new log.
    fn begin(&mut self, gateway: &Gateway)
        ensures port { IsPortLeft E.log E.failed E.ended E.script self.old.ends self.new.ends }
        ensures left { (self.new.stops ≡ self.old.stops)
            × (self.new.bears_loss ≡ self.old.bears_loss) }
        ensures renews { Renews (E.deeds self.old.ends) gateway.now (E.deeds self.new.ends) }
        ensures tried { self.new.patience
            ≡ after_try (is_lost self.new.standing) self.old.patience }
        ensures room { is_lost self.new.standing ≡ false →
            is_renewal_due (grown (E.deeds self.new.ends)) ≡ false }
    {
        match self.ends.begin(gateway) {
            Ok(()) => {
                self.standing = Standing::Synced;
                self.patience.tried = None;
            }
            Err(loss) => {
                self.standing = Standing::Lost(loss);
                self.patience.tried = Some(self.patience.moment);
            }
        }
    }

    /// What is to be reported of the state now, if anything: that it isn't kept, at once and each
    /// minute, and that it is kept again.
    pub fn notice(&mut self) -> Option<Notice>
        ensures notice { (cause : Option ErrorKind) ×
            (result ≡ notice_of (is_lost self.old.standing) cause self.old.patience) }
        ensures after { self.new
            ≡ record self.old { patience = after_notice result self.old.patience } }
    {
        let cause = self.ends.cause();
        self.patience
            .notice(matches!(self.standing, Standing::Lost(_)), cause)
    }

    /// How far the received events are on the disk.
    pub fn standing(&self) -> Standing
        ensures orderly { IsOrderly self.now.bears_loss result (E.deeds self.now.ends) }
        ensures passed { HasPassed (E.log self.now.ends) (E.deeds self.now.ends) }
    {
        self.standing
    }
}

impl<P: Watched + Timed + Drop, F: Folder + Drop> Keeper<Pair<P, DiskStore<F>>> {
    ghost use Rattle.std.specs.Prelude.{ℕ, List};
    ghost use Rattle.gateway.specs.Restored.{state_lines};
    ghost use Rattle.gateway.specs.State.{State};
    ghost use Rattle.segments.specs.Crash.{AreMixing};
    ghost use Rattle.state.specs.Crashed.{IsKeptIn};
    ghost use Rattle.state.specs.Deeds.{Begun, is_kept};
    ghost use Rattle.state.specs.Logs.{IsOlderBeside, IsReadWell, leaves_amid, leaves_behind};
    ghost use Rattle.state.specs.Logs.{leaves_both, leaves_in};
    ghost use Rattle.state.specs.Returns.{GoesOnOver};

    /// At any moment between two calls, while the state is kept: whatever a crash leaves then of
    /// the log's file, a start reads there the state with which the log was begun, all events that
    /// are synced, the oldest of those that wait, and no other line. What a crash leaves of the
    /// other file has older segments alone, and no start doubts it. So a start over both goes on
    /// with each link, and with this log.
    pub fn survives(&self)
        ensures kept { is_kept self.now.ends.deeds ≡ true → AreMixing F.File.Disk →
            (file : List ℕ) → leaves_in self.now.ends.store.opened file →
            IsKeptIn self.now.ends.store.settings.items self.now.ends.deeds file }
        ensures older { is_kept self.now.ends.deeds ≡ true → (file other : List ℕ) →
            leaves_both self.now.ends.store.opened file other → IsOlderBeside file other }
        ensures goes_on { is_kept self.now.ends.deeds ≡ true → AreMixing F.File.Disk →
            (file other : List ℕ) → leaves_both self.now.ends.store.opened file other →
            GoesOnOver F.File.Disk self.now.ends.store.settings.items self.now.ends.deeds
            file other }
        // Amid a renewal too, whichever part of the next log stands in the other file: a start goes
        // on with this log, or with the next one if that is whole.
        ensures amid { is_kept self.now.ends.deeds ≡ true → AreMixing F.File.Disk →
            (state : State) (number : ℕ) (file other : List ℕ) →
            leaves_amid self.now.ends.store.opened number self.now.ends.store.settings.items
            (state_lines state) file other →
            GoesOnOver F.File.Disk self.now.ends.store.settings.items self.now.ends.deeds
            file other ⊎ GoesOnOver F.File.Disk self.now.ends.store.settings.items
            (Begun state ∷ self.now.ends.deeds) file other }
    {
        self.ends.survives();
    }

    /// The store begins a new log, as it does at a look when one is due, and the run ends there. So
    /// it says what a crash leaves in the middle: a crash at any moment is one at which some call
    /// of the disk is the first to fail. If the log isn't begun, a start over what is left of both
    /// files goes on with each link, and with this log or with the next one. If the files had to be
    /// opened anew, since one couldn't be read, nothing is said.
    pub fn stopped_amid_a_renewal(self, gateway: &Gateway) -> (bool, DiskStore<F>)
        ensures amid { is_kept self.ends.deeds ≡ true → result.0 ≡ false → AreMixing F.File.Disk →
            IsReadWell self.ends.store.opened → (file other : List ℕ) →
            leaves_behind result.1.opened file other →
            GoesOnOver F.File.Disk self.ends.store.settings.items self.ends.deeds file other
            ⊎ GoesOnOver F.File.Disk self.ends.store.settings.items
            (Begun gateway.now ∷ self.ends.deeds) file other }
    {
        self.survives();
        let Keeper { ends, .. } = self;
        let mut store = ends.into_store();
        let is_begun = store.begin(gateway);
        (is_begun, store)
    }
}

impl<E: Ends + Drop> Port for Keeper<E> {
    ghost use Rattle.state.specs.Keeping.{UnlookedFixture, unlooked_fixture};

    ghost log = { λ k. E.log k.ends };

    ghost failed = { λ k. E.failed k.ends + k.stops };

    ghost ended = { λ k. E.ended k.ends };

    ghost Fixed = { UnlookedFixture E.Fixed };

    /// What is fixed of the ends, whether a loss is borne, and the logs that were begun: none is
    /// begun but at a look.
    ghost script = { λ k. unlooked_fixture (E.script k.ends) k.bears_loss (E.deeds k.ends) };

    /// The event has been appended when it is passed on. When no event comes any more, all that
    /// came are on the disk.
    fn next(&mut self, buf: &mut [u8; 1024]) -> Next
        requires { E.failed self.old.ends + self.old.stops < u64.MAX }
        ensures logged { E.log self.new.ends
            ≡ with_news (E.log self.old.ends) (logged_by result buf.new) }
        ensures passes { passed (E.deeds self.new.ends)
            ≡ logged_by result buf.new ++ passed (E.deeds self.old.ends) }
        ensures fits { FitsBuffer result }
        ensures done { result ≡ Done → E.ended self.new.ends ≡ true }
        ensures script { unlooked_fixture (E.script self.new.ends) self.new.bears_loss
            (E.deeds self.new.ends)
            ≡ unlooked_fixture (E.script self.old.ends) self.old.bears_loss
            (E.deeds self.old.ends) }
        ensures cause { E.failed self.new.ends + self.new.stops
            ≡ E.failed self.old.ends + self.old.stops + faults_of result }
        ensures moment { self.new.patience ≡ record self.old.patience {
          moment = moment_after (logged_by result buf.new) self.old.patience.moment;
        } }
        // The port is asked unless the store has failed, and that isn't borne.
        ensures asks { is_stopped self.old.standing self.old.bears_loss ≡ false →
            self.new.stops ≡ self.old.stops }
        ensures stops { is_stopped self.old.standing self.old.bears_loss ≡ true →
            (result ≡ Fault) × (self.new ≡ record self.old { stops = self.old.stops + 1 }) }
        ensures left { self.new.bears_loss ≡ self.old.bears_loss }
        // When no event comes any more, as when the device has failed, no received one waits for
        // the disk: all are there, or the store has failed.
        ensures settled { logged_by result buf.new ≡ [] → IsAllOnDisk (E.deeds self.new.ends)
            ⊎ (is_some (loss_of (E.deeds self.new.ends)) ≡ true) }
    {
        if is_stopped(self.standing, self.bears_loss) {
            self.stops += 1;
            return Next::Fault;
        }
        let next = self.ends.next(buf);
        self.patience.receive(next);
        self.standing = keep(&mut self.ends, self.standing, next, buf);
        next
    }

    /// Whatever waits is synced first.
    fn put(&mut self, now: u64, action: &Action<'_>) -> bool
        requires { E.failed self.old.ends + self.old.stops < u64.MAX }
        ensures logged { E.log self.new.ends
            ≡ (if result then with_news (E.log self.old.ends) (Went now (output_of action.now) ∷ [])
            else E.log self.old.ends) }
        ensures passes { passed (E.deeds self.new.ends)
            ≡ (if result then Went now (output_of action.now) ∷ [] else [])
            ++ passed (E.deeds self.old.ends) }
        ensures script { unlooked_fixture (E.script self.new.ends) self.new.bears_loss
            (E.deeds self.new.ends)
            ≡ unlooked_fixture (E.script self.old.ends) self.old.bears_loss
            (E.deeds self.old.ends) }
        ensures cause { E.failed self.new.ends + self.new.stops
            ≡ E.failed self.old.ends + self.old.stops + (if result then 0 else 1) }
        ensures asks { is_stopped self.new.standing self.old.bears_loss ≡ false →
            self.new.stops ≡ self.old.stops }
        ensures left { (self.new.bears_loss ≡ self.old.bears_loss)
            × (self.new.patience ≡ self.old.patience) }
    {
        // Else a restart could repeat a command under a bit that is new to the station
        // (docs/DECISIONS.md, "Nothing goes out before the disk").
        self.standing = settle(&mut self.ends, self.standing);
        if is_stopped(self.standing, self.bears_loss) {
            self.stops += 1;
            return false;
        }
        self.ends.put(now, action)
    }

    fn failures(&self) -> u64 {
        self.ends.failures() + self.stops
    }
}

impl<E: Ends + Drop> Watched for Keeper<E> {
    ghost use Rattle.state.specs.Keeping.{HasTended, KeptFixture, failure_of, kept_fixture};
    ghost use Rattle.std.proofs.Common.{ap};

    ghost Lasting = { KeptFixture E.Fixed };

    /// Whether a loss is borne, and what is fixed of the ends.
    ghost lasting = { λ k. kept_fixture (E.script k.ends) k.bears_loss };

    ghost lasts = { λ one other same. ap (λ f. f.kept) same };

    ghost tends = { λ old state new notice. HasTended E.log E.deeds old state new notice };

    ghost failure = { λ k. failure_of k.stops (E.failure k.ends) };

    // Whatever of the ends isn't a failure is shown as they show it.
    ghost shows = { λ k sight. E.shows k.ends (record sight { failure = E.failure k.ends }) };

    /// A port that isn't asked any more hasn't failed: the store has.
    fn sight(&self) -> EndsSight
        ensures shows { E.shows self.now.ends
            (record result { failure = E.failure self.now.ends }) }
        ensures failure { result.failure ≡ failure_of self.now.stops (E.failure self.now.ends) }
        ensures failed { is_some result.failure
            ≡ nat_lt 0 (E.failed self.now.ends + self.now.stops) }
    {
        let sight = self.ends.sight();
        if self.stops == 0 {
            return sight;
        }
        EndsSight {
            failure: Some(Failure::State),
            ..sight
        }
    }

    fn tend(&mut self, gateway: &Gateway) -> Option<Notice> {
        self.look(gateway);
        self.notice()
    }
}
