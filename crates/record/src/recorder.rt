//! A port that records what passes it.
ghost use Rattle.std.specs.Option.{is_some};
ghost use Rattle.std.specs.Prelude.{◌≡◌, ◌+◌, ◌<◌, ◌∷◌, [], true, if◌then◌else◌, nat_lt};
ghost use Rattle.gateway.specs.Log.{Went, with_news};
ghost use Rattle.gateway.specs.Ports.{FitsBuffer, faults_of, output_of, logged_by};
ghost use Rattle.gateway.specs.declared.ports.Next.TheVariants.{Done};
ghost use Rattle.record.specs.Recording.{AreAgreed, Receives, IsKept, Puts, all_passed};
ghost use Rattle.record.specs.Recording.{recorded, recorded_fixture};

use crate::pen::Pen;
use crate::record_sheet::RecordSheet;
use gateway::{Action, Gateway, Next, Port};
use live::{EndsSight, Notice, Watched};
use std::marker::Model;

/// A port that passes each event and each action of another one on unchanged, and writes them down.
/// Once the record is over they pass unwritten. If the sheet says what it took and what it missed,
/// the log is what the record's text logs, and behind that what was missed: all of it behind what
/// passed in the lives in which the gateway came to be as it is.
#[derive(Drop)]
pub struct Recorder<P: Port + Drop, W: RecordSheet + Drop> {
    port: P,
    pen: Pen<W>,
}

impl<P: Port + Drop, W: RecordSheet + Drop> Model for Recorder<P, W> {
    ghost use Rattle.record.specs.Recording.{AreAgreed, Recorded};

    ghost Value = { Recorded P };

    ghost view = { λ r. record { port = r.port; pen = r.pen } };

    // What is written down is what passed.
    ghost invariant = { λ r. AreAgreed r.pen (P.log r.port) };
}

impl<P: Port + Drop, W: RecordSheet + Drop> Recorder<P, W> {
    /// One over this port. What the pen has written so far is what has passed there.
    pub fn new(port: P, pen: Pen<W>) -> Recorder<P, W>
        requires { AreAgreed pen (P.log port) }
        ensures { result ≡ recorded port pen }
    {
        Recorder { port, pen }
    }

    /// The record is over.
    pub fn is_over(&self) -> bool
        ensures over { result ≡ self.now.pen.is_over }
        ensures kept { IsKept self.now.pen }
    {
        self.pen.is_over()
    }
}

impl<P: Port + Drop, W: RecordSheet + Drop> Port for Recorder<P, W> {
    ghost use Rattle.record.specs.Recording.{RecordedFixture, all_passed, recorded_fixture};

    /// What it wrote down, if its sheet says that, or else the log of the port inside; behind the
    /// lives before.
    ghost log = { λ r. all_passed r.pen (P.log r.port) };

    ghost failed = { λ r. P.failed r.port };

    ghost ended = { λ r. P.ended r.port };

    ghost Fixed = { RecordedFixture P.Fixed };

    /// What is fixed of the port inside, what passed before, and whether a record was wished.
    ghost script = { λ r. recorded_fixture (P.script r.port) r.pen };

    /// The line of the event is given to the sheet, with those of the step before, and only then is
    /// the event passed on: whoever reads the record knows each event that an action came from.
    #[tactic(auto, using(crate::proofs::Receiving::receives))]
    fn next(&mut self, buf: &mut [u8; 1024]) -> Next
        requires { P.failed self.old.port < u64.MAX }
        ensures logged { all_passed self.new.pen (P.log self.new.port)
            ≡ with_news (all_passed self.old.pen (P.log self.old.port)) (logged_by result buf.new) }
        ensures fits { FitsBuffer result }
        ensures done { result ≡ Done → P.ended self.new.port ≡ true }
        ensures script { recorded_fixture (P.script self.new.port) self.new.pen
            ≡ recorded_fixture (P.script self.old.port) self.old.pen }
        ensures cause { P.failed self.new.port ≡ P.failed self.old.port + faults_of result }
        ensures receives { Receives self.old.pen result buf.new self.new.pen }
    {
        let next = self.port.next(buf);
        // If it were written behind the step, a kill could lose an event whose actions had gone out
        // (docs/DECISIONS.md, "An event's line comes first"). A tick too is written: the time of an
        // exchange or a selection may end by it alone (docs/DECISIONS.md, "Ticks are in").
        self.pen.note_event(next, buf);
        self.pen.give();
        next
    }

    fn put(&mut self, now: u64, action: &Action<'_>) -> bool
        requires { P.failed self.old.port < u64.MAX }
        ensures logged { all_passed self.new.pen (P.log self.new.port)
            ≡ (if result then with_news (all_passed self.old.pen (P.log self.old.port))
            (Went now (output_of action.now) ∷ [])
            else all_passed self.old.pen (P.log self.old.port)) }
        ensures script { recorded_fixture (P.script self.new.port) self.new.pen
            ≡ recorded_fixture (P.script self.old.port) self.old.pen }
        ensures cause { P.failed self.new.port
            ≡ P.failed self.old.port + (if result then 0 else 1) }
        ensures puts { Puts result self.old.pen
            (Went now (output_of action.now) ∷ []) self.new.pen }
    {
        let has_gone = self.port.put(now, action);
        if has_gone {
            self.pen.note_action(now, action);
        }
        has_gone
    }

    fn failures(&self) -> u64 {
        self.port.failures()
    }
}

impl<P: Watched + Drop, W: RecordSheet + Drop> Watched for Recorder<P, W> {
    ghost use Rattle.record.specs.Recording.{AreAgreed, RecordedFixture, recorded_fixture};
    ghost use Rattle.std.proofs.Common.{ap, ap₂};

    ghost tends = { λ old state new notice. P.tends old.port state new.port notice
        × (new.pen ≡ old.pen) × AreAgreed old.pen (P.log old.port) };

    ghost Lasting = { RecordedFixture P.Lasting };

    ghost lasting = { λ r. recorded_fixture (P.lasting r.port) r.pen };

    ghost lasts = { λ one other same.
        ap₂ (λ port f. record { port = port; before = f.before; is_wished = f.is_wished })
        (P.lasts one.port other.port (ap (λ f. f.port) same)) same };

    ghost failure = { λ r. P.failure r.port };

    ghost shows = { λ r sight. P.shows r.port sight };

    /// The ends are those of the port inside.
    fn sight(&self) -> EndsSight
        ensures shows { P.shows self.now.port result }
        ensures failure { result.failure ≡ P.failure self.now.port }
        ensures failed { is_some result.failure ≡ nat_lt 0 (P.failed self.now.port) }
    {
        self.port.sight()
    }

    /// Nothing of it is written down.
    fn tend(&mut self, gateway: &Gateway) -> Option<Notice> {
        self.port.tend(gateway)
    }
}
