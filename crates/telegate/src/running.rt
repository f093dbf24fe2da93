//! A run of the gateway over a port.
ghost use Rattle.std.specs.Prelude.{◌≡◌, ◌<◌, OnOk};
ghost use Rattle.std.specs.Option.{is_some};
ghost use Rattle.gateway.specs.Agrees.{Follows, Rests};
ghost use Rattle.gateway.specs.Reports.{Setup};
ghost use Rattle.gateway.specs.State.{State};
ghost use Rattle.record.specs.Recording.{AreAgreed, all_passed, recorded};
ghost use Rattle.runlog.specs.Logging.{book_fixture, logged_fixture};
ghost use Rattle.telegate.specs.Running.{HasEnded, HasRun, HasRunFaithfully, IsRecorded};
ghost use Rattle.telegate.specs.Turns.{HasServed, failure_in_life, log_in_life};
ghost use Rattle.telegate.specs.Turns.{script_in_life, shown_to, stands, tends_in_life};

use gateway::{End, Gateway, drive_on};
use live::{EndsSight, Watched};
use record::{Pen, RecordSheet, Recorder};
use runlog::{LogSink, Logger, RunLog};
use status::{Lookout, StreamSource};

/// A run has stopped: its line has ended, or its state can't be kept and that isn't borne.
#[derive(Clone, Copy)]
pub(crate) struct DeviceFailed;

/// What comes of a run beside its work: the log, the record, and how it stands, for who looks.
#[derive(Drop)]
pub(crate) struct Scribes<S: LogSink + Drop, W: RecordSheet + Drop, D: StreamSource + Drop> {
    pub(crate) logger: Logger<S>,
    pub(crate) pen: Pen<W>,
    /// None if there is no listener for who looks.
    pub(crate) lookout: Option<Lookout<D>>,
}

/// A run over a port that is over: the port, with what was logged and recorded, who looked at it,
/// if it was shown, and how it ended.
#[derive(Drop)]
pub(crate) struct Lived<
    P: Watched + Drop,
    W: RecordSheet + Drop,
    S: LogSink + Drop,
    D: StreamSource + Drop,
> {
    pub(crate) run_log: RunLog<Recorder<P, W>, S>,
    pub(crate) lookout: Option<Lookout<D>>,
    pub(crate) ended: Result<(), DeviceFailed>,
    /// How its ends stood then.
    pub(crate) sight: EndsSight,
}

/// Runs the gateway over a port until its device fails, or has no more events, or all turns that
/// can be counted are used up. Between two events the run_log, and the port, may look at the
/// gateway, and so may visitors. To these it is lent: whoever looks, every promise stays.
#[tactic(auto, using(crate::proofs::Turning::no_events_yet))]
fn serve<P: Watched + Drop, S: LogSink + Drop, D: StreamSource + Drop>(
    mut gateway: Gateway,
    run_log: &mut RunLog<P, S>,
    lookout: &mut Option<Lookout<D>>,
) -> Result<(), DeviceFailed>
    requires { P.failed run_log.old.port < u64.MAX }
    ensures device { HasRun (P.failed run_log.old.port) (P.failed run_log.new.port) result }
    // It ended well only after all of its events.
    ensures over { OnOk result (HasEnded (P.ended run_log.new.port) (P.log run_log.old.port)
        (P.log run_log.new.port)) }
    ensures lasting { logged_fixture (P.lasting run_log.new.port) run_log.new.logger
        ≡ logged_fixture (P.lasting run_log.old.port) run_log.old.logger }
    ensures looked { is_some lookout.new ≡ is_some lookout.old }
    // If the gateway begins with the state that the log so far leads to, what the log then shows
    // keeps every promise of a gateway with these settings.
    ensures faithful { (p : Setup) → Follows p gateway (P.log run_log.old.port) →
        Rests p (P.log run_log.old.port) →
        HasRunFaithfully p (P.log run_log.new.port) result }
    // Behind each event all look at the gateway before the next one comes.
    ensures served { (last : State) × HasServed P.log P.script P.tends P.failure
        (stands gateway run_log.old.port run_log.old.logger (shown_to lookout.old))
        (stands last run_log.new.port run_log.new.logger (shown_to lookout.new)) result }
{
    'turning: for _ in 0..u64::MAX {
        match drive_on(&mut gateway, run_log, 1) {
            End::Turns => {
                let notice = run_log.look(&gateway);
                if let Some(lookout) = lookout {
                    lookout.look(&gateway, run_log.logger().watch(), notice);
                }
            }
            End::Finished => {
                run_log.close(&gateway);
                return Ok(());
            }
            End::Device => {
                run_log.close(&gateway);
                return Err(DeviceFailed);
            }
        }
    }
    Ok(())
}

/// Runs the gateway over a port, behind the lives in which it came to be as it is.
pub(crate) fn live<
    P: Watched + Drop,
    W: RecordSheet + Drop,
    S: LogSink + Drop,
    D: StreamSource + Drop,
>(gateway: Gateway, port: P, scribes: Scribes<S, W, D>) -> Lived<P, W, S, D>
    requires few { P.failed port < u64.MAX }
    requires agreed { AreAgreed scribes.pen (P.log port) }
    ensures device { HasRun (P.failed port) (P.failed result.run_log.port.port) result.ended }
    ensures over { OnOk result.ended (HasEnded (P.ended result.run_log.port.port)
        (all_passed scribes.pen (P.log port))
        (all_passed result.run_log.port.pen (P.log result.run_log.port.port))) }
    ensures lasting { P.lasting result.run_log.port.port ≡ P.lasting port }
    // It was logged, recorded and shown to its end, if it was at its beginning.
    ensures logged { book_fixture result.run_log.logger ≡ book_fixture scribes.logger }
    ensures recorded { result.run_log.port.pen.is_wished ≡ scribes.pen.is_wished }
    ensures looked { is_some result.lookout ≡ is_some scribes.lookout }
    ensures before { result.run_log.port.pen.before ≡ scribes.pen.before }
    ensures shown { P.shows result.run_log.port.port result.sight }
    // Behind each event all look at the gateway before the next one comes: its port, the log, and
    // visitors.
    ensures served { (last : State) × HasServed (log_in_life P.log) (script_in_life P.script)
        (tends_in_life P.log P.tends) (failure_in_life P.failure)
        (stands gateway (recorded port scribes.pen) scribes.logger (shown_to scribes.lookout))
        (stands last result.run_log.port
        result.run_log.logger (shown_to result.lookout)) result.ended }
    // If the gateway begins with the state that all that passed before leads to, what has passed
    // then keeps every promise of a gateway with these settings.
    ensures faithful { (p : Setup) → Follows p gateway (all_passed scribes.pen (P.log port)) →
        Rests p (all_passed scribes.pen (P.log port)) →
        HasRunFaithfully p (all_passed result.run_log.port.pen
        (P.log result.run_log.port.port)) result.ended }
    // And so does what is written of it.
    ensures text { (p : Setup) → Follows p gateway (all_passed scribes.pen (P.log port)) →
        Rests p (all_passed scribes.pen (P.log port)) →
        IsRecorded p result.run_log.port.pen result.ended }
{
    let mut run_log = RunLog::new(Recorder::new(port, scribes.pen), scribes.logger);
    let mut lookout = scribes.lookout;
    let ended = serve(gateway, &mut run_log, &mut lookout);
    let _is_over = run_log.port().is_over();
    let sight = run_log.port().sight();
    Lived {
        run_log,
        lookout,
        ended,
        sight,
    }
}
