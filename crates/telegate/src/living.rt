//! The command that runs the gateway between a line and a control centre.
ghost use Rattle.std.specs.Prelude.{◌≡◌, ◌⊎◌, ◌+◌, IfOk, IfErr, Some, None, Option, is_some, []};
ghost use Rattle.std.specs.Prelude.{false, map, not, true, ◌∷◌};
ghost use Rattle.std.specs.declared.net.socket_addr.SocketAddr.{SocketAddr};
ghost use Rattle.gateway.specs.Agrees.{Follows};
ghost use Rattle.gateway.specs.Setups.{setup_of};
ghost use Rattle.live.specs.OctetStreams.{IsNew};
ghost use Rattle.live.specs.Passed.{HasNoAttempts};
ghost use Rattle.record.specs.Recording.{log_of, logged_first};
ghost use Rattle.runlog.specs.Logging.{book_fixture};
ghost use Rattle.state.specs.Origins as origins;
ghost use Rattle.state.specs.Standings.{Renews};
ghost use Rattle.state.specs.declared.beginning.Origin.{Origin};
ghost use Rattle.state.specs.declared.start.Beginning.TheVariants as beginning;
ghost use Rattle.telegate.specs.AsWished.{IsAsWished};
ghost use Rattle.telegate.specs.Asked.{RecordAt, StateIn, StatusAt, UnclockedIfErr, asked_for};
ghost use Rattle.telegate.specs.Asked.{call_if, ends_asked, listen_asked, scribes_asked};
ghost use Rattle.state.specs.StartNotes.{note_of_given_up};
ghost use Rattle.telegate.specs.Kept.{HasLivedFrom, HasLivedOn, IsEndFault, IsKeptFault};
ghost use Rattle.telegate.specs.Kept.{first_moment};
ghost use Rattle.telegate.specs.Law.{LogsAll};
ghost use Rattle.telegate.specs.Living.{HasLived, IsPortOf};
ghost use Rattle.telegate.specs.Ran.{HasComeAt, HasLivedAs, IfOver, answer_to};
ghost use Rattle.telegate.specs.Running.{HasRun, IsReadLiveConfig};
ghost use Rattle.telegate.specs.Served.{HasServedAnew, HasServedOn};
ghost use Rattle.telegate.specs.Starts.{IsWithout, StartsIn};
ghost use Rattle.telegate.specs.Turns.{shown_to};
ghost use Rattle.telegate.specs.declared.fault.RunFault.TheVariants as run_fault;
ghost use Rattle.telegate.specs.Logged.{IsRefused, IsUnkept, LogsNoteIf, LogsBeginning, LogsGap};
ghost use Rattle.telegate.specs.Logged.{LogsStart, LogsWithout, note_if_on, note_of_address};

use crate::fault::{Fault, RunFault};
use crate::help::VERSION;
use crate::host::Wishes;
use crate::place::Place;
use crate::running::{DeviceFailed, Lived, Scribes, live};
use crate::site::{EndRefusal, RunSite};
use gateway::{Action, Config, Gateway, History, NoMemory};
use live::{AllowList, Listener, Live, OctetStream};
use record::{Pen, RecordSheet};
use runlog::{LogSink, Logger, Note, Obstacle, Trouble, Watch};
use settings::{ConfigFault, LiveSettings, read_live_config};
use state::{
    Beginning, Begun, DiskStore, Folder, FolderFault, GivenUp, Keeper, Origin, Pair, ReportedGap,
    begin, note_of, note_of_damage, note_of_given_up, note_of_queue, note_of_settings,
};
use status::Lookout;
use std::alloc::Global;
use std::net::SocketAddr;

/// The settings of a file for a live run.
pub(crate) fn read_live(alloc: Global, config: &[u8]) -> Result<(Config, LiveSettings), Fault>
    ensures { IsReadLiveConfig config.now result }
{
    match read_live_config(alloc, config) {
        Ok(both) => Ok(both),
        Err(ConfigFault::NoMemory) => Err(Fault::NoMemory),
        Err(fault) => Err(Fault::Config(fault)),
    }
}

/// What logs a run, if it is to be logged, records it, if it is to be recorded, and shows it, if it
/// is to be shown.
#[tactic(auto, using(crate::proofs::KeptLemmas::memory_is_end, crate::proofs::KeptLemmas::still_unclocked))]
fn scribes_of<T: RunSite>(
    site: &mut T,
    config: &Config,
    wishes: &Wishes<'_>,
) -> Result<Scribes<T::Sink, T::Sheet, T::Glass>, RunFault>
    ensures new { IfOk result (λ scribes.
        logged_first (log_of scribes.pen) (Some []) ≡ Some []) }
    ensures first { IfOk result (λ scribes. scribes.pen.before ≡ []) }
    ensures logs { IfOk result (λ scribes. scribes.logger.is_over ≡ not wishes.now.log) }
    ensures records { IfOk result (λ scribes. scribes.pen.is_over ≡ not wishes.now.record) }
    ensures wished { IfOk result (λ scribes.
        IsAsWished wishes.now scribes.logger scribes.pen (is_some scribes.lookout)) }
    ensures asked { IfOk result (λ _. T.asked site.new
        ≡ scribes_asked wishes.now.status (T.asked site.old)) }
    ensures none { UnclockedIfErr result (T.asked site.old) (T.asked site.new) }
    ensures fault { IfErr result IsEndFault }
{
    let watch = Watch::new(site.alloc(), config)?;
    let mut logger = Logger::new(watch, site.sink(), wishes.log);
    let lookout = lookout_of(site, config, wishes, &mut logger)?;
    if lookout.is_some() {
        logger = logger.watching();
    }
    Ok(Scribes {
        logger,
        pen: pen_of(site, wishes.record),
        lookout,
    })
}

/// Who looks at a run, if there is to be a listener for it.
#[tactic(auto, using(crate::proofs::KeptLemmas::still_unclocked))]
fn lookout_of<T: RunSite>(
    site: &mut T,
    config: &Config,
    wishes: &Wishes<'_>,
    logger: &mut Logger<T::Sink>,
) -> Result<Option<Lookout<T::Glass>>, RunFault>
    ensures shows { IfOk result (λ lookout. is_some lookout ≡ is_some wishes.now.status) }
    ensures quiet { IfOk result (λ _. logger.new ≡ logger.old) }
    ensures asked { IfOk result (λ _. T.asked site.new
        ≡ asked_for (call_if StatusAt wishes.now.status) (T.asked site.old)) }
    ensures none { UnclockedIfErr result (T.asked site.old) (T.asked site.new) }
    ensures fault { IfErr result IsEndFault }
{
    let Some(place) = wishes.status else {
        return Ok(None);
    };
    let listener = match site.status_listener(place) {
        Ok(listener) => listener,
        Err(refusal) => return Err(refused(refusal, logger)),
    };
    let keeps = wishes.state.is_some();
    let lookout = Lookout::new(site.alloc(), config, site.names(), VERSION, keeps, listener)?;
    Ok(Some(lookout))
}

/// What writes the record of a run, if it is to have one.
#[tactic(auto, using(crate::proofs::Begins::new_is_written, crate::proofs::Begins::added_nothing, crate::proofs::Begins::new_has_nothing))]
fn pen_of<T: RunSite>(site: &mut T, is_recorded: bool) -> Pen<T::Sheet>
    ensures new { logged_first (log_of result) (Some []) ≡ Some [] }
    ensures first { result.before ≡ [] }
    ensures records { result.is_over ≡ not is_recorded }
    ensures wished { result.is_wished ≡ is_recorded }
    ensures asked { T.asked site.new ≡ asked_for (RecordAt ∷ []) (T.asked site.old) }
{
    if is_recorded {
        // Anew behind a restart too: a run goes on from its state, which is synced, and a record
        // isn't (docs/DECISIONS.md, "A record isn't gone on with").
        Pen::new(site.alloc(), site.sheet(), Vec::new(site.alloc()))
    } else {
        Pen::idle(site.alloc(), site.sheet())
    }
}

/// The ends of a live run.
#[derive(Drop)]
struct RunEnds<S: OctetStream, L: Listener + Drop, C: live::RunClock + Drop> {
    line: S,
    listener: L,
    clock: C,
}

/// The ends that are wished, opened in this order: the listener, the line, and the clock, which
/// begins at this moment, in ms. A second process that is started by mistake ends at the listener,
/// and leaves the line of the first alone.
fn opened<T: RunSite>(
    site: &mut T,
    wishes: &Wishes<'_>,
    moment: u64,
    logger: &mut Logger<T::Sink>,
) -> Result<RunEnds<T::Line, T::Listener, T::Clock>, RunFault>
    ensures clock { IfOk result (λ ends. T.begins_at ends.clock moment) }
    ensures new { IfOk result (λ ends. IsNew (T.Line.history ends.line)) }
    ensures unasked { IfOk result (λ ends. HasNoAttempts (T.Listener.attempts ends.listener)) }
    ensures asked { IfOk result (λ _. T.asked site.new
        ≡ ends_asked wishes.now.redial moment (T.asked site.old)) }
    ensures none { UnclockedIfErr result (T.asked site.old) (T.asked site.new) }
    ensures fixed { book_fixture logger.new ≡ book_fixture logger.old }
    ensures fault { IfErr result IsEndFault }
{
    // First, so that a second run by mistake takes nothing from the first (docs/DECISIONS.md, "The
    // listener before the line").
    let listener = listener_of(site, logger)?;
    let line = match site.line(wishes.redial) {
        Ok(line) => line,
        Err(refusal) => return Err(refused(refusal, logger)),
    };
    match site.clock(moment) {
        Ok(clock) => Ok(RunEnds {
            line,
            listener,
            clock,
        }),
        Err(refusal) => Err(refused(refusal, logger)),
    }
}

/// The listener, opened. Its address is logged, if that is known.
fn listener_of<T: RunSite>(
    site: &mut T,
    logger: &mut Logger<T::Sink>,
) -> Result<T::Listener, RunFault>
    ensures logged { IfOk result (λ _. (address : Option SocketAddr)
        × LogsNoteIf (note_of_address address) logger.old logger.new) }
    ensures unasked { IfOk result (λ listener. HasNoAttempts (T.Listener.attempts listener)) }
    ensures refused { IfErr result (λ fault. IsRefused fault logger.old logger.new) }
    ensures asked { IfOk result (λ _. T.asked site.new ≡ listen_asked true (T.asked site.old)) }
    ensures none { UnclockedIfErr result (T.asked site.old) (T.asked site.new) }
    ensures fixed { book_fixture logger.new ≡ book_fixture logger.old }
    ensures fault { IfErr result IsEndFault }
{
    match site.listener() {
        Ok((listener, address)) => {
            log(note_of_address(address), logger);
            Ok(listener)
        }
        Err(refusal) => Err(refused(refusal, logger)),
    }
}

/// What is logged of where it listens, if that is known.
fn note_of_address(address: Option<SocketAddr>) -> Option<Note>
    ensures { result ≡ note_of_address address }
{
    match address {
        Some(address) => Some(Note::Listening(address)),
        None => None,
    }
}

/// Logs this, if there is anything to log.
fn log<S: LogSink + Drop>(note: Option<Note>, logger: &mut Logger<S>)
    ensures logs { LogsNoteIf note logger.old logger.new }
    ensures fixed { book_fixture logger.new ≡ book_fixture logger.old }
{
    if let Some(note) = note {
        logger.note(note);
    }
}

/// An end can't be had, which is logged.
#[tactic(auto, using(crate::proofs::KeptLemmas::refused_is_end))]
fn refused<S: LogSink + Drop>(refusal: EndRefusal, logger: &mut Logger<S>) -> RunFault
    ensures refused { IsRefused result logger.old logger.new }
    ensures fixed { book_fixture logger.new ≡ book_fixture logger.old }
    ensures fault { IsEndFault result }
{
    logger.note(Note::Trouble(refusal.trouble));
    RunFault::from(refusal)
}

/// The port of a run between these ends. In one that goes on after a restart the connection of then
/// is cut first.
fn port_between<S: OctetStream, L: Listener + Drop, C: live::RunClock + Drop>(
    config: &Config,
    ends: RunEnds<S, L, C>,
    allow_list: AllowList,
    goes_on: bool,
) -> Live<S, L, C>
    requires new { IsNew (S.history ends.line) }
    requires unasked { HasNoAttempts (L.attempts ends.listener) }
    ensures port { IsPortOf config.now allow_list goes_on result }
    ensures cut { result.is_cut_due ≡ goes_on }
    ensures log { result.log ≡ [] }
    ensures failed { result.failed ≡ 0 }
{
    let port = Live::new(ends.line, ends.listener, ends.clock, allow_list, config);
    if goes_on { port.cut_first() } else { port }
}

/// A live run that is over: one that began anew, or one whose state is kept.
#[derive(Drop)]
pub(crate) enum Over<A: Drop, K: Drop> {
    /// It began anew.
    Anew(A),
    /// Its state is kept.
    Kept(K),
}

/// A live run at this site that is over.
pub(crate) type RunOver<T> = Over<
    Lived<
        Live<<T as RunSite>::Line, <T as RunSite>::Listener, <T as RunSite>::Clock>,
        <T as RunSite>::Sheet,
        <T as RunSite>::Sink,
        <T as RunSite>::Glass,
    >,
    Lived<Kept<T>, <T as RunSite>::Sheet, <T as RunSite>::Sink, <T as RunSite>::Glass>,
>;

/// Runs the gateway live with these settings, which were read from this text, and answers what is
/// left of that. An `Err` says why it didn't begin.
#[tactic(auto, using(crate::proofs::KeptLemmas::end_is_kept, crate::proofs::KeptLemmas::still_unclocked))]
pub(crate) fn run_at<T: RunSite>(
    site: &mut T,
    config: &Config,
    text: &[u8],
    wishes: Wishes<'_>,
) -> Result<RunOver<T>, RunFault>
    requires severity { T.severe site.old ≡ wishes.log_severity }
    // A run as wished lived, and so it ended. If its state is kept, all looked behind each event
    // before the next one came.
    ensures lived { IfOk result (λ over. IfOver over
        (λ anew. HasLivedAs
        (StartsIn T.Folder.File.Disk wishes.entry config.now (T.asked site.old).lineage)
        config.now wishes.entry (T.asked site.old) (T.asked site.new) (record {
          port = anew.run_log.port.port;
          pen = anew.run_log.port.pen;
          book = anew.run_log.logger;
          is_shown = is_some anew.lookout;
          bears_loss = None;
          stops = 0;
        }) anew.ended)
        (λ kept. HasLivedAs (λ origin.
        StartsIn T.Folder.File.Disk wishes.entry config.now (T.asked site.old).lineage origin
        × HasServedOn origin kept.run_log.port
        kept.run_log.logger (shown_to kept.lookout) kept.ended)
        config.now wishes.entry (T.asked site.old) (T.asked site.new) (record {
          port = kept.run_log.port.port.ends.port;
          pen = kept.run_log.port.pen;
          book = kept.run_log.logger;
          is_shown = is_some kept.lookout;
          bears_loss = Some kept.run_log.port.port.bears_loss;
          stops = kept.run_log.port.port.stops;
        }) kept.ended)) }
    // So did those of a run that began anew.
    ensures served { IfOk result (λ over. IfOver over
        (λ anew. HasServedAnew config.now
        anew.run_log.port anew.run_log.logger
        (shown_to anew.lookout) anew.ended) (λ _. Unit {0})) }
    // Without a clock nothing has run.
    ensures none { UnclockedIfErr result (T.asked site.old) (T.asked site.new) }
    ensures fault { IfErr result IsKeptFault }
{
    match wishes.state {
        None => Ok(Over::Anew(run_anew(site, config, wishes)?)),
        Some(directory) => Ok(Over::Kept(run_kept(site, config, text, directory, wishes)?)),
    }
}

/// How a run ended that is over.
fn ended_of<T: RunSite>(over: &RunOver<T>) -> Result<(), DeviceFailed>
    ensures { IfOver over.now (λ anew. result ≡ anew.ended) (λ kept. result ≡ kept.ended) }
{
    match over {
        Over::Anew(run) => run.ended,
        Over::Kept(run) => run.ended,
    }
}

/// What is answered of a run that has ended so.
fn answer_to(ended: Result<(), DeviceFailed>) -> Result<(), RunFault>
    ensures { result ≡ answer_to ended }
{
    match ended {
        Ok(()) => Ok(()),
        Err(DeviceFailed) => Err(RunFault::Device),
    }
}

/// Runs the gateway live with these settings, which were read from this text, until it ends, and
/// lets its ends go.
pub(crate) fn run_out<T: RunSite>(
    site: &mut T,
    config: &Config,
    text: &[u8],
    wishes: Wishes<'_>,
) -> Result<(), RunFault>
    requires severity { T.severe site.old ≡ wishes.log_severity }
    ensures { HasComeAt (StartsIn T.Folder.File.Disk wishes.entry config.now
        (T.asked site.old).lineage) config.now wishes.entry (T.asked site.old)
        (T.asked site.new) result }
{
    match run_at(site, config, text, wishes) {
        Ok(over) => answer_to(ended_of::<T>(&over)),
        Err(fault) => Err(fault),
    }
}

/// Runs the gateway anew, without a state on the disk.
#[tactic(auto, using(crate::proofs::KeptLemmas::memory_is_end, crate::proofs::KeptLemmas::still_unclocked))]
fn run_anew<T: RunSite>(
    site: &mut T,
    config: &Config,
    wishes: Wishes<'_>,
) -> Result<Lived<Live<T::Line, T::Listener, T::Clock>, T::Sheet, T::Sink, T::Glass>, RunFault>
    ensures lived { IfOk result (λ lived. HasLived config.now wishes.entry.allow_list false
        lived.run_log.port.port lived.run_log.port.pen lived.ended) }
    ensures device { IfOk result (λ lived. HasRun 0 lived.run_log.port.port.failed
        lived.ended) }
    ensures before { IfOk result (λ lived. lived.run_log.port.pen.before ≡ []) }
    ensures served { IfOk result (λ lived. HasServedAnew config.now
        lived.run_log.port lived.run_log.logger
        (shown_to lived.lookout) lived.ended) }
    ensures wished { IfOk result (λ lived. IsAsWished wishes.entry lived.run_log.logger
        lived.run_log.port.pen (is_some lived.lookout)) }
    ensures asked { IfOk result (λ _. T.asked site.new
        ≡ ends_asked wishes.entry.redial 0 (scribes_asked wishes.entry.status (T.asked site.old))) }
    ensures none { UnclockedIfErr result (T.asked site.old) (T.asked site.new) }
    ensures fault { IfErr result IsEndFault }
{
    let gateway = Gateway::new(site.alloc(), config)?;
    let mut scribes = scribes_of(site, config, &wishes)?;
    let ends = opened(site, &wishes, 0, &mut scribes.logger)?;
    Ok(run_new(site, config, gateway, ends, wishes.allow_list, scribes))
}

/// Runs a new gateway between these ends, whose clock begins at 0.
#[tactic(auto, using(crate::proofs::RunPorts::port_of_run, crate::proofs::RunLemmas::ran_whole))]
fn run_new<T: RunSite>(
    _site: &T,
    config: &Config,
    gateway: Gateway,
    ends: RunEnds<T::Line, T::Listener, T::Clock>,
    allow_list: AllowList,
    scribes: Scribes<T::Sink, T::Sheet, T::Glass>,
) -> Lived<Live<T::Line, T::Listener, T::Clock>, T::Sheet, T::Sink, T::Glass>
    requires new { logged_first (log_of scribes.pen) (Some []) ≡ Some [] }
    requires first { scribes.pen.before ≡ [] }
    requires begins { Follows (setup_of config.now) gateway (Some []) }
    requires clock { T.begins_at ends.clock 0 }
    requires line { IsNew (T.Line.history ends.line) }
    requires listener { HasNoAttempts (T.Listener.attempts ends.listener) }
    ensures lived { HasLived config.now allow_list false result.run_log.port.port
        result.run_log.port.pen result.ended }
    ensures device { HasRun 0 result.run_log.port.port.failed result.ended }
    ensures before { result.run_log.port.pen.before ≡ [] }
    ensures served { HasServedAnew config.now
        result.run_log.port result.run_log.logger
        (shown_to result.lookout) result.ended }
    ensures logged { book_fixture result.run_log.logger ≡ book_fixture scribes.logger }
    ensures recorded { result.run_log.port.pen.is_wished ≡ scribes.pen.is_wished }
    ensures looked { is_some result.lookout ≡ is_some scribes.lookout }
{
    let port = port_between(config, ends, allow_list, false);
    live(gateway, port, scribes)
}

/// A port between the ends of a site, whose events are kept in a directory of it.
pub(crate) type Kept<T> = Keeper<
    Pair<
        Live<<T as RunSite>::Line, <T as RunSite>::Listener, <T as RunSite>::Clock>,
        DiskStore<Place<<T as RunSite>::Folder>>,
    >,
>;

/// The port of a run between these ends, whose events are kept in this store. A loss is borne as
/// wished.
fn keeper_between<T: RunSite>(
    site: &T,
    config: &Config,
    ends: RunEnds<T::Line, T::Listener, T::Clock>,
    goes_on: bool,
    store: DiskStore<Place<T::Folder>>,
    gateway: &Gateway,
    wishes: Wishes<'_>,
) -> Kept<T>
    requires new { IsNew (T.Line.history ends.line) }
    requires unasked { HasNoAttempts (T.Listener.attempts ends.listener) }
    ensures bears { result.bears_loss ≡ wishes.entry.bears_loss }
    ensures port { IsPortOf config.now wishes.entry.allow_list goes_on result.ends.port }
    ensures log { result.ends.port.log ≡ [] }
    ensures failed { result.ends.port.failed + result.stops ≡ 0 }
    ensures begun { Renews [] gateway.now result.ends.deeds }
{
    let port = port_between(config, ends, wishes.allow_list, goes_on);
    Keeper::new(
        Pair::new(site.alloc(), port, store),
        gateway,
        wishes.bears_loss,
    )
}

/// Runs the gateway with the state that this directory has, or anew, and keeps it there. If the
/// directory can't be used, and that is borne, it may run without a state.
#[tactic(auto, using(crate::proofs::KeptLemmas::end_is_kept, crate::proofs::KeptLemmas::unkept_is_kept, crate::proofs::KeptLemmas::still_unclocked))]
fn run_kept<T: RunSite>(
    site: &mut T,
    config: &Config,
    text: &[u8],
    directory: &str,
    wishes: Wishes<'_>,
) -> Result<Lived<Kept<T>, T::Sheet, T::Sink, T::Glass>, RunFault>
    // It began so, went on from there, and all looked behind each of its events.
    ensures lived { IfOk result (λ lived. HasLivedFrom (λ origin.
        StartsIn T.Folder.File.Disk wishes.entry config.now (T.asked site.old).lineage origin
        × HasServedOn origin lived.run_log.port
        lived.run_log.logger (shown_to lived.lookout) lived.ended) config.now
        wishes.entry.allow_list
        (λ moment. T.asked site.new
        ≡ ends_asked wishes.entry.redial moment (asked_for (StateIn directory.now true ∷ [])
        (scribes_asked wishes.entry.status (T.asked site.old))))
        lived.run_log.port.port.ends.port lived.run_log.port.pen lived.ended) }
    ensures wished { IfOk result (λ lived. IsAsWished wishes.entry lived.run_log.logger
        lived.run_log.port.pen (is_some lived.lookout)) }
    ensures device { IfOk result (λ lived. HasRun 0
        (lived.run_log.port.port.ends.port.failed + lived.run_log.port.port.stops)
        lived.ended) }
    // It bore the loss of its state where that was wished.
    ensures bears { IfOk result (λ lived.
        lived.run_log.port.port.bears_loss ≡ wishes.entry.bears_loss) }
    ensures none { UnclockedIfErr result (T.asked site.old) (T.asked site.new) }
    ensures fault { IfErr result IsKeptFault }
{
    let mut scribes = scribes_of(site, config, &wishes)?;
    let begun = begun_in(site, config, text, directory, &wishes, &mut scribes.logger)?;
    log_mount(site, directory, &mut scribes.logger);
    let moment = first_moment(begun.origin.moment);
    let ends = opened(site, &wishes, moment, &mut scribes.logger)?;
    begin_record(&begun.origin, &mut scribes.pen);
    Ok(run_from(site, config, begun, ends, wishes, scribes))
}

/// Logs if the directory of the state stands on btrfs.
fn log_mount<T: RunSite>(site: &T, directory: &str, logger: &mut Logger<T::Sink>)
    ensures { book_fixture logger.new ≡ book_fixture logger.old }
{
    if site.is_on_btrfs(directory) {
        logger.note(Note::StateOnBtrfs);
    }
}

/// A run comes behind the lives that led to its gateway. The record of one that goes on says first
/// with which state it does, for its audit.
fn begin_record<W: RecordSheet + Drop>(origin: &Origin, pen: &mut Pen<W>)
    ensures { pen.new ≡ record pen.old { before = origin.now.before.entries } }
{
    pen.come_behind(origin.before.again());
    if origin.moment.is_some() {
        pen.begin_with(&origin.gateway);
    }
}

/// The moment at which the clock begins, in ms.
fn first_moment(moment: Option<u64>) -> u64
    ensures { result ≡ first_moment moment }
{
    moment.unwrap_or(0)
}

/// Runs the gateway between these ends from where a run begins, and keeps its state. Their clock
/// goes on where the gateway does.
#[tactic(auto, using(crate::proofs::RunPorts::port_of_run, crate::proofs::RunLemmas::ran_whole))]
fn run_from<T: RunSite>(
    site: &T,
    config: &Config,
    begun: Begun<Place<T::Folder>>,
    ends: RunEnds<T::Line, T::Listener, T::Clock>,
    wishes: Wishes<'_>,
    scribes: Scribes<T::Sink, T::Sheet, T::Glass>,
) -> Lived<Kept<T>, T::Sheet, T::Sink, T::Glass>
    requires new { logged_first (log_of scribes.pen) (Some []) ≡ Some [] }
    requires behind { scribes.pen.before ≡ begun.origin.before.entries }
    requires clock { T.begins_at ends.clock (first_moment begun.origin.moment) }
    requires line { IsNew (T.Line.history ends.line) }
    requires listener { HasNoAttempts (T.Listener.attempts ends.listener) }
    ensures lived { HasLivedOn config.now wishes.entry.allow_list begun.origin
        result.run_log.port.port.ends.port result.run_log.port.pen result.ended }
    ensures device { HasRun 0 (result.run_log.port.port.ends.port.failed
        + result.run_log.port.port.stops) result.ended }
    ensures logged { book_fixture result.run_log.logger ≡ book_fixture scribes.logger }
    ensures recorded { result.run_log.port.pen.is_wished ≡ scribes.pen.is_wished }
    ensures looked { is_some result.lookout ≡ is_some scribes.lookout }
    ensures bears { result.run_log.port.port.bears_loss ≡ wishes.entry.bears_loss }
    ensures served { HasServedOn begun.origin
        result.run_log.port result.run_log.logger
        (shown_to result.lookout) result.ended }
{
    let Begun { origin, store } = begun;
    let Origin {
        gateway,
        moment,
        ..
    } = origin;
    let goes_on = moment.is_some();
    let keeper = keeper_between(site, config, ends, goes_on, store, &gateway, wishes);
    live(gateway, keeper, scribes)
}

/// What this directory has, or a new state, or none if the directory can't be used. It is logged.
#[tactic(auto, using(crate::proofs::KeptLemmas::found_in, crate::proofs::KeptLemmas::without_in, crate::proofs::KeptLemmas::logs_found, crate::proofs::KeptLemmas::logs_unused, crate::proofs::KeptLemmas::memory_is_unkept, crate::proofs::KeptLemmas::still_unclocked))]
fn begun_in<T: RunSite>(
    site: &mut T,
    config: &Config,
    text: &[u8],
    directory: &str,
    wishes: &Wishes<'_>,
    logger: &mut Logger<T::Sink>,
) -> Result<Begun<Place<T::Folder>>, RunFault>
    ensures starts { IfOk result (λ b. StartsIn T.Folder.File.Disk wishes.now config.now
        (T.asked site.old).lineage b.origin) }
    ensures settings { IfOk result (λ b. b.store.settings.items ≡ text.now) }
    ensures logged { IfOk result (λ b.
        LogsStart (T.is_marked site.new) b.origin logger.old logger.new) }
    ensures fixed { IfOk result (λ _. book_fixture logger.new ≡ book_fixture logger.old) }
    ensures unkept { IfErr result (λ fault. IsUnkept fault logger.old logger.new) }
    ensures asked { IfOk result (λ _. T.asked site.new
        ≡ asked_for (StateIn directory.now true ∷ []) (T.asked site.old)) }
    ensures none { UnclockedIfErr result (T.asked site.old) (T.asked site.new) }
{
    let folder = site.folder(directory)?;
    match begin(site.alloc(), config, text, Place::In(folder)) {
        Ok(begun) => {
            log_beginning(&begun.origin, logger);
            Ok(begun)
        }
        Err(fault) => match begun_without(site, config, text, fault, wishes, logger) {
            Ok(begun) => Ok(begun),
            Err(fault) => Err(fault),
        },
    }
}

/// The directory of the state can't be used. A run that begins without it has a store that never
/// begins a log.
#[tactic(auto, using(crate::proofs::KeptLemmas::memory_is_unkept))]
fn begun_without<T: RunSite>(
    site: &mut T,
    config: &Config,
    text: &[u8],
    fault: FolderFault,
    wishes: &Wishes<'_>,
    logger: &mut Logger<T::Sink>,
) -> Result<Begun<Place<T::Folder>>, RunFault>
    ensures without { IfOk result (λ b. IsWithout wishes.now config.now b.origin) }
    ensures settings { IfOk result (λ b. b.store.settings.items ≡ text.now) }
    ensures marked { IfOk result (λ _. T.is_marked site.new) }
    ensures logged { IfOk result (λ _. LogsWithout logger.old logger.new) }
    ensures fixed { IfOk result (λ _. book_fixture logger.new ≡ book_fixture logger.old) }
    ensures unkept { IfErr result (λ fault. IsUnkept fault logger.old logger.new) }
    ensures asked { T.asked site.new ≡ T.asked site.old }
{
    let alloc = site.alloc();
    let settings = Vec::from_slice(alloc, text)?;
    match origin_without(site, config, fault, wishes, logger) {
        Ok(origin) => Ok(Begun {
            origin,
            store: DiskStore::new(alloc, Place::Nowhere, settings, 1),
        }),
        Err(fault) => Err(fault),
    }
}

/// The directory of the state can't be used. If that is borne, and what stands there is marked as
/// stale beside it, the run begins without it. Either is logged.
#[tactic(auto, using(crate::proofs::KeptLemmas::memory_is_unkept))]
fn origin_without<T: RunSite>(
    site: &mut T,
    config: &Config,
    fault: FolderFault,
    wishes: &Wishes<'_>,
    logger: &mut Logger<T::Sink>,
) -> Result<Origin, RunFault>
    ensures without { IfOk result (IsWithout wishes.now config.now) }
    ensures marked { IfOk result (λ _. T.is_marked site.new) }
    ensures logged { IfOk result (λ _. LogsWithout logger.old logger.new) }
    ensures fixed { IfOk result (λ _. book_fixture logger.new ≡ book_fixture logger.old) }
    ensures unkept { IfErr result (λ fault. IsUnkept fault logger.old logger.new) }
    ensures asked { T.asked site.new ≡ T.asked site.old }
{
    let obstacle = match fault {
        FolderFault::Unusable(place, cause) => Obstacle { place, cause },
        FolderFault::InUse => {
            logger.note(Note::Trouble(Trouble::StateInUse));
            return Err(RunFault::StateInUse);
        }
        FolderFault::NoMemory => return Err(RunFault::NoMemory),
    };
    // Else a later start would take what stands there for what came last (docs/DECISIONS.md, "A
    // disk that fails").
    if !wishes.bears_loss || !site.mark_beside() {
        return Err(refuse(obstacle, logger));
    }
    let origin = new_origin(site.alloc(), config)?;
    logger.note(Note::StateRefused(obstacle));
    Ok(origin)
}

/// The state can't be kept, and the run doesn't begin without it, which is logged.
fn refuse<S: LogSink + Drop>(obstacle: Obstacle, logger: &mut Logger<S>) -> RunFault
    ensures unkept { IsUnkept result logger.old logger.new }
    ensures cause { result ≡ run_fault.StateUnusable obstacle.cause }
{
    logger.note(Note::StateUnkept(obstacle));
    RunFault::StateUnusable(obstacle.cause)
}

/// With what a run begins that has no state.
fn new_origin(alloc: Global, config: &Config) -> Result<Origin, NoMemory>
    ensures new { IfOk result (origins.IsNew config.now) }
    ensures anew { IfOk result (λ origin. origin.beginning ≡ beginning.Anew) }
    ensures moment { IfOk result (λ origin. origin.moment ≡ None) }
{
    Ok(Origin {
        gateway: Gateway::new(alloc, config)?,
        moment: None,
        beginning: Beginning::Anew,
        gap: None,
        damage: None,
        given_up: Vec::new(alloc),
        before: History::new(),
        is_moved: false,
    })
}

/// What is logged of the pieces with which a run goes on, if it does.
fn note_if_on(moment: Option<u64>, gateway: &Gateway) -> Option<Note>
    ensures { result ≡ note_if_on moment gateway.now }
{
    match moment {
        Some(_) => Some(note_of_queue(gateway)),
        None => None,
    }
}

/// Logs the gap that may not have been seen, at the moment at which the run goes on, in ms.
fn log_gap<S: LogSink + Drop>(moment: Option<u64>, gap: Option<ReportedGap>, logger: &mut Logger<S>)
    ensures logs { LogsGap moment gap logger.old logger.new }
    ensures fixed { book_fixture logger.new ≡ book_fixture logger.old }
{
    let Some(moment) = moment else {
        return;
    };
    let Some((station, session)) = gap else {
        return;
    };
    logger.put(moment, &Action::Gap { station, session });
}

/// Logs what a start gives up of the connection before it, one line for each.
fn log_given_up<S: LogSink + Drop>(given_up: &[GivenUp], logger: &mut Logger<S>)
    ensures logs { LogsAll (map note_of_given_up given_up.now) logger.old logger.new }
    ensures fixed { book_fixture logger.new ≡ book_fixture logger.old }
{
    let mut left = given_up;
    while let [first, more @ ..] = left {
        logger.note(note_of_given_up(first));
        left = more;
    }
}

/// Logs how a run begins: what of its log is damaged, what is given up for it, and the gap that may
/// not have been seen.
fn log_beginning<S: LogSink + Drop>(origin: &Origin, logger: &mut Logger<S>)
    ensures logs { LogsBeginning origin.now logger.old logger.new }
    ensures fixed { book_fixture logger.new ≡ book_fixture logger.old }
{
    log(note_of_damage(origin.damage), logger);
    log(note_of(origin.beginning), logger);
    log(note_of_settings(origin.is_moved), logger);
    log(note_if_on(origin.moment, &origin.gateway), logger);
    log_given_up(origin.given_up.as_slice(), logger);
    log_gap(origin.moment, origin.gap, logger);
}
