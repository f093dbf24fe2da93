//! What a run begins with.
ghost use Rattle.std.specs.Prelude.{◌≡◌, ◌⊎◌, ◌∷◌, ℕ, List, None, Ok, Option, Some, IfErr, IfOk};
ghost use Rattle.std.specs.Prelude.{IfSome, IsTrue, OnOk};
ghost use Rattle.std.specs.Prelude.{true, false};
ghost use Rattle.std.specs.Option.{is_some};
ghost use Rattle.segments.specs.Found.{AreClean, begins_at, damage_of, events_in, newest_in};
ghost use Rattle.segments.specs.Found.{newest_of};
ghost use Rattle.segments.specs.Found.{next_of, other_in, other_of};
ghost use Rattle.gateway.specs.Agrees.{Follows, Rests};
ghost use Rattle.gateway.specs.Carried.{carried, place_of, restarted};
ghost use Rattle.gateway.specs.Config.{Settings};
ghost use Rattle.gateway.specs.Log.{Came, Restarted};
ghost use Rattle.gateway.specs.Reports.{Setup};
ghost use Rattle.gateway.specs.State.{State};
ghost use Rattle.segments.specs.Head.{Fits};
ghost use Rattle.segments.specs.Starts.{HasNoNewer, IsAbove, IsBacked, IsNewest, IsNext};
ghost use Rattle.settings.specs.Settings.{IsReadOfText};
ghost use Rattle.state.specs.Beginnings.{BearsNumber, GoesOnFrom, HasRead, IsReadWhole, IsWhole};
ghost use Rattle.state.specs.Beginnings.{gap_now};
ghost use Rattle.state.specs.Beginnings.{IsHeadOf, IsRead, SayState, WentOn};
ghost use Rattle.state.specs.Beginnings.{has_past, is_trusted};
ghost use Rattle.state.specs.GivenUps.{given_up_by};
ghost use Rattle.state.specs.Origins.{IsBegun, IsNew, IsNumbered};
ghost use Rattle.state.specs.Replays.{whole_lines};
ghost use Rattle.state.specs.Starts.{beginning_of};
ghost use Rattle.state.specs.Unread.{AreStateOf, HasState, IsUnread, WasAside};

use crate::disk_store::DiskStore;
use crate::event_text::EventText;
use crate::folder::{Folder, FolderFault};
use crate::given_up::{GivenUp, given_up_by};
use crate::replaying::{EventLines, Lineage, Replayed, ReportedGap, replay};
use crate::same_settings::are_same;
use crate::start::{Beginning, Found, beginning_of};
use checkpoint::{Lines, StateFault};
use gateway::{Config, Gateway, History, NoMemory, StationSettings};
use segments::{FoundLog, SegmentFault, Start};
use settings::{ConfigFault, read_config};
use sqlite_disk::Disk;
use statetext::TextLines;
use std::alloc::Global;
use std::io::ErrorKind;
use std::marker::Brand;

/// The number of the first log.
const FIRST: u64 = 2;

/// The log can't be read. Which of its two files it is, and why, nobody tells.
const UNREAD: FolderFault = FolderFault::Unusable("segments", ErrorKind::Other);

/// The mark can't be made.
const UNMARKED: FolderFault = FolderFault::Unusable("stale", ErrorKind::Other);

/// What a run begins with.
#[derive(Drop)]
pub struct Origin {
    pub gateway: Gateway,
    /// The moment at which the clock goes on, in ms. `None`: the run begins anew, and there is no
    /// connection to cut.
    pub moment: Option<u64>,
    /// What was made of what was found.
    pub beginning: Beginning,
    /// The gap that the last step before the end reported, if it reported one: of the station by
    /// the place that it has now. Nobody may have seen it.
    pub gap: Option<ReportedGap>,
    /// From which octet of the newest segment's file on nothing was read, if that is for damage.
    pub damage: Option<usize>,
    /// What of the connection before was given up, if one was.
    pub given_up: Vec<GivenUp>,
    /// What passed in the lives before, as far as the directory shows it.
    pub before: History,
    /// The state was kept under other settings.
    pub is_moved: bool,
}

/// A run begins: with what, and where its state is kept.
#[derive(Drop)]
pub struct Begun<F: Folder + Drop> {
    pub origin: Origin,
    pub store: DiskStore<F>,
}

/// A gateway that has received again what it had received.
#[derive(Drop)]
pub(crate) struct Arrived {
    pub(crate) gateway: Gateway,
    /// The gap that its last step reported, if it reported one.
    gap: Option<ReportedGap>,
    /// What passed before.
    before: History,
    /// Each whole line of its log logs an event, and no damage ends it.
    is_whole: bool,
    /// From which octet of the file on nothing was read, if that is for damage.
    pub(crate) damage: Option<usize>,
}

/// A gateway that goes on.
#[derive(Drop)]
struct Resumed {
    gateway: Gateway,
    gap: Option<ReportedGap>,
    damage: Option<usize>,
    /// What of the connection before was given up.
    given_up: Vec<GivenUp>,
    /// What passed before.
    before: History,
    /// It was kept under other settings.
    is_moved: bool,
    /// Its links go on, too.
    goes_on: bool,
}

impl From<StateFault> for FolderFault {
    fn from(fault: StateFault) -> FolderFault {
        match fault {
            StateFault::Wrong | StateFault::Device => UNREAD,
            StateFault::NoMemory => FolderFault::NoMemory,
        }
    }
}

impl From<SegmentFault> for FolderFault {
    fn from(fault: SegmentFault) -> FolderFault {
        match fault {
            SegmentFault::Full => UNREAD,
            SegmentFault::Device(cause) => FolderFault::Unusable("segments", cause),
            SegmentFault::NoMemory => FolderFault::NoMemory,
        }
    }
}

/// Why a state isn't read, if its settings aren't.
pub(crate) fn unread(fault: ConfigFault) -> StateFault
    ensures memory { fault ≡ ConfigFault.NoMemory → result ≡ StateFault.NoMemory }
{
    match fault {
        ConfigFault::NoMemory => StateFault::NoMemory,
        ConfigFault::NotToml | ConfigFault::Key(_) | ConfigFault::Unknown(_) => StateFault::Wrong,
    }
}

/// What the two files are, and their mark.
pub(crate) fn found_in<D: Disk + Drop>(start: &Start<D>, is_stale: bool) -> Found
    ensures trusted { beginning_of result ≡ Beginning.GoesOn → is_stale ≡ false }
    ensures sure { beginning_of result ≡ Beginning.GoesOn →
        (is_some start.now.checkpoint ≡ true) × (start.now.is_doubtful ≡ false) }
    ensures empty { beginning_of result ≡ Beginning.Anew →
        (is_some start.now.checkpoint ≡ false) × (start.now.is_doubtful ≡ false) }
    ensures reset { beginning_of result ≡ Beginning.LinksReset →
        (is_stale ≡ true) ⊎ (start.now.is_doubtful ≡ true) }
    ensures past { beginning_of result ≡ Beginning.LinksReset →
        is_some start.now.checkpoint ≡ true }
    ensures aside { beginning_of result ≡ Beginning.PutAside →
        (is_some start.now.checkpoint ≡ false) × (start.now.is_doubtful ≡ true) }
{
    match (start.is_found(), start.is_doubtful()) {
        (false, false) => Found::Nothing,
        (false, true) => Found::Unread,
        (true, true) => Found::Stale,
        (true, false) if is_stale => Found::Stale,
        (true, false) => Found::Whole,
    }
}

/// The gateway with these settings whose state some lines say.
fn read<K: Lineage>(alloc: Global, config: &Config, lines: TextLines) -> Result<Gateway, StateFault>
    ensures wrong { IfErr result (λ fault. fault ≡ StateFault.Wrong →
        AreStateOf config.now (⟦<TextLines as Lines>⟧.coming lines) → ⊥) }
    ensures read { IfOk result (λ g.
        HasRead config.now K.log (⟦<TextLines as Lines>⟧.coming lines) g) }
    // What isn't the lines of a state isn't read as one.
    ensures said { IfOk result (λ _. SayState (⟦<TextLines as Lines>⟧.coming lines)) }
{
    let mut lines = lines;
    let (mut line, mut octets) = (Vec::new(alloc), Vec::new(alloc));
    match Gateway::read_state(alloc, config, &mut lines, &mut line, &mut octets) {
        Ok(gateway) => Ok(gateway),
        Err(fault) => Err(fault),
    }
}

/// What stands behind a checkpoint.
#[derive(Drop)]
pub(crate) struct LogText {
    pub(crate) lines: EventText,
    /// From which octet of the file on nothing was read, if that is for damage.
    pub(crate) damage: Option<usize>,
}

/// The whole lines behind the checkpoint that was found.
pub(crate) fn lines_of<D: Disk + Drop>(
    alloc: Global,
    start: &mut Start<D>,
) -> Result<LogText, StateFault>
    ensures lines { IfOk result (λ log. IsTrue (D.Disk.is_clean (newest_of start.new)) →
        ⟦<EventText as EventLines>⟧.coming log.lines ≡ whole_lines (events_in start.new)) }
    ensures damage { IfOk result (λ log. IsTrue (D.Disk.is_clean (newest_of start.new)) →
        log.damage ≡ damage_of start.new) }
    ensures fault { IfErr result (λ fault. fault ≡ StateFault.Wrong → ⊥) }
    ensures seen { D.Disk.seen (newest_of start.new) ≡ D.Disk.seen (newest_of start.old) }
    ensures clean { IsTrue (D.Disk.is_clean (newest_of start.new)) →
        IsTrue (D.Disk.is_clean (newest_of start.old)) }
    ensures same { begins_at start.new ≡ begins_at start.old }
    ensures taken { start.new.checkpoint ≡ start.old.checkpoint }
    ensures other { other_of start.new ≡ other_of start.old }
    ensures next { next_of start.new ≡ next_of start.old }
{
    match start.log(alloc) {
        Ok(FoundLog { lines, damage }) => Ok(LogText {
            lines: EventText::new(lines),
            damage,
        }),
        Err(SegmentFault::NoMemory) => Err(StateFault::NoMemory),
        Err(SegmentFault::Full | SegmentFault::Device(_)) => Err(StateFault::Device),
    }
}

/// Whether a log was read whole: each line of it logs an event, and no damage ends it.
fn is_read_whole(is_whole: bool, damage: Option<usize>) -> bool
    ensures whole { result ≡ true → (is_whole ≡ true) × (damage ≡ None) }
    ensures others { result ≡ false → is_whole ≡ true → damage ≡ None → ⊥ }
{
    match damage {
        None => is_whole,
        Some(_) => false,
    }
}

/// The gateway with these settings that stood at the head of a log, behind the lines of its events.
pub(crate) fn replayed<K: Lineage, D: Disk + Drop>(
    alloc: Global,
    config: &Config,
    lines: TextLines,
    start: &mut Start<D>,
) -> Result<Arrived, StateFault>
    ensures wrong { IfErr result (λ fault. fault ≡ StateFault.Wrong →
        AreStateOf config.now (⟦<TextLines as Lines>⟧.coming lines) → ⊥) }
    ensures read { IfOk result (λ r. IsTrue (D.Disk.is_clean (newest_of start.new)) →
        IsRead config.now K.log (⟦<TextLines as Lines>⟧.coming lines) (events_in start.new)
        r.gap r.before.entries r.gateway) }
    ensures said { IfOk result (λ _. SayState (⟦<TextLines as Lines>⟧.coming lines)) }
    ensures whole { IfOk result (λ r. r.is_whole ≡ true →
        IsTrue (D.Disk.is_clean (newest_of start.new)) →
        IsWhole (events_in start.new) (damage_of start.new)) }
    ensures broken { IfOk result (λ r. r.is_whole ≡ false →
        IsTrue (D.Disk.is_clean (newest_of start.new)) →
        IsWhole (events_in start.new) (damage_of start.new) → ⊥) }
    ensures damage { IfOk result (λ r. IsTrue (D.Disk.is_clean (newest_of start.new)) →
        r.damage ≡ damage_of start.new) }
    ensures seen { D.Disk.seen (newest_of start.new) ≡ D.Disk.seen (newest_of start.old) }
    ensures clean { IsTrue (D.Disk.is_clean (newest_of start.new)) →
        IsTrue (D.Disk.is_clean (newest_of start.old)) }
    ensures same { begins_at start.new ≡ begins_at start.old }
    ensures other { other_of start.new ≡ other_of start.old }
    ensures next { next_of start.new ≡ next_of start.old }
{
    // The checkpoint may be as long as the queue: its text goes before the events are read.
    let mut gateway = read::<K>(alloc, config, lines)?;
    let LogText { lines, damage } = lines_of(alloc, start)?;
    let Replayed { gap, log, is_whole } = replay::<K, EventText>(alloc, &mut gateway, lines)?;
    let is_read = is_read_whole(is_whole, damage);
    Ok(Arrived {
        gateway,
        gap,
        before: log,
        is_whole: is_read,
        damage,
    })
}

/// What stands at the head of a log.
#[derive(Drop)]
pub(crate) struct Opening {
    /// The number of its segment.
    pub(crate) number: u64,
    pub(crate) settings: Vec<u8>,
    pub(crate) lines: TextLines,
}

/// The settings at the head of the log that was found, and the lines behind them.
pub(crate) fn read_opening<D: Disk + Drop>(
    alloc: Global,
    start: &mut Start<D>,
) -> Result<Opening, StateFault>
    ensures head { IfOk result (λ o. IsTrue (D.Disk.is_clean (newest_of start.new)) →
        IsHeadOf (D.Disk.seen (newest_of start.new)) (begins_at start.new) o.settings.items
        (⟦<TextLines as Lines>⟧.coming o.lines)) }
    ensures number { IfOk result (λ o. IsTrue (D.Disk.is_clean (newest_of start.new)) →
        BearsNumber (D.Disk.seen (newest_of start.new)) o.number) }
    ensures wrong { IfErr result (λ fault. fault ≡ StateFault.Wrong →
        is_some start.old.checkpoint ≡ true → IsTrue (D.Disk.is_clean (newest_of start.new)) →
        HasState (D.Disk.seen (newest_of start.new)) → ⊥) }
    ensures newest { newest_of start.new ≡ newest_of start.old }
    ensures other { other_of start.new ≡ other_of start.old }
    ensures next { next_of start.new ≡ next_of start.old }
{
    let Some(checkpoint) = start.checkpoint() else {
        return Err(StateFault::Wrong);
    };
    let number = checkpoint.head.number;
    let mut lines = TextLines::new(alloc, checkpoint.text);
    let mut settings = Vec::new(alloc);
    lines.next_octets(&mut settings)?;
    Ok(Opening {
        number,
        settings,
        lines,
    })
}

/// Whether links go on: the state is trusted, and its log was read whole.
fn links_go_on(is_trusted: bool, is_whole: bool) -> bool
    ensures on { result ≡ true → (is_trusted ≡ true) × (is_whole ≡ true) }
    ensures off { result ≡ false → (is_trusted ≡ false) ⊎ (is_whole ≡ false) }
{
    is_trusted && is_whole
}

/// It has ended the connection and given up this, and each command without an answer, which is the
/// restart in its log.
fn restarted(arrived: Arrived, given_up: Vec<GivenUp>, goes_on: bool) -> Resumed
    ensures gateway { result.gateway ≡ restarted arrived.gateway }
    ensures before { result.before.entries
        ≡ Came arrived.gateway.moment Restarted ∷ arrived.before.entries }
    ensures follows { (p : Setup) → Follows p arrived.gateway (Some arrived.before.entries) →
        Rests p (Some arrived.before.entries) →
        Follows p result.gateway (Some result.before.entries) }
    ensures gap { result.gap ≡ arrived.gap }
    ensures given_up { result.given_up ≡ given_up }
    ensures moved { result.is_moved ≡ false }
    ensures goes_on { result.goes_on ≡ goes_on }
    ensures damage { result.damage ≡ arrived.damage }
{
    let Arrived {
        mut gateway,
        gap,
        before,
        damage,
        ..
    } = arrived;
    let moment = gateway.moment();
    let before = before.restarted(&moment);
    gateway.restart();
    Resumed {
        gateway,
        gap,
        damage,
        given_up,
        before,
        is_moved: false,
        goes_on,
    }
}

/// The gateway goes on with the state that was found, under the settings that wrote it, which are
/// these. Its links go on if the state is trusted, and each whole line of its log can be read. If
/// one can't, events behind it are lost, and what went out on them isn't known.
fn go_on<K: Lineage, D: Disk + Drop>(
    alloc: Global,
    config: &Config,
    lines: TextLines,
    start: &mut Start<D>,
    is_trusted: bool,
) -> Result<Resumed, StateFault>
    ensures wrong { IfErr result (λ fault. fault ≡ StateFault.Wrong →
        AreStateOf config.now (⟦<TextLines as Lines>⟧.coming lines) → ⊥) }
    ensures went { IfOk result (λ r. IsTrue (D.Disk.is_clean (newest_of start.new)) →
        WentOn config.now K.log (⟦<TextLines as Lines>⟧.coming lines) (events_in start.new)
        r.gap r.given_up.items r.before.entries r.gateway) }
    ensures moved { IfOk result (λ r. r.is_moved ≡ false) }
    ensures trusted { IfOk result (λ r. r.goes_on ≡ true → is_trusted ≡ true) }
    ensures whole { IfOk result (λ r. r.goes_on ≡ true →
        IsTrue (D.Disk.is_clean (newest_of start.new)) →
        IsWhole (events_in start.new) (damage_of start.new)) }
    ensures reset { IfOk result (λ r. r.goes_on ≡ false → (is_trusted ≡ false)
        ⊎ (IsTrue (D.Disk.is_clean (newest_of start.new)) →
        IsWhole (events_in start.new) (damage_of start.new) → ⊥)) }
    ensures damage { IfOk result (λ r. IsTrue (D.Disk.is_clean (newest_of start.new)) →
        r.damage ≡ damage_of start.new) }
    ensures seen { D.Disk.seen (newest_of start.new) ≡ D.Disk.seen (newest_of start.old) }
    ensures clean { IsTrue (D.Disk.is_clean (newest_of start.new)) →
        IsTrue (D.Disk.is_clean (newest_of start.old)) }
    ensures same { begins_at start.new ≡ begins_at start.old }
    ensures other { other_of start.new ≡ other_of start.old }
    ensures next { next_of start.new ≡ next_of start.old }
{
    let arrived = replayed::<K, D>(alloc, config, lines, start)?;
    // A restart leaves nothing of the connection, so this is taken before it.
    let Ok(given_up) = given_up_by(alloc, config.line().sizes, &arrived.gateway) else {
        return Err(StateFault::NoMemory);
    };
    let goes_on = links_go_on(is_trusted, arrived.is_whole);
    Ok(restarted(arrived, given_up, goes_on))
}

/// The place of the station with this link address.
fn place_of(address: u16, stations: &[StationSettings]) -> Option<usize>
    ensures { result ≡ place_of address stations.now }
{
    stations
        .iter()
        .position(|station| station.address == address)
}

/// The gap of the same station by the place that it has now, if it is still there. Else the log
/// would name another one.
fn gap_now(
    before: &[StationSettings],
    now: &[StationSettings],
    gap: Option<ReportedGap>,
) -> Option<ReportedGap>
    ensures { result ≡ gap_now before.now now.now gap }
{
    let Some((place, session)) = gap else {
        return None;
    };
    let Some(station) = before.get(place).copied() else {
        return None;
    };
    match place_of(station.address, now) {
        Some(place) => Some((place, session)),
        None => None,
    }
}

/// A gateway that went on under the settings that wrote its log is moved to these. `is_moved` says
/// that they are others.
fn move_on(
    alloc: Global,
    config: &Config,
    wrote: &Config,
    resumed: Resumed,
    is_moved: bool,
) -> Result<Resumed, StateFault>
    ensures gateway { IfOk result (λ r. r.gateway
        ≡ carried resumed.goes_on wrote.now config.now resumed.gateway) }
    ensures gap { IfOk result (λ r.
        r.gap ≡ gap_now wrote.now.stations config.now.stations resumed.gap) }
    ensures given_up { IfOk result (λ r. r.given_up ≡ resumed.given_up) }
    ensures damage { IfOk result (λ r. r.damage ≡ resumed.damage) }
    ensures before { IfOk result (λ r. r.before ≡ resumed.before) }
    ensures moved { IfOk result (λ r. r.is_moved ≡ is_moved) }
    ensures goes_on { IfOk result (λ r. r.goes_on ≡ resumed.goes_on) }
    ensures fault { IfErr result (λ fault. fault ≡ StateFault.Wrong → ⊥) }
{
    let Resumed {
        gateway,
        gap,
        damage,
        given_up,
        before,
        goes_on,
        ..
    } = resumed;
    let gap = gap_now(wrote.stations(), config.stations(), gap);
    match gateway.carried(alloc, wrote, config, goes_on) {
        Ok(gateway) => Ok(Resumed {
            gateway,
            gap,
            damage,
            given_up,
            before,
            is_moved,
            goes_on,
        }),
        Err(NoMemory) => Err(StateFault::NoMemory),
    }
}

/// The settings that a text says.
pub(crate) fn settings_in(alloc: Global, text: &[u8]) -> Result<Config, StateFault>
    ensures read { IfOk result (λ c. IsReadOfText text.now (Ok c)) }
    ensures wrong { IfErr result (λ fault. fault ≡ StateFault.Wrong → (c : Settings) →
        IsReadOfText text.now (Ok c) → ⊥) }
{
    match read_config(alloc, text, false) {
        Ok(config) => Ok(config),
        Err(fault) => Err(unread(fault)),
    }
}

/// The gateway goes on with the state that was found, to which the folder's lineage has led.
fn resume<K: Lineage, D: Disk + Drop, F: Folder>(
    alloc: Global,
    config: &Config,
    start: &mut Start<D>,
    is_trusted: bool,
    _folder: &F,
) -> Result<Resumed, StateFault>
    requires { F.lineage _folder.now ≡ K.log }
    ensures wrong { IfErr result (λ fault. fault ≡ StateFault.Wrong →
        is_some start.old.checkpoint ≡ true → IsTrue (D.Disk.is_clean (newest_of start.new)) →
        HasState (D.Disk.seen (newest_of start.new)) → ⊥) }
    ensures goes_on { IfOk result (λ r. IsTrue (D.Disk.is_clean (newest_of start.new)) →
        GoesOnFrom r.goes_on config.now K.log (D.Disk.seen (newest_of start.new))
        r.is_moved r.damage r.gap r.given_up.items r.before.entries r.gateway) }
    ensures trusted { IfOk result (λ r. r.goes_on ≡ true → is_trusted ≡ true) }
    ensures read { IfOk result (λ r. r.goes_on ≡ true →
        IsTrue (D.Disk.is_clean (newest_of start.new)) →
        IsReadWhole (D.Disk.seen (newest_of start.new))) }
    ensures reset { IfOk result (λ r. r.goes_on ≡ false → (is_trusted ≡ false)
        ⊎ (IsTrue (D.Disk.is_clean (newest_of start.new)) →
        IsReadWhole (D.Disk.seen (newest_of start.new)) → ⊥)) }
    ensures seen { D.Disk.seen (newest_of start.new) ≡ D.Disk.seen (newest_of start.old) }
    ensures clean { IsTrue (D.Disk.is_clean (newest_of start.new)) →
        IsTrue (D.Disk.is_clean (newest_of start.old)) }
    ensures other { other_of start.new ≡ other_of start.old }
    ensures next { next_of start.new ≡ next_of start.old }
{
    let opening = read_opening(alloc, start)?;
    let wrote = settings_in(alloc, &opening.settings)?;
    let lines = opening.lines;
    let is_same = are_same(&wrote, config);
    if is_same {
        let resumed = go_on::<K, D>(alloc, config, lines, start, is_trusted)?;
        if resumed.goes_on {
            return Ok(resumed);
        }
        return move_on(alloc, config, config, resumed, false);
    }
    let resumed = go_on::<K, D>(alloc, &wrote, lines, start, is_trusted)?;
    move_on(alloc, config, &wrote, resumed, true)
}

/// Marks a state as stale, unless it is. The next log goes into the file that is doubted: a start
/// that is ended before it stands must leave what the next one needs to know.
fn mark<F: Folder>(folder: &mut F, is_stale: bool) -> Result<(), FolderFault>
    requires locked { F.is_locked folder.old ≡ true }
    requires known { F.mark folder.old ≡ Some is_stale }
    ensures mark { OnOk result (F.mark folder.new ≡ Some true) }
    ensures stays { F.is_locked folder.new ≡ true }
    ensures lineage { F.lineage folder.new ≡ F.lineage folder.old }
{
    if is_stale || folder.mark_stale() {
        Ok(())
    } else {
        Err(UNMARKED)
    }
}

/// Begins a run: with the state that the directory has, or anew. `text` is the file of settings
/// that `config` was read from, and stands at the head of the next log. An `Err` says that the
/// directory can't be used.
pub fn begin<F: Folder + Drop>(
    alloc: Global,
    config: &Config,
    text: &[u8],
    folder: F,
) -> Result<Begun<F>, FolderFault>
    ensures begun { IfOk result (λ b. IsBegun config.now (F.lineage folder)
        (F.mark b.store.folder) b.store.opened b.origin) }
    ensures settings { IfOk result (λ b. b.store.settings.items ≡ text.now) }
    // What is put aside is no state to go on with.
    ensures aside { IfOk result (λ b. b.origin.beginning ≡ Beginning.PutAside →
        WasAside F.File.Disk (F.aside b.store.folder)) }
    // The next log is newer than each that ever stood in a file: so a start finds that one. Its
    // number is the next one.
    ensures numbered { IfOk result (λ b. IsNumbered b.store.number b.store.opened) }
{
    let mut folder = folder;
    let Ok(settings) = Vec::from_slice(alloc, text) else {
        return Err(FolderFault::NoMemory);
    };
    let files = folder.open()?;
    let is_stale = folder.is_stale()?;
    let start = Start::open(alloc, files)?;
    match beginning_of(found_in(&start, is_stale)) {
        Beginning::Anew => {
            let store = DiskStore::new(alloc, folder, settings, start.next_number());
            let (newest, spare) = start.into_files();
            anew(
                alloc,
                config,
                store.with_files(newest, spare),
                Beginning::Anew,
            )
        }
        Beginning::PutAside => {
            let (newest, other) = start.into_files();
            put_aside(alloc, config, settings, folder, newest, other)
        }
        Beginning::LinksReset => {
            mark(&mut folder, is_stale)?;
            carry_on(alloc, config, settings, folder, start, false)
        }
        Beginning::GoesOn => carry_on(alloc, config, settings, folder, start, true),
    }
}

/// How a run begins that has a past.
pub(crate) fn with_past(goes_on: bool) -> Beginning
    ensures past { has_past result ≡ true }
    ensures trusted { is_trusted result ≡ goes_on }
{
    if goes_on {
        Beginning::GoesOn
    } else {
        Beginning::LinksReset
    }
}

/// A run goes on with this.
fn origin_of(resumed: Resumed, beginning: Beginning) -> Origin
    ensures { result ≡ record {
      gateway = resumed.gateway;
      moment = Some resumed.gateway.moment;
      beginning = beginning;
      gap = resumed.gap;
      damage = resumed.damage;
      given_up = resumed.given_up;
      before = resumed.before;
      is_moved = resumed.is_moved;
    } }
{
    let Resumed {
        gateway,
        gap,
        damage,
        given_up,
        before,
        is_moved,
        ..
    } = resumed;
    Origin {
        moment: Some(gateway.moment()),
        gateway,
        beginning,
        gap,
        damage,
        given_up,
        before,
        is_moved,
    }
}

/// Begins with what was found, or anew if that can't be read.
fn carry_on<F: Folder + Drop>(
    alloc: Global,
    config: &Config,
    settings: Vec<u8>,
    folder: F,
    start: Start<F::File>,
    is_trusted: bool,
) -> Result<Begun<F>, FolderFault>
    requires locked { F.is_locked folder ≡ true }
    requires trusted { is_trusted ≡ true → F.mark folder ≡ Some false }
    requires found { is_some start.checkpoint ≡ true }
    requires fits { IfSome start.checkpoint (λ c. Fits c.head) }
    requires backed { AreClean start → IsBacked (newest_in start) (other_in start) }
    requires newest { AreClean start → IsNewest (newest_in start) (other_in start) }
    requires sure { is_trusted ≡ true → AreClean start →
        HasNoNewer (newest_in start) (other_in start) }
    requires above { AreClean start → IsAbove start.number (newest_in start)
        × IsAbove start.number (other_in start) }
    requires next { AreClean start →
        IsNext start.number (newest_in start) (other_in start) }
    requires reset { is_trusted ≡ false → (F.mark folder ≡ Some true) ⊎ (AreClean start →
        HasNoNewer (newest_in start) (other_in start) → ⊥) }
    ensures begun { IfOk result (λ b. IsBegun config.now (F.lineage folder)
        (F.mark b.store.folder) b.store.opened b.origin) }
    ensures aside { IfOk result (λ b. b.origin.beginning ≡ Beginning.PutAside →
        WasAside F.File.Disk (F.aside b.store.folder)) }
    ensures settings { IfOk result (λ b. b.store.settings ≡ settings) }
    ensures numbered { IfOk result (λ b. IsNumbered b.store.number b.store.opened) }
{
    let mut start = start;
    match resume::<Brand, F::File, F>(alloc, config, &mut start, is_trusted, &folder) {
        Ok(resumed) => {
            let goes_on = resumed.goes_on;
            let store = DiskStore::new(alloc, folder, settings, start.next_number());
            let (newest, spare) = start.into_files();
            Ok(Begun {
                origin: origin_of(resumed, with_past(goes_on)),
                store: store.with_files(newest, spare),
            })
        }
        Err(StateFault::Wrong) => {
            let (newest, other) = start.into_files();
            put_aside(alloc, config, settings, folder, newest, other)
        }
        Err(StateFault::NoMemory) => Err(FolderFault::NoMemory),
        Err(StateFault::Device) => Err(UNREAD),
    }
}

/// Begins anew over this store.
fn anew<F: Folder + Drop>(
    alloc: Global,
    config: &Config,
    store: DiskStore<F>,
    beginning: Beginning,
) -> Result<Begun<F>, FolderFault>
    requires { has_past beginning ≡ false }
    ensures new { IfOk result (λ b. IsNew config.now b.origin) }
    ensures moment { IfOk result (λ b. b.origin.moment ≡ None) }
    ensures beginning { IfOk result (λ b. b.origin.beginning ≡ beginning) }
    ensures store { IfOk result (λ b. b.store ≡ store) }
{
    match Gateway::new(alloc, config) {
        Ok(gateway) => Ok(Begun {
            origin: Origin {
                gateway,
                moment: None,
                beginning,
                gap: None,
                damage: None,
                given_up: Vec::new(alloc),
                before: History::new(),
                is_moved: false,
            },
            store,
        }),
        Err(NoMemory) => Err(FolderFault::NoMemory),
    }
}

/// Puts aside what can't be read, and begins anew.
fn put_aside<F: Folder + Drop>(
    alloc: Global,
    config: &Config,
    settings: Vec<u8>,
    folder: F,
    newest: F::File,
    other: F::File,
) -> Result<Begun<F>, FolderFault>
    requires locked { F.is_locked folder ≡ true }
    requires unread { IsTrue (F.File.is_clean newest) → IsTrue (F.File.is_clean other) →
        IsUnread (F.File.seen newest) (F.File.seen other) }
    ensures aside { IfOk result (λ b.
        WasAside F.File.Disk (F.aside b.store.folder)) }
    ensures new { IfOk result (λ b. IsNew config.now b.origin) }
    ensures moment { IfOk result (λ b. b.origin.moment ≡ None) }
    ensures beginning { IfOk result (λ b. b.origin.beginning ≡ Beginning.PutAside) }
    ensures settings { IfOk result (λ b. b.store.settings ≡ settings) }
    ensures marked { IfOk result (λ b. F.mark b.store.folder ≡ Some true) }
    ensures numbered { IfOk result (λ b. IsNumbered b.store.number b.store.opened) }
{
    let mut folder = folder;
    if !folder.mark_stale() {
        return Err(UNMARKED);
    }
    if !folder.put_aside(newest, other) {
        return Err(UNREAD);
    }
    let store = DiskStore::new(alloc, folder, settings, FIRST);
    anew(alloc, config, store, Beginning::PutAside)
}
