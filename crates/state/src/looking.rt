//! What a start would find in a directory, for who looks at it.
ghost use Rattle.std.specs.Prelude.{◌≡◌, ◌⊎◌, ℕ, Bool, List, IfErr, IfOk, IfSome, IsTrue};
ghost use Rattle.std.specs.Prelude.{None, Ok, Some, false, true};
ghost use Rattle.std.specs.Option.{is_some};
ghost use Rattle.gateway.specs.Config.{Settings};
ghost use Rattle.segments.specs.Found.{begins_at, events_in, newest_in, newest_of, other_in};
ghost use Rattle.segments.specs.Head.{Fits};
ghost use Rattle.segments.specs.Starts.{ArePlaced, HasNoNewer, IsBacked, IsNewest};
ghost use Rattle.settings.specs.Settings.{IsReadOfText};
ghost use Rattle.state.specs.Beginnings.{BearsNumber, IsHeadOf};
ghost use Rattle.state.specs.Replays.{whole_lines};
ghost use Rattle.state.specs.Sights.{AreChanged, AreCounted, IsSeen, IsSight};
ghost use Rattle.state.specs.Unread.{AreStateOf, HasState};

use crate::beginning::{
    Opening, found_in, lines_of, read_opening, replayed, settings_in, with_past,
};
use crate::counting::{count_all, count_logged};
use crate::given_up::{GivenUp, given_up_by};
use crate::replaying::Lineage;
use crate::same_settings::are_same;
use crate::start::{Beginning, beginning_of};
use checkpoint::{Lines, StateFault};
use gateway::{Config, Gateway, History};
use segments::{SegmentFault, Side, Start};
use sqlite_disk::{Disk, Files};
use statetext::TextLines;
use std::alloc::{AllocError, Global};
use std::marker::Brand;

/// The log that a run would go on with, as it stands.
#[derive(Drop)]
pub struct Seen {
    /// The number of its segment.
    pub number: u64,
    /// The file in which the segment stands.
    pub side: Side,
    /// The file of settings under which it was written.
    pub settings: Vec<u8>,
    /// How many lines stand behind its head.
    pub lines: u64,
    /// How many of them log an event, up to the first that logs none.
    pub events: u64,
    /// From which octet of the file on nothing is read, if that is for damage.
    pub damage: Option<usize>,
    /// The gateway that has received these events. It has given up nothing yet.
    pub gateway: Gateway,
    /// What of its connection a start would give up.
    pub given_up: Vec<GivenUp>,
}

/// What a start would find in a directory.
#[derive(Drop)]
pub struct Sight {
    /// How a run would begin.
    pub beginning: Beginning,
    /// The log that it would go on with, if it would.
    pub seen: Option<Seen>,
}

/// Looks at the two files of a directory as a start does, and changes nothing. Each read of them
/// answers what they have. `before` is what led to the state at the head of the newest log, which
/// no code holds. An `Err` is want of memory, or a read that failed.
pub fn look<D: Disk + Drop>(
    alloc: Global,
    files: Files<D>,
    is_stale: bool,
    before: &History,
) -> Result<Sight, StateFault>
    requires log { IsTrue (D.Disk.is_usable files.log) }
    requires db { IsTrue (D.Disk.is_usable files.db) }
    requires honest { (file : D) → IsTrue (D.Disk.is_clean file) }
    ensures sight { IfOk result (IsSight before.now.entries is_stale (D.Disk.seen files.log)
        (D.Disk.seen files.db)) }
    ensures fault { IfErr result (λ fault. fault ≡ StateFault.Wrong → ⊥) }
{
    look_from::<Brand, D>(alloc, files, is_stale, before)
}

/// The same, of a log before which proofs know what passed.
fn look_from<K: Lineage, D: Disk + Drop>(
    alloc: Global,
    files: Files<D>,
    is_stale: bool,
    _before: &History,
) -> Result<Sight, StateFault>
    requires log { IsTrue (D.Disk.is_usable files.log) }
    requires db { IsTrue (D.Disk.is_usable files.db) }
    requires honest { (file : D) → IsTrue (D.Disk.is_clean file) }
    ensures sight { IfOk result (IsSight K.log is_stale (D.Disk.seen files.log)
        (D.Disk.seen files.db)) }
    ensures fault { IfErr result (λ fault. fault ≡ StateFault.Wrong → ⊥) }
{
    let start = match Start::open(alloc, files) {
        Ok(start) => start,
        Err(fault) => return Err(failed(fault)),
    };
    match beginning_of(found_in(&start, is_stale)) {
        Beginning::Anew => Ok(without_log(Beginning::Anew)),
        Beginning::PutAside => Ok(without_log(Beginning::PutAside)),
        Beginning::LinksReset => look_behind::<K, D>(alloc, start, false),
        Beginning::GoesOn => look_behind::<K, D>(alloc, start, true),
    }
}

/// Why nothing is found if a segment can't be read.
fn failed(fault: SegmentFault) -> StateFault
    ensures { result ≡ StateFault.Wrong → ⊥ }
{
    match fault {
        SegmentFault::NoMemory => StateFault::NoMemory,
        SegmentFault::Full | SegmentFault::Device(_) => StateFault::Device,
    }
}

/// No log counts.
fn without_log(beginning: Beginning) -> Sight
    ensures { result ≡ record { beginning = beginning; seen = None } }
{
    Sight {
        beginning,
        seen: None,
    }
}

/// Whether links would go on with a log: it is trusted, each line of it logs an event, and no
/// damage ends it.
fn would_go_on(is_trusted: bool, seen: &Seen) -> bool
    ensures trusted { result ≡ true → is_trusted ≡ true }
    ensures whole { result ≡ true →
        (seen.now.events ≡ seen.now.lines) × (seen.now.damage ≡ None) }
    ensures others { result ≡ false → is_trusted ≡ true → seen.now.events ≡ seen.now.lines →
        seen.now.damage ≡ None → ⊥ }
{
    match seen.damage {
        None => is_trusted && seen.events == seen.lines,
        Some(_) => false,
    }
}

/// The log that counts, and how a run would begin with it.
fn look_behind<K: Lineage, D: Disk + Drop>(
    alloc: Global,
    start: Start<D>,
    is_trusted: bool,
) -> Result<Sight, StateFault>
    requires honest { (file : D) → IsTrue (D.Disk.is_clean file) }
    requires found { is_some start.checkpoint ≡ true }
    requires fits { IfSome start.checkpoint (λ c. Fits c.head) }
    requires backed { IsBacked (newest_in start) (other_in start) }
    requires newest { IsNewest (newest_in start) (other_in start) }
    requires sure { is_trusted ≡ true → HasNoNewer (newest_in start) (other_in start) }
    ensures sight { (is_stale : Bool) (first second : List ℕ) →
        ArePlaced start.side first second (newest_in start) (other_in start) →
        (is_trusted ≡ true → is_stale ≡ false) → (is_trusted ≡ false → (is_stale ≡ true)
        ⊎ (HasNoNewer (newest_in start) (other_in start) → ⊥)) →
        IfOk result (IsSight K.log is_stale first second) }
    ensures fault { IfErr result (λ fault. fault ≡ StateFault.Wrong → ⊥) }
{
    let mut start = start;
    match see::<K, D>(alloc, &mut start) {
        Ok(seen) => {
            let goes_on = would_go_on(is_trusted, &seen);
            Ok(with_log(with_past(goes_on), seen))
        }
        Err(StateFault::Wrong) => Ok(without_log(Beginning::PutAside)),
        Err(StateFault::NoMemory) => Err(StateFault::NoMemory),
        Err(StateFault::Device) => Err(StateFault::Device),
    }
}

/// The settings that a text says, if it says any. Only want of memory is answered by an `Err`.
pub fn settings_said(alloc: Global, text: &[u8]) -> Result<Option<Config>, AllocError>
    ensures some { IfOk result (λ said. IfSome said (λ c. IsReadOfText text.now (Ok c))) }
    ensures none { IfOk result (λ said. said ≡ None → (c : Settings) →
        IsReadOfText text.now (Ok c) → ⊥) }
{
    match settings_in(alloc, text) {
        Ok(config) => Ok(Some(config)),
        Err(StateFault::Wrong) => Ok(None),
        Err(StateFault::NoMemory | StateFault::Device) => Err(AllocError),
    }
}

/// Whether a run with the second file of settings would be moved from a log that was written under
/// the first: whether they don't say the same settings. Only want of memory is answered by an
/// `Err`.
pub fn are_changed(alloc: Global, written: &[u8], text: &[u8]) -> Result<bool, AllocError>
    ensures { IfOk result (AreChanged written.now text.now) }
{
    let Some(before) = settings_said(alloc, written)? else {
        return Ok(true);
    };
    let Some(now) = settings_said(alloc, text)? else {
        return Ok(true);
    };
    Ok(!are_same(&before, &now))
}

/// A log counts.
fn with_log(beginning: Beginning, seen: Seen) -> Sight
    ensures { result ≡ record { beginning = beginning; seen = Some seen } }
{
    Sight {
        beginning,
        seen: Some(seen),
    }
}

/// The log in the file of the newest segment.
fn see<K: Lineage, D: Disk + Drop>(alloc: Global, start: &mut Start<D>) -> Result<Seen, StateFault>
    requires honest { (file : D) → IsTrue (D.Disk.is_clean file) }
    ensures log { IfOk result (IsSeen K.log (D.Disk.seen (newest_of start.old))) }
    ensures side { IfOk result (λ s. s.side ≡ start.old.side) }
    ensures wrong { IfErr result (λ fault. fault ≡ StateFault.Wrong →
        is_some start.old.checkpoint ≡ true → HasState (D.Disk.seen (newest_of start.old)) → ⊥) }
{
    let side = start.side();
    let opening = read_opening(alloc, start)?;
    see_behind::<K, D>(alloc, opening, start, side)
}

/// The log behind its head, which says the settings and the state.
fn see_behind<K: Lineage, D: Disk + Drop>(
    alloc: Global,
    opening: Opening,
    start: &mut Start<D>,
    side: Side,
) -> Result<Seen, StateFault>
    requires honest { (file : D) → IsTrue (D.Disk.is_clean file) }
    requires head { IsHeadOf (D.Disk.seen (newest_of start.old)) (begins_at start.old)
        opening.settings.items (⟦<TextLines as Lines>⟧.coming opening.lines) }
    requires number { BearsNumber (D.Disk.seen (newest_of start.old)) opening.number }
    ensures log { IfOk result (IsSeen K.log (D.Disk.seen (newest_of start.old))) }
    ensures side { IfOk result (λ s. s.side ≡ side) }
    ensures wrong { IfErr result (λ fault. fault ≡ StateFault.Wrong → (wrote : Settings) →
        IsReadOfText opening.settings.items (Ok wrote) →
        ((by : Settings) → IsReadOfText opening.settings.items (Ok by) →
        AreStateOf by (⟦<TextLines as Lines>⟧.coming opening.lines)) → ⊥) }
{
    let Opening {
        number,
        settings,
        lines,
    } = opening;
    let wrote = settings_in(alloc, &settings)?;
    let arrived = replayed::<K, D>(alloc, &wrote, lines, start)?;
    let Ok(given_up) = given_up_by(alloc, wrote.line().sizes, &arrived.gateway) else {
        return Err(StateFault::NoMemory);
    };
    let count = count(alloc, start)?;
    Ok(Seen {
        number,
        side,
        settings,
        lines: count.all,
        events: count.logged,
        damage: arrived.damage,
        gateway: arrived.gateway,
        given_up,
    })
}

/// How many lines stand behind the head.
#[derive(Clone, Copy)]
struct LineCount {
    logged: u64,
    all: u64,
}

/// How many lines stand behind the head of the log that was found.
fn count<D: Disk + Drop>(alloc: Global, start: &mut Start<D>) -> Result<LineCount, StateFault>
    requires honest { (file : D) → IsTrue (D.Disk.is_clean file) }
    ensures counted { IfOk result (λ n.
        AreCounted (whole_lines (events_in start.old)) n.logged n.all) }
    ensures fault { IfErr result (λ fault. fault ≡ StateFault.Wrong → ⊥) }
{
    let log = lines_of(alloc, start)?;
    let logged = count_logged(alloc, log.lines)?;
    let log = lines_of(alloc, start)?;
    let all = count_all(alloc, log.lines)?;
    Ok(LineCount { logged, all })
}
