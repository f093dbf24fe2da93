//! Texts that more than one page has.
ghost use Rattle.std.specs.Prelude.{◌≡◌};
ghost use Rattle.std.specs.Prelude.{count_by};
ghost use Rattle.status.specs.Judge.{is_up as is_up_of};
ghost use Rattle.status.specs.TextPage.{put};
ghost use Rattle.status.specs.Texts as spec;

use crate::judging::{cannot_keep, has_gone, is_awaited, is_full, is_off, is_up, judge, keeps};
use crate::page::TextPage;
use crate::snapshot::{Queue, Snapshot, StationView};
use crate::words::{Marks, Word, put_words};
use live::SyncTimes;

/// How many stations are up.
pub(crate) fn count_up(stations: &[StationView<'_>]) -> u64
    ensures { result ≡ count_by is_up_of stations.now }
{
    stations.iter().filter(|station| is_up(*station)).count() as u64
}

/// Puts what the state calls for, and what is wrong, the cause of all else first.
fn put_troubles(page: &mut TextPage, snapshot: &Snapshot<'_>)
    ensures { page.new ≡ put (spec.troubles snapshot.now) page.old }
{
    let is_away = !snapshot.line.is_there;
    let is_connected = snapshot.centre.peer.is_some();
    let is_lost = cannot_keep(snapshot.keeping);
    put_words(
        page,
        &[
            Word::Judged(judge(snapshot)),
            Word::Text(": "),
            Word::Either(has_gone(&snapshot.line), "line lost", ""),
            Word::Either(is_awaited(&snapshot.line), "line not there yet", ""),
            Word::EscapedBehind(Marks::Plain, ": ", snapshot.line.cause),
            Word::Either(is_away, "; ", ""),
            Word::Either(is_connected, "", "control centre not connected; "),
            Word::Either(
                is_full(&snapshot.queue),
                "queue full, nothing is polled; ",
                "",
            ),
            Word::Either(is_lost, "state isn't kept", ""),
            Word::EscapedBehind(Marks::Plain, ": ", snapshot.lost_by),
            Word::Either(is_lost, "; ", ""),
        ],
    );
}

/// Puts one line in words.
pub(crate) fn put_summary(page: &mut TextPage, snapshot: &Snapshot<'_>)
    ensures { page.new ≡ put (spec.summary snapshot.now) page.old }
{
    put_troubles(page, snapshot);
    put_standings(page, snapshot);
}

/// Puts how all stands: what is wrong stands before it.
fn put_standings(page: &mut TextPage, snapshot: &Snapshot<'_>)
    ensures { page.new ≡ put (spec.standings snapshot.now) page.old }
{
    let is_connected = snapshot.centre.peer.is_some();
    put_words(
        page,
        &[
            Word::Number(count_up(snapshot.stations)),
            Word::Text(" of "),
            Word::Number(snapshot.stations.len() as u64),
            Word::Text(" stations up"),
            Word::Either(snapshot.line.is_there, ", line there", ""),
            Word::Either(is_connected, ", control centre connected", ""),
            Word::Text(", queue "),
            Word::Number(snapshot.queue.taken),
            Word::Text(" of "),
            Word::Number(snapshot.queue.places),
            Word::Either(keeps(snapshot.keeping), ", state kept", ""),
            Word::Either(is_off(snapshot.keeping), ", state none", ""),
        ],
    );
}

/// Puts how the line is, with what stands before since when.
pub(crate) fn put_line(page: &mut TextPage, marks: Marks, snapshot: &Snapshot<'_>)
    ensures { page.new ≡ put (spec.line_text marks snapshot.now) page.old }
{
    let line = &snapshot.line;
    put_words(
        page,
        &[
            Word::Escaped(marks, snapshot.name),
            Word::Either(snapshot.name.is_empty(), "", ", "),
            Word::Either(line.is_there, "there", ""),
            Word::Either(has_gone(line), "lost", ""),
            Word::Either(is_awaited(line), "not there yet", ""),
            Word::Text(" for "),
        ],
    );
}

/// Puts which syncs of the state were slow, behind this, if any was.
pub(crate) fn put_syncs(page: &mut TextPage, before: &str, syncs: &SyncTimes)
    ensures { page.new ≡ put (spec.syncs_text before.now syncs.now) page.old }
{
    if syncs.count == 0 {
        return;
    }
    put_words(
        page,
        &[
            Word::Text(before),
            Word::Number(syncs.count),
            Word::Text(", the last "),
            Word::Number(syncs.last_ms),
            Word::Text(" ms, the longest "),
            Word::Number(syncs.longest_ms),
            Word::Text(" ms"),
        ],
    );
}

/// How many seconds, minutes, hours or days so many seconds are.
fn age_count(seconds: u64) -> u64
    ensures { result ≡ spec.age_count seconds }
{
    match seconds {
        // A unit begins at two of it: one would be wrong by up to half.
        0..120 => seconds,
        120..7200 => seconds / 60,
        7200..172_800 => seconds / 3600,
        _ => seconds / 86_400,
    }
}

/// The unit of that, as wide as each other one.
fn age_unit(seconds: u64) -> &'static str
    ensures { result.now ≡ spec.age_unit seconds }
{
    match seconds {
        0..120 => " s  ",
        120..7200 => " min",
        7200..172_800 => " h  ",
        _ => " d  ",
    }
}

/// Whole seconds between two moments in ms.
pub(crate) fn seconds(now_ms: u64, since_ms: u64) -> u64
    ensures { result ≡ spec.seconds now_ms since_ms }
{
    now_ms.saturating_sub(since_ms) / 1000
}

/// For how many seconds the oldest report of the queue has waited at least, 0 if none is there.
pub(crate) fn oldest_seconds(queue: &Queue<'_>) -> u64
    ensures { result ≡ spec.oldest_seconds queue.now }
{
    seconds(queue.oldest_ms.unwrap_or(0), 0)
}

/// Puts the same behind how many places are taken, if a report is there.
pub(crate) fn put_oldest(page: &mut TextPage, oldest_ms: Option<u64>)
    ensures { page.new ≡ put (spec.oldest_text oldest_ms) page.old }
{
    match oldest_ms {
        Some(oldest_ms) => put_wait(page, seconds(oldest_ms, 0)),
        None => page.put(&[]),
    }
}

/// Puts that the oldest report has waited for so many seconds at least.
fn put_wait(page: &mut TextPage, seconds: u64)
    ensures { page.new ≡ put (spec.wait_text seconds) page.old }
{
    put_words(
        page,
        &[
            Word::Text(", the oldest for at least "),
            Word::Number(age_count(seconds)),
            Word::Text(age_unit(seconds)),
        ],
    );
}

/// Puts how long ago a moment is, in a column of this width.
pub(crate) fn put_age(page: &mut TextPage, width: usize, now_ms: u64, since_ms: u64)
    ensures { page.new ≡ put (spec.age_text width now_ms since_ms) page.old }
{
    let seconds = seconds(now_ms, since_ms);
    put_words(
        page,
        &[
            Word::Right(width, age_count(seconds)),
            Word::Text(age_unit(seconds)),
        ],
    );
}

/// The same of a moment that may not be.
pub(crate) fn put_age_or(
    page: &mut TextPage,
    width: usize,
    now_ms: u64,
    since_ms: Option<u64>,
    other: &str,
)
    ensures { page.new ≡ put (spec.age_or width now_ms since_ms other.now) page.old }
{
    match since_ms {
        Some(since_ms) => put_age(page, width, now_ms, since_ms),
        None => page.put(other.as_bytes()),
    }
}
