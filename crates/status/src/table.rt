//! The snapshot as a table for a terminal.
ghost use Rattle.std.specs.Prelude.{◌≡◌};
ghost use Rattle.status.specs.TextPage.{put};
ghost use Rattle.status.specs.Table as spec;
ghost use Rattle.status.specs.Words.{rows};

use crate::judging::{is_silent, unfilled};
use crate::lists::{Form, put_rows};
use crate::page::TextPage;
use crate::snapshot::{Snapshot, StationView};
use crate::texts::{
    count_up, oldest_seconds, put_age, put_age_or, put_line, put_summary, put_syncs,
};
use crate::words::{Marks, Word, put_words};

/// What stands before how the line is.
const LINE: &str = "\nline            ";

/// What stands before the slow syncs.
const SYNCS: &str = "\nslow syncs      ";

/// What stands before the rows of the stations.
const STATIONS: &str =
    "\n\naddress     ca  standing       since   last report  reports  skipped  gaps  \
commands  name\n";

/// A station as a row, if it doesn't answer, or else if it does.
#[derive(Drop)]
struct RowForm {
    now_ms: u64,
    is_silent: bool,
}

/// Puts whose row it is.
fn put_row_head(page: &mut TextPage, station: &StationView<'_>)
    ensures { page.new ≡ put (spec.row_head station.now) page.old }
{
    put_words(
        page,
        &[
            Word::Right(7, u64::from(station.address)),
            Word::Right(7, u64::from(station.common_address)),
            Word::Text("  "),
            Word::Wide(station.standing),
        ],
    );
}

/// Puts what was counted of a station, and its name.
fn put_row_counts(page: &mut TextPage, station: &StationView<'_>)
    ensures { page.new ≡ put (spec.row_counts station.now) page.old }
{
    put_words(
        page,
        &[
            Word::Text(" "),
            Word::Right(8, station.reports),
            Word::Text(" "),
            Word::Right(8, station.skipped),
            Word::Text(" "),
            Word::Right(5, station.gaps),
            Word::Text(" "),
            Word::Right(9, station.commands),
            Word::Text("  "),
            Word::Escaped(Marks::Plain, station.name),
            Word::Text("\n"),
        ],
    );
}

impl Form<StationView<'_>> for RowForm {
    ghost text = { λ form station. spec.row_if form.is_silent form.now_ms station };

    fn put(&self, page: &mut TextPage, station: &StationView<'_>) {
        if is_silent(station) == self.is_silent {
            put_row(page, self.now_ms, station);
        }
    }
}

/// Puts a station as a row.
fn put_row(page: &mut TextPage, now_ms: u64, station: &StationView<'_>)
    ensures { page.new ≡ put (spec.text_of_row now_ms station.now) page.old }
{
    put_row_head(page, station);
    put_age(page, 6, now_ms, station.since_ms);
    put_age_or(page, 10, now_ms, station.last_report_ms, "         -    ");
    put_row_counts(page, station);
}

/// The same of the control centre.
fn put_centre(page: &mut TextPage, snapshot: &Snapshot<'_>)
    ensures { page.new ≡ put (spec.centre_text snapshot.now) page.old }
{
    put_words(
        page,
        &[
            Word::Text("\ncontrol centre  "),
            Word::EscapedOr(Marks::Plain, snapshot.centre.peer, "not connected"),
            Word::Either(snapshot.centre.is_started, ", started", ""),
            Word::Text(" for "),
        ],
    );
}

/// Puts the queue and the state.
fn put_queue(page: &mut TextPage, snapshot: &Snapshot<'_>)
    ensures { page.new ≡ put (spec.queue_text snapshot.now) page.old }
{
    put_words(
        page,
        &[
            Word::Text("\nqueue           "),
            Word::Number(snapshot.queue.taken),
            Word::Text(" of "),
            Word::Number(snapshot.queue.places),
            Word::Text("\nstate           "),
            Word::Keeps(snapshot.keeping),
        ],
    );
}

/// Puts numbers for a monitor, as it wants them (Nagios, performance data): each with the range
/// above which it calls for a warning and above which it is critical, and what it may be.
fn put_performance(page: &mut TextPage, snapshot: &Snapshot<'_>)
    ensures { page.new ≡ put (spec.performance snapshot.now) page.old }
{
    put_words(
        page,
        &[
            Word::Text(" | stations_up="),
            Word::Number(count_up(snapshot.stations)),
            Word::Text(";;;0;"),
            Word::Number(snapshot.stations.len() as u64),
            Word::Text(" queue="),
            Word::Number(snapshot.queue.taken),
            Word::Text(";"),
            Word::Number(snapshot.queue.places / 2),
            Word::Text(";"),
            Word::Number(unfilled(&snapshot.queue)),
            Word::Text(";0;"),
            Word::Number(snapshot.queue.places),
            Word::Text(" oldest="),
            Word::Number(oldest_seconds(&snapshot.queue)),
            Word::Text("s;;;0"),
        ],
    );
}

/// Puts the version, with what stands before since when it runs.
fn put_version(page: &mut TextPage, snapshot: &Snapshot<'_>)
    ensures { page.new ≡ put (spec.version_text snapshot.now) page.old }
{
    put_words(
        page,
        &[
            Word::Text("\n\nversion         "),
            Word::Escaped(Marks::Plain, snapshot.version),
            Word::Text("\nrunning for     "),
        ],
    );
}

/// Puts the snapshot as a table for a terminal.
pub(crate) fn put_table(page: &mut TextPage, snapshot: &Snapshot<'_>)
    ensures { page.new ≡ put (spec.table_of snapshot.now) page.old }
{
    put_summary(page, snapshot);
    put_performance(page, snapshot);
    put_version(page, snapshot);
    put_age(page, 0, snapshot.now_ms, snapshot.started_ms);
    page.put(LINE.as_bytes());
    put_line(page, Marks::Plain, snapshot);
    put_age(page, 0, snapshot.now_ms, snapshot.line.since_ms);
    put_centre(page, snapshot);
    put_age(page, 0, snapshot.now_ms, snapshot.centre.since_ms);
    put_queue(page, snapshot);
    put_syncs(page, SYNCS, &snapshot.syncs);
    page.put(STATIONS.as_bytes());
    for_silence(page, snapshot.now_ms, true, snapshot.stations);
    for_silence(page, snapshot.now_ms, false, snapshot.stations);
}

/// Puts the rows of those stations that don't answer, or of the others.
fn for_silence(page: &mut TextPage, now_ms: u64, is_silent: bool, stations: &[StationView<'_>])
    ensures { page.new ≡ put (rows (spec.row_if is_silent now_ms) stations.now) page.old }
{
    put_rows(page, &RowForm { now_ms, is_silent }, stations);
}
