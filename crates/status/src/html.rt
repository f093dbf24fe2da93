//! The snapshot as a page for a person: HTML without a script, and with nothing from elsewhere.
ghost use Rattle.std.specs.Prelude.{◌≡◌, ◌≤◌};
ghost use Rattle.status.specs.Html as spec;
ghost use Rattle.status.specs.TextPage.{put};
ghost use Rattle.status.specs.Words.{rows};

use crate::judging::{is_silent, judge, unfilled};
use crate::latest::{name_about, put_time, time_of};
use crate::lists::{Form, put_rows};
use crate::page::TextPage;
use crate::snapshot::{EventView, Setting, Snapshot, StationView};
use crate::texts::{put_age, put_age_or, put_line, put_oldest, put_summary, put_syncs};
use crate::words::{Marks, Word, put_words};

/// What the page begins with. It fits a telephone, is light or dark as its reader has it, and is
/// fetched anew every five seconds.
const HEAD: &str = "<!doctype html>\n<html lang=\"en\">\n<head>\n<meta charset=\"utf-8\">\n\
<meta name=\"viewport\" content=\"width=device-width, initial-scale=1\">\n\
<meta http-equiv=\"refresh\" content=\"5\">\n<title>";

/// What stands between the title and the heading. Each word of a standing is a class of its row.
const STYLE: &str = "</title>\n<style>\n\
:root { color-scheme: light dark; --line: #ccc; --good: #1a7f37; --bad: #c62828; --warn: #9a6700;\
 --soft: #666 }\n\
@media (prefers-color-scheme: dark) {\n\
:root { --line: #444; --good: #4ac26b; --bad: #ff7b72; --warn: #d29922;\
 --soft: #aaa } }\n\
body { font: 15px/1.4 system-ui, sans-serif; margin: 1rem auto; max-width: 72rem;\
 padding: 0 1rem }\n\
h1 { font-size: 1.3rem } h2 { font-size: 1rem; margin: 1.5rem 0 .3rem }\n\
p.OK { color: var(--good) } p.WARNING, p.CRITICAL { color: var(--bad) }\n\
.scroll { overflow-x: auto } .more { display: none }\n\
table { border-collapse: collapse; white-space: nowrap }\n\
th, td { border-bottom: 1px solid var(--line); padding: .25rem .8rem .25rem 0; text-align: left }\n\
th { color: var(--soft); font-weight: 500 }\n\
td.n { font-variant-numeric: tabular-nums; text-align: right }\n\
tr.up td.s, tr.notice td.e { color: var(--good) }\n\
tr.reply td.s, tr.down td.s, tr.error td.e { color: var(--bad) }\n\
tr.warning td.e { color: var(--warn) } td.e { white-space: normal }\n\
meter { width: 7rem }\n\
.hour { position: relative; max-width: 30rem; margin: 0 1rem 2.5rem .5rem }\n\
svg { border: 1px solid var(--line); display: block; height: 5rem; width: 100% }\n\
path { fill: var(--soft) }\n\
.hour b, .hour span { position: absolute; font-size: .8rem; font-weight: 400 }\n\
.hour b { left: .2rem; bottom: 0 } .hour b:first-of-type { top: 0 }\n\
.hour span { top: 0; width: 3rem; margin-left: -1.5rem; padding-top: 5.2rem; text-align: center;\
 background: linear-gradient(var(--line), var(--line)) 50% 0 / 1px 5.1rem no-repeat }\n\
.hour .h { font-weight: 600; background-size: 3px 5.1rem }\n\
@media (max-width: 75rem) { th { white-space: normal } td:first-child { white-space: normal } }\n\
@media (max-width: 48rem) {\n\
th, td { white-space: normal; padding-right: .5rem } td.n { white-space: nowrap }\n\
.stations td, .stations th { background: Canvas }\n\
.stations :is(td, th):first-child { min-width: 8rem; position: sticky; left: 0 }\n\
.stations :is(td, th):nth-child(4) { position: sticky; left: 8.5rem; right: 0; z-index: 1;\
 border-left: 1px solid var(--line); padding-left: .3rem }\n\
.more { display: block; color: var(--soft); margin: 0 } }\n\
</style>\n</head>\n<body>\n<h1>";

/// What stands before the slow syncs.
const SYNCS: &str = "</td></tr>\n<tr><th>slow syncs</th><td>";

/// What the table of stations begins with.
const STATIONS: &str = "</table>\n<h2>Stations</h2>\n\
<p class=\"more\">more columns: to the side</p>\n\
<div class=\"scroll\"><table class=\"stations\">\n<tr><th>name</th>\
<th>address</th><th>common address</th><th>standing</th><th>since</th><th>last report</th>\
<th>reports</th><th>skipped</th><th>gaps</th><th>commands</th></tr>\n";

/// What stands before how the line is.
const LINE: &str = "</td></tr>\n<tr><th>line</th><td>";

/// What the table of events begins with.
const EVENTS: &str = "</table></div>\n<h2>Latest events</h2>\n<table>\n\
<tr><th>UTC</th><th>ago</th><th>event</th></tr>\n";

/// What stands before the queue in the last hour.
const HOUR: &str = "</table>\n<h2>Queue in the last hour</h2>\n\
<div class=\"hour\"><svg viewBox=\"0 0 60 100\" preserveAspectRatio=\"none\"><path d=\"M";

/// What the table of settings begins with.
const SETTINGS: &str = "</div>\n<h2>Settings in force</h2>\n<div class=\"scroll\"><table>\n";

/// How many minutes a chart shows.
const CHART: u64 = 60;

/// What the page ends with.
const END: &str = "</table></div>\n</body>\n</html>\n";

/// A station as a row, if it doesn't answer, or else if it does.
#[derive(Drop)]
struct RowForm {
    now_ms: u64,
    is_silent: bool,
}

/// Puts whose row it is, and how it stands.
fn put_row_head(page: &mut TextPage, station: &StationView<'_>)
    ensures { page.new ≡ put (spec.row_head station.now) page.old }
{
    put_words(
        page,
        &[
            Word::Text("<tr class=\""),
            Word::Stands(station.standing),
            Word::Text("\"><td>"),
            Word::Escaped(Marks::Html, station.name),
            Word::Text("</td><td class=\"n\">"),
            Word::Address(station.address),
            Word::Text("</td><td class=\"n\">"),
            Word::Address(station.common_address),
            Word::Text("</td><td class=\"s\">"),
            Word::Stands(station.standing),
            Word::Text("</td><td class=\"n\">"),
        ],
    );
}

/// Puts what was counted of a station.
fn put_row_counts(page: &mut TextPage, station: &StationView<'_>)
    ensures { page.new ≡ put (spec.row_counts station.now) page.old }
{
    put_words(
        page,
        &[
            Word::Text("</td><td class=\"n\">"),
            Word::Number(station.reports),
            Word::Text("</td><td class=\"n\">"),
            Word::Number(station.skipped),
            Word::Text("</td><td class=\"n\">"),
            Word::Number(station.gaps),
            Word::Text("</td><td class=\"n\">"),
            Word::Number(station.commands),
            Word::Text("</td></tr>\n"),
        ],
    );
}

impl Form<StationView<'_>> for RowForm {
    ghost text = { λ form station. spec.row_if form.is_silent form.now_ms station };

    fn put(&self, page: &mut TextPage, station: &StationView<'_>) {
        if is_silent(station) == self.is_silent {
            put_row(page, self.now_ms, station);
        }
    }
}

/// Puts a station as a row.
fn put_row(page: &mut TextPage, now_ms: u64, station: &StationView<'_>)
    ensures { page.new ≡ put (spec.text_of_row now_ms station.now) page.old }
{
    put_row_head(page, station);
    put_age(page, 0, now_ms, station.since_ms);
    page.put(b"</td><td class=\"n\">");
    put_age_or(page, 0, now_ms, station.last_report_ms, "none");
    put_row_counts(page, station);
}

/// A setting as a row.
#[derive(Drop)]
struct SettingForm;

impl Form<Setting<'_>> for SettingForm {
    ghost text = { λ _ setting. spec.text_of_setting setting };

    fn put(&self, page: &mut TextPage, setting: &Setting<'_>) {
        put_words(
            page,
            &[
                Word::Text("<tr><th>"),
                Word::Escaped(Marks::Html, setting.key),
                Word::Text("</th><td>"),
                Word::Escaped(Marks::Html, setting.value),
                Word::Text("</td></tr>\n"),
            ],
        );
    }
}

/// How full a queue with these places was, as a step of a path: the number of its pieces.
#[derive(Drop)]
struct StepForm {
    places: u64,
}

/// How far from the top a step is, in percent of the height. One piece is seen, too.
fn depth(places: u64, taken: u64) -> u64
    ensures { result ≡ spec.depth places taken }
{
    if places == 0 {
        return 100;
    }
    // In 128 bits, since a hundred times a number of 64 bits may not fit these.
    (u128::from(places.saturating_sub(taken)) * 100 / u128::from(places)) as u64
}

impl Form<u64> for StepForm {
    ghost text = { λ form taken. spec.text_of_step form.places taken };

    fn put(&self, page: &mut TextPage, taken: &u64) {
        put_words(
            page,
            &[
                Word::Text("V"),
                Word::Number(depth(self.places, *taken)),
                Word::Text("h1"),
            ],
        );
    }
}

/// Puts what the page begins with, up to its line in words.
fn put_head(page: &mut TextPage, snapshot: &Snapshot<'_>)
    ensures { page.new ≡ put (spec.head_text snapshot.now) page.old }
{
    let is_nameless = snapshot.name.is_empty();
    put_words(
        page,
        &[
            Word::Text(HEAD),
            Word::Escaped(Marks::Html, snapshot.name),
            Word::Either(is_nameless, "telegate", ""),
            Word::Text(STYLE),
            Word::Escaped(Marks::Html, snapshot.name),
            Word::Either(is_nameless, "telegate", ""),
            Word::Text("</h1>\n<p class=\""),
            Word::Judged(judge(snapshot)),
            Word::Text("\">"),
        ],
    );
}

/// Puts how the control centre is, with what stands before since when.
fn put_centre(page: &mut TextPage, snapshot: &Snapshot<'_>)
    ensures { page.new ≡ put (spec.centre_text snapshot.now) page.old }
{
    put_words(
        page,
        &[
            Word::Text("</td></tr>\n<tr><th>control centre</th><td>"),
            Word::EscapedOr(Marks::Html, snapshot.centre.peer, "not connected"),
            Word::Either(snapshot.centre.is_started, ", started", ""),
            Word::Text(" for "),
        ],
    );
}

/// Puts the state.
fn put_state(page: &mut TextPage, snapshot: &Snapshot<'_>)
    ensures { page.new ≡ put (spec.state_text snapshot.now) page.old }
{
    put_words(
        page,
        &[
            Word::Text("</td></tr>\n<tr><th>state</th><td>"),
            Word::Keeps(snapshot.keeping),
        ],
    );
}

/// The most places that may be taken while the queue is shown as good: less than 80 %.
fn good_queue(places: u64) -> u64
    ensures { result ≡ spec.good_queue places }
{
    ((u128::from(places) * 4 / 5) as u64).saturating_sub(1)
}

/// Puts how many places of the queue are taken.
fn put_taken(page: &mut TextPage, snapshot: &Snapshot<'_>)
    ensures { page.new ≡ put (spec.taken_text snapshot.now) page.old }
{
    put_words(
        page,
        &[
            Word::Text("</td></tr>\n<tr><th>queue</th><td>"),
            Word::Number(snapshot.queue.taken),
            Word::Text(" of "),
            Word::Number(snapshot.queue.places),
        ],
    );
}

/// Puts the same as a meter.
fn put_meter(page: &mut TextPage, snapshot: &Snapshot<'_>)
    ensures { page.new ≡ put (spec.meter_text snapshot.now) page.old }
{
    let places = snapshot.queue.places;
    put_words(
        page,
        &[
            // Its reader has colours for three parts, of which the lowest is the best.
            Word::Text(" <meter min=\"0\" optimum=\"0\" low=\""),
            Word::Number(good_queue(places)),
            Word::Text("\" high=\""),
            Word::Number(unfilled(&snapshot.queue)),
            Word::Text("\" max=\""),
            Word::Number(places),
            Word::Text("\" value=\""),
            Word::Number(snapshot.queue.taken),
            Word::Text("\"></meter></td></tr>\n"),
        ],
    );
}

/// Puts the version as a row before the settings.
fn put_version(page: &mut TextPage, snapshot: &Snapshot<'_>)
    ensures { page.new ≡ put (spec.version_text snapshot.now) page.old }
{
    put_words(
        page,
        &[
            Word::Text(SETTINGS),
            Word::Text("<tr><th>telegate</th><td>"),
            Word::Escaped(Marks::Html, snapshot.version),
            Word::Text("</td></tr>\n"),
        ],
    );
}

/// Puts the rows of the stations, those first that don't answer.
fn put_stations(page: &mut TextPage, snapshot: &Snapshot<'_>)
    ensures { page.new ≡ put (spec.stations_text snapshot.now) page.old }
{
    let now_ms = snapshot.now_ms;
    page.put(STATIONS.as_bytes());
    for_silence(page, now_ms, true, snapshot.stations);
    for_silence(page, now_ms, false, snapshot.stations);
}

/// Puts the rows of those stations that don't answer, or of the others.
fn for_silence(page: &mut TextPage, now_ms: u64, is_silent: bool, stations: &[StationView<'_>])
    ensures { page.new ≡ put (rows (spec.row_if is_silent now_ms) stations.now) page.old }
{
    put_rows(page, &RowForm { now_ms, is_silent }, stations);
}

/// A line of the log as a row.
#[derive(Drop)]
struct EventForm<'s> {
    snapshot: &'s Snapshot<'s>,
}

/// Puts the name of what a line is about behind its words, if that has one.
fn put_name(page: &mut TextPage, name: &str)
    ensures { page.new ≡ put (spec.name_text name.now) page.old }
{
    let is_nameless = name.is_empty();
    put_words(
        page,
        &[
            Word::Either(is_nameless, "", " ["),
            Word::Escaped(Marks::Html, name),
            Word::Either(is_nameless, "", "]"),
            Word::Text("</td></tr>\n"),
        ],
    );
}

impl Form<EventView> for EventForm<'_> {
    ghost text = { λ form event. spec.text_of_event form.snapshot.now event };

    fn put(&self, page: &mut TextPage, event: &EventView) {
        put_words(
            page,
            &[
                Word::Text("<tr class=\""),
                Word::Severe(event.severity),
                Word::Text("\"><td class=\"n\">"),
            ],
        );
        put_time(page, time_of(self.snapshot, event.moment_ms));
        page.put(b"</td><td class=\"n\">");
        put_age(page, 0, self.snapshot.now_ms, event.moment_ms);
        put_words(
            page,
            &[
                Word::Text("</td><td class=\"e\">"),
                Word::Escaped(Marks::Html, event.text.as_str()),
            ],
        );
        put_name(page, name_about(self.snapshot, event.about));
    }
}

/// Puts the latest lines of the log.
fn put_events(page: &mut TextPage, snapshot: &Snapshot<'_>)
    ensures { page.new ≡ put (spec.events_text snapshot.now) page.old }
{
    page.put(EVENTS.as_bytes());
    put_rows(page, &EventForm { snapshot }, snapshot.latest);
}

/// Puts a mark below the chart: the latest quarter of an hour before this minute since 1970, or one
/// so many minutes before that.
fn put_mark(page: &mut TextPage, minute: u64, before: u64)
    requires { before ≤ 45 }
    ensures { page.new ≡ put (spec.mark_text minute before) page.old }
{
    let passed = minute % 15 + before;
    let marked = minute.saturating_sub(passed);
    put_words(
        page,
        &[
            Word::Text("<span"),
            Word::Either(marked % 60 == 0, " class=\"h\"", ""),
            Word::Text(" style=\"left:"),
            Word::Number((CHART - passed) * 100 / CHART),
            Word::Text("%\">"),
            Word::TwoDigits(marked / 60 % 24),
            Word::Text(":"),
            Word::TwoDigits(marked % 60),
            Word::Text("</span>"),
        ],
    );
}

/// Puts a mark for each quarter of the hour before this minute since 1970.
fn put_quarters(page: &mut TextPage, minute: u64)
    ensures { page.new ≡ put (spec.quarters_text minute) page.old }
{
    put_mark(page, minute, 45);
    put_mark(page, minute, 30);
    put_mark(page, minute, 15);
    put_mark(page, minute, 0);
}

/// The same of the last hour, if the time is known.
fn put_marks(page: &mut TextPage, wall_ms: Option<u64>)
    ensures { page.new ≡ put (spec.marks_text wall_ms) page.old }
{
    match wall_ms {
        Some(wall_ms) => put_quarters(page, wall_ms / 60_000),
        None => page.put(&[]),
    }
}

/// Puts how full the queue was in the last hour, up to now at the right.
fn put_hour(page: &mut TextPage, snapshot: &Snapshot<'_>)
    ensures { page.new ≡ put (spec.hour_text snapshot.now) page.old }
{
    let places = snapshot.queue.places;
    let shown = snapshot.queue.hour.len() as u64;
    put_words(
        page,
        &[
            Word::Text(HOUR),
            Word::Number(CHART.saturating_sub(shown)),
            Word::Text(" 100"),
        ],
    );
    put_rows(page, &StepForm { places }, snapshot.queue.hour);
    put_words(
        page,
        &[
            Word::Text("V100z\"/></svg><b>"),
            Word::Number(places),
            Word::Text("</b><b>0</b>"),
        ],
    );
    put_marks(page, snapshot.wall_ms);
}

/// Puts how all is, row by row.
fn put_whole(page: &mut TextPage, snapshot: &Snapshot<'_>)
    ensures { page.new ≡ put (spec.whole_text snapshot.now) page.old }
{
    let now_ms = snapshot.now_ms;
    page.put(b"</p>\n<table>\n<tr><th>running for</th><td>");
    put_age(page, 0, now_ms, snapshot.started_ms);
    page.put(LINE.as_bytes());
    put_line(page, Marks::Html, snapshot);
    put_age(page, 0, now_ms, snapshot.line.since_ms);
    put_centre(page, snapshot);
    put_age(page, 0, now_ms, snapshot.centre.since_ms);
    put_state(page, snapshot);
    put_syncs(page, SYNCS, &snapshot.syncs);
    put_taken(page, snapshot);
    put_oldest(page, snapshot.queue.oldest_ms);
    put_meter(page, snapshot);
}

/// Puts the snapshot as a page for a person.
pub(crate) fn put_html(page: &mut TextPage, snapshot: &Snapshot<'_>)
    ensures { page.new ≡ put (spec.html_of snapshot.now) page.old }
{
    put_head(page, snapshot);
    put_summary(page, snapshot);
    put_whole(page, snapshot);
    put_stations(page, snapshot);
    put_events(page, snapshot);
    put_hour(page, snapshot);
    put_version(page, snapshot);
    put_rows(page, &SettingForm, snapshot.settings);
    page.put(END.as_bytes());
}
