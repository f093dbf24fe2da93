//! The snapshot as JSON (RFC 8259).
ghost use Rattle.std.specs.Prelude.{◌≡◌};
ghost use Rattle.std.specs.Fmt.{decimal};
ghost use Rattle.status.specs.TextPage.{put};
ghost use Rattle.status.specs.Json as spec;

use crate::judging::judge;
use crate::latest::{name_about, time_of};
use crate::lists::{Form, put_listed};
use crate::page::TextPage;
use crate::snapshot::{EventView, Setting, Snapshot, StationView};
use crate::texts::put_summary;
use crate::words::{Marks, Word, put_words};

/// Numbers as they are.
#[derive(Drop)]
struct NumberForm;

impl Form<u64> for NumberForm {
    ghost text = { λ _ n. decimal n };

    fn put(&self, page: &mut TextPage, number: &u64) {
        put_words(page, &[Word::Number(*number)]);
    }
}

/// A station as an object.
#[derive(Drop)]
struct StationForm;

impl Form<StationView<'_>> for StationForm {
    ghost text = { λ _ station. spec.json_of_station station };

    fn put(&self, page: &mut TextPage, station: &StationView<'_>) {
        put_words(
            page,
            &[
                Word::Text("{\"name\":\""),
                Word::Escaped(Marks::Json, station.name),
                Word::Text("\",\"address\":"),
                Word::Address(station.address),
                Word::Text(",\"common_address\":"),
                Word::Address(station.common_address),
                Word::Text(",\"standing\":\""),
                Word::Stands(station.standing),
                Word::Text("\",\"since_ms\":"),
                Word::Number(station.since_ms),
                Word::Text(",\"last_report_ms\":"),
                Word::NumberOr(station.last_report_ms, "null"),
                Word::Text(",\"reports\":"),
                Word::Number(station.reports),
                Word::Text(",\"skipped\":"),
                Word::Number(station.skipped),
                Word::Text(",\"gaps\":"),
                Word::Number(station.gaps),
                Word::Text(",\"commands\":"),
                Word::Number(station.commands),
                Word::Text(",\"requests\":"),
                Word::Number(station.requests.sent),
                Word::Text(",\"repeats\":"),
                Word::Number(station.requests.repeats),
                Word::Text(",\"unanswered\":"),
                Word::Number(station.requests.unanswered),
                Word::Text(",\"spoilt\":"),
                Word::Number(station.spoilt),
                Word::Text(",\"late\":"),
                Word::Number(station.late),
                Word::Text("}"),
            ],
        );
    }
}

/// A setting as a member of an object.
#[derive(Drop)]
struct SettingForm;

impl Form<Setting<'_>> for SettingForm {
    ghost text = { λ _ setting. spec.json_of_setting setting };

    fn put(&self, page: &mut TextPage, setting: &Setting<'_>) {
        put_words(
            page,
            &[
                Word::Text("\""),
                Word::Escaped(Marks::Json, setting.key),
                Word::Text("\":\""),
                Word::Escaped(Marks::Json, setting.value),
                Word::Text("\""),
            ],
        );
    }
}

/// A line of the log as an object.
#[derive(Drop)]
struct EventForm<'s> {
    snapshot: &'s Snapshot<'s>,
}

/// Puts what stands before the words of a line.
fn put_event_head(page: &mut TextPage, event: &EventView, wall_ms: Option<u64>)
    ensures { page.new ≡ put (spec.event_head event.now wall_ms) page.old }
{
    put_words(
        page,
        &[
            Word::Text("{\"moment_ms\":"),
            Word::Number(event.moment_ms),
            Word::Text(",\"wall_ms\":"),
            Word::NumberOr(wall_ms, "null"),
            Word::Text(",\"severity\":\""),
            Word::Severe(event.severity),
            Word::Text("\""),
        ],
    );
}

impl Form<EventView> for EventForm<'_> {
    ghost text = { λ form event. spec.json_of_event form.snapshot.now event };

    fn put(&self, page: &mut TextPage, event: &EventView) {
        put_event_head(page, event, time_of(self.snapshot, event.moment_ms));
        page.put(b",\"line\":");
        put_string(page, event.text.as_str());
        page.put(b",\"name\":");
        put_string(page, name_about(self.snapshot, event.about));
        page.put(b"}");
    }
}

/// Puts a text as a string.
fn put_string(page: &mut TextPage, text: &str)
    ensures { page.new ≡ put (spec.json_string text.now) page.old }
{
    put_words(
        page,
        &[
            Word::Text("\""),
            Word::Escaped(Marks::Json, text),
            Word::Text("\""),
        ],
    );
}

/// Puts a text as a string, or null.
fn put_text(page: &mut TextPage, text: Option<&str>)
    ensures { page.new ≡ put (spec.json_of_text text.entry) page.old }
{
    match text {
        Some(text) => put_string(page, text),
        None => page.put(b"null"),
    }
}

fn put_before_summary(page: &mut TextPage, snapshot: &Snapshot<'_>)
    ensures { page.new ≡ put (spec.json_before_summary snapshot.now) page.old }
{
    put_words(
        page,
        &[
            Word::Text("{\"version\":\""),
            Word::Escaped(Marks::Json, snapshot.version),
            Word::Text("\",\"judgement\":\""),
            Word::Judged(judge(snapshot)),
            Word::Text("\",\"summary\":\""),
        ],
    );
}

fn put_before_cause(page: &mut TextPage, snapshot: &Snapshot<'_>)
    ensures { page.new ≡ put (spec.json_before_cause snapshot.now) page.old }
{
    put_words(
        page,
        &[
            Word::Text("\",\"now_ms\":"),
            Word::Number(snapshot.now_ms),
            Word::Text(",\"started_ms\":"),
            Word::Number(snapshot.started_ms),
            Word::Text(",\"wall_ms\":"),
            Word::NumberOr(snapshot.wall_ms, "null"),
            Word::Text(",\"line\":{\"name\":\""),
            Word::Escaped(Marks::Json, snapshot.name),
            Word::Text("\",\"there\":"),
            Word::Either(snapshot.line.is_there, "true", "false"),
            Word::Text(",\"was_there\":"),
            Word::Either(snapshot.line.was_there, "true", "false"),
            Word::Text(",\"since_ms\":"),
            Word::Number(snapshot.line.since_ms),
            Word::Text(",\"cause\":"),
        ],
    );
}

fn put_before_hour(page: &mut TextPage, snapshot: &Snapshot<'_>)
    ensures { page.new ≡ put (spec.json_before_hour snapshot.now) page.old }
{
    put_words(
        page,
        &[
            Word::Text(",\"started\":"),
            Word::Either(snapshot.centre.is_started, "true", "false"),
            Word::Text(",\"since_ms\":"),
            Word::Number(snapshot.centre.since_ms),
            Word::Text(",\"unacknowledged\":"),
            Word::Number(snapshot.centre.unacknowledged),
            Word::Text("},\"queue\":{\"taken\":"),
            Word::Number(snapshot.queue.taken),
            Word::Text(",\"places\":"),
            Word::Number(snapshot.queue.places),
            Word::Text(",\"oldest_ms\":"),
            Word::NumberOr(snapshot.queue.oldest_ms, "null"),
            Word::Text(",\"hour\":["),
        ],
    );
}

fn put_before_stations(page: &mut TextPage, snapshot: &Snapshot<'_>)
    ensures { page.new ≡ put (spec.json_before_stations snapshot.now) page.old }
{
    put_words(
        page,
        &[
            Word::Text("]},\"state\":\""),
            Word::Keeps(snapshot.keeping),
            Word::Text("\",\"latest_sync_ms\":"),
            Word::Number(snapshot.syncs.latest_ms),
            Word::Text(",\"slow_syncs\":{\"count\":"),
            Word::Number(snapshot.syncs.count),
            Word::Text(",\"last_ms\":"),
            Word::Number(snapshot.syncs.last_ms),
            Word::Text(",\"longest_ms\":"),
            Word::Number(snapshot.syncs.longest_ms),
            Word::Text("},\"stations\":["),
        ],
    );
}

/// Puts the snapshot as JSON.
pub(crate) fn put_json(page: &mut TextPage, snapshot: &Snapshot<'_>)
    ensures { page.new ≡ put (spec.json_of snapshot.now) page.old }
{
    put_before_summary(page, snapshot);
    put_summary(page, snapshot);
    put_before_cause(page, snapshot);
    put_text(page, snapshot.line.cause);
    page.put(b"},\"centre\":{\"peer\":");
    put_text(page, snapshot.centre.peer);
    put_before_hour(page, snapshot);
    put_listed(page, &NumberForm, snapshot.queue.hour);
    put_before_stations(page, snapshot);
    put_listed(page, &StationForm, snapshot.stations);
    page.put(b"],\"latest\":[");
    put_listed(page, &EventForm { snapshot }, snapshot.latest);
    page.put(b"],\"settings\":{");
    put_listed(page, &SettingForm, snapshot.settings);
    page.put(b"}}\n");
}
