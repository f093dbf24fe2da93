//! The snapshot in Prometheus' text format, version 0.0.4.
ghost use Rattle.std.specs.Prelude.{◌≡◌};
ghost use Rattle.status.specs.Metrics as spec;
ghost use Rattle.status.specs.TextPage.{put};

use crate::judging::{cannot_keep, keeps};
use crate::lists::{Form, put_rows};
use crate::page::TextPage;
use crate::snapshot::{Snapshot, StationView};
use crate::texts::{oldest_seconds, seconds};
use crate::words::{Count, Marks, Word, put_words};

/// A number of the whole gateway.
#[derive(Drop)]
struct Gauge<'a> {
    name: &'static str,
    help: &'static str,
    value: Word<'a>,
}

/// A number, behind what it is.
#[derive(Drop)]
struct GaugeForm;

impl Form<Gauge<'_>> for GaugeForm {
    ghost text = { λ _ gauge. spec.text_of_gauge gauge };

    fn put(&self, page: &mut TextPage, gauge: &Gauge<'_>) {
        put_words(
            page,
            &[
                Word::Text("# HELP "),
                Word::Text(gauge.name),
                Word::Text(" "),
                Word::Text(gauge.help),
                Word::Text("\n# TYPE "),
                Word::Text(gauge.name),
                Word::Text(" gauge\n"),
                Word::Text(gauge.name),
                Word::Text(" "),
                gauge.value,
                Word::Text("\n"),
            ],
        );
    }
}

/// What each station has a number of.
#[derive(Drop)]
struct Family {
    name: &'static str,
    help: &'static str,
    /// `gauge` or `counter`.
    kind: &'static str,
    count: Count,
}

/// The number of a station.
#[derive(Drop)]
struct SampleForm {
    name: &'static str,
    count: Count,
}

impl Form<StationView<'_>> for SampleForm {
    ghost text = { λ form station. spec.text_of_sample form.name.now form.count station };

    fn put(&self, page: &mut TextPage, station: &StationView<'_>) {
        put_words(
            page,
            &[
                Word::Text(self.name),
                Word::Text("{station=\""),
                Word::Address(station.address),
                Word::Text("\"} "),
                Word::Counted(self.count, station),
                Word::Text("\n"),
            ],
        );
    }
}

/// The numbers of all stations, behind what they are.
#[derive(Drop)]
struct FamilyForm<'a> {
    stations: &'a [StationView<'a>],
}

/// Puts what the numbers of stations are.
fn put_head(page: &mut TextPage, family: &Family)
    ensures { page.new ≡ put (spec.head_of_family family.now) page.old }
{
    put_words(
        page,
        &[
            Word::Text("# HELP "),
            Word::Text(family.name),
            Word::Text(" "),
            Word::Text(family.help),
            Word::Text("\n# TYPE "),
            Word::Text(family.name),
            Word::Text(" "),
            Word::Text(family.kind),
            Word::Text("\n"),
        ],
    );
}

impl Form<Family> for FamilyForm<'_> {
    ghost text = { λ form family. spec.text_of_family form.stations.now family };

    fn put(&self, page: &mut TextPage, family: &Family) {
        put_head(page, family);
        let form = SampleForm {
            name: family.name,
            count: family.count,
        };
        put_rows(page, &form, self.stations);
    }
}

/// What a station is called, as a number that is always 1.
#[derive(Drop)]
struct InfoForm;

impl Form<StationView<'_>> for InfoForm {
    ghost text = { λ _ station. spec.text_of_info station };

    fn put(&self, page: &mut TextPage, station: &StationView<'_>) {
        put_words(
            page,
            &[
                // Apart from the numbers: a name among their labels would begin new series when it
                // is changed.
                Word::Text("telegate_station_info{station=\""),
                Word::Address(station.address),
                Word::Text("\",common_address=\""),
                Word::Address(station.common_address),
                Word::Text("\",name=\""),
                Word::Escaped(Marks::Label, station.name),
                Word::Text("\"} 1\n"),
            ],
        );
    }
}

/// Puts the version and the name of the line, and what stands before the names of stations.
fn put_build(page: &mut TextPage, snapshot: &Snapshot<'_>)
    ensures { page.new ≡ put (spec.build_text snapshot.now) page.old }
{
    put_words(
        page,
        &[
            Word::Text("# HELP telegate_build_info Version of the gateway.\n"),
            Word::Text("# TYPE telegate_build_info gauge\ntelegate_build_info{version=\""),
            Word::Escaped(Marks::Label, snapshot.version),
            Word::Text("\"} 1\n"),
            Word::Text("# HELP telegate_line_info Name of the line.\n"),
            Word::Text("# TYPE telegate_line_info gauge\ntelegate_line_info{name=\""),
            Word::Escaped(Marks::Label, snapshot.name),
            Word::Text("\"} 1\n"),
            Word::Text("# HELP telegate_station_info Names of the outstations.\n"),
            Word::Text("# TYPE telegate_station_info gauge\n"),
        ],
    );
}

/// Puts the numbers of the whole gateway.
fn put_gauges(page: &mut TextPage, snapshot: &Snapshot<'_>)
    ensures { page.new ≡ put (spec.gauges_text snapshot.now) page.old }
{
    let gauges = [
        Gauge {
            name: "telegate_uptime_seconds",
            help: "How long the process has been running.",
            value: Word::Number(seconds(snapshot.now_ms, snapshot.started_ms)),
        },
        Gauge {
            name: "telegate_moment_seconds",
            help: "The moment of the run.",
            value: Word::Number(seconds(snapshot.now_ms, 0)),
        },
        Gauge {
            name: "telegate_line_up",
            help: "Whether the serial line can be reached.",
            value: Word::Either(snapshot.line.is_there, "1", "0"),
        },
        Gauge {
            name: "telegate_centre_connected",
            help: "Whether a control centre is connected.",
            value: Word::Either(snapshot.centre.peer.is_some(), "1", "0"),
        },
        Gauge {
            name: "telegate_centre_started",
            help: "Whether data transfer to the control centre is started.",
            value: Word::Either(snapshot.centre.is_started, "1", "0"),
        },
        Gauge {
            name: "telegate_centre_unacknowledged",
            help: "Pieces that the control centre has not acknowledged yet.",
            value: Word::Number(snapshot.centre.unacknowledged),
        },
        Gauge {
            name: "telegate_queue_places",
            help: "Places that the queue has.",
            value: Word::Number(snapshot.queue.places),
        },
        Gauge {
            name: "telegate_queue_taken",
            help: "Places of the queue that are taken.",
            value: Word::Number(snapshot.queue.taken),
        },
        Gauge {
            name: "telegate_queue_oldest_seconds",
            help: "How long the oldest queued report has waited at least, 0 without one.",
            value: Word::Number(oldest_seconds(&snapshot.queue)),
        },
    ];
    put_rows(page, &GaugeForm, &gauges);
}

/// Puts how the state is kept.
fn put_keeping(page: &mut TextPage, snapshot: &Snapshot<'_>)
    ensures { page.new ≡ put (spec.keeping_text snapshot.now) page.old }
{
    let gauges = [
        Gauge {
            name: "telegate_state_kept",
            help: "Whether the state is kept on the disk.",
            value: Word::Either(keeps(snapshot.keeping), "1", "0"),
        },
        Gauge {
            name: "telegate_state_lost",
            help: "Whether the state is to be kept on the disk and can not be.",
            value: Word::Either(cannot_keep(snapshot.keeping), "1", "0"),
        },
        Gauge {
            name: "telegate_latest_sync_seconds",
            help: "How long the latest sync of the state took, 0 before the first.",
            value: Word::Thousandths(snapshot.syncs.latest_ms),
        },
        Gauge {
            name: "telegate_longest_sync_seconds",
            help: "How long the longest slow sync of the state took.",
            value: Word::Thousandths(snapshot.syncs.longest_ms),
        },
    ];
    put_rows(page, &GaugeForm, &gauges);
}

/// Puts how many syncs of the state were slow.
fn put_syncs(page: &mut TextPage, snapshot: &Snapshot<'_>)
    ensures { page.new ≡ put (spec.syncs_text snapshot.now) page.old }
{
    put_words(
        page,
        &[
            Word::Text("# HELP telegate_slow_syncs_total Syncs of the state of 100 ms or more.\n"),
            Word::Text("# TYPE telegate_slow_syncs_total counter\ntelegate_slow_syncs_total "),
            Word::Number(snapshot.syncs.count),
            Word::Text("\n"),
        ],
    );
}

/// Puts the numbers of the stations.
fn put_families(page: &mut TextPage, stations: &[StationView<'_>])
    ensures { page.new ≡ put (spec.families_text stations.now) page.old }
{
    let families = [
        Family {
            name: "telegate_station_up",
            help: "Whether the outstation answers.",
            kind: "gauge",
            count: Count::Up,
        },
        Family {
            name: "telegate_station_reports_total",
            help: "Reports that the outstation has given.",
            kind: "counter",
            count: Count::Reports,
        },
        Family {
            name: "telegate_station_skipped_total",
            help: "Reports of the outstation that could not be used.",
            kind: "counter",
            count: Count::Skipped,
        },
        Family {
            name: "telegate_station_gaps_total",
            help: "How often reports of the outstation may have been lost.",
            kind: "counter",
            count: Count::Gaps,
        },
        Family {
            name: "telegate_station_commands_total",
            help: "Commands that went to the outstation.",
            kind: "counter",
            count: Count::Commands,
        },
    ];
    put_rows(page, &FamilyForm { stations }, &families);
}

/// Puts when the stations reported, and how well they answer.
fn put_quality(page: &mut TextPage, stations: &[StationView<'_>])
    ensures { page.new ≡ put (spec.quality_text stations.now) page.old }
{
    let families = [
        Family {
            name: "telegate_station_last_report_seconds",
            help: "The moment of the last report, 0 before the first.",
            kind: "gauge",
            count: Count::LastReport,
        },
        Family {
            name: "telegate_station_requests_total",
            help: "Requests to the outstation.",
            kind: "counter",
            count: Count::Requests,
        },
        Family {
            name: "telegate_station_repeats_total",
            help: "Requests that were the one before again.",
            kind: "counter",
            count: Count::Repeats,
        },
        Family {
            name: "telegate_station_unanswered_total",
            help: "Requests without an answer to any of their repeats.",
            kind: "counter",
            count: Count::Unanswered,
        },
        Family {
            name: "telegate_station_spoilt_total",
            help: "How often something else came than an answer.",
            kind: "counter",
            count: Count::Spoilt,
        },
        Family {
            name: "telegate_station_late_total",
            help: "Answers that came when their exchange was over.",
            kind: "counter",
            count: Count::Late,
        },
    ];
    put_rows(page, &FamilyForm { stations }, &families);
}

/// Puts the snapshot in Prometheus' text format.
pub(crate) fn put_metrics(page: &mut TextPage, snapshot: &Snapshot<'_>)
    ensures { page.new ≡ put (spec.metrics_of snapshot.now) page.old }
{
    put_build(page, snapshot);
    put_rows(page, &InfoForm, snapshot.stations);
    put_gauges(page, snapshot);
    put_keeping(page, snapshot);
    put_syncs(page, snapshot);
    put_families(page, snapshot.stations);
    put_quality(page, snapshot.stations);
}
