//! The reports that stations get while they are played, at the moments of the script's lines.
ghost use Rattle.std.specs.Prelude.{◌≡◌, ◌<◌, ◌≤◌, IfSome, length};
ghost use Rattle.std.specs.Prelude.{if◌then◌else◌};
ghost use Rattle.std.specs.Bool.{OnTrue};
ghost use Rattle.link.specs.Requests.{FitsFrame};
ghost use Rattle.sim.specs.Reporting.{IsReported, LineReports, LinesReport, changed_at};
ghost use Rattle.sim.specs.Reporting.{due_in};
ghost use Rattle.sim.specs.Reporting.{has_room};
ghost use Rattle.sim.specs.Reporting.{with_report};

use super::Outstations;
use crate::directive::Class;
use crate::stations::cue::DueReport;
use link::Station;

/// How many reports wait at a station before it takes no more.
const MOST_WAITING: u64 = 64;

/// The station has this report, if memory is granted.
fn report_to(station: &mut Station, class: Class, report: &[u8]) -> bool
    requires { FitsFrame station.old.size report.now }
    ensures { station.new
        ≡ (if result then with_report class report.now station.old else station.old) }
{
    match class {
        Class::One => station.report1(report).is_ok(),
        Class::Two => station.report2(report).is_ok(),
    }
}

impl Outstations {
    /// Whether fewer reports wait at a station than may.
    fn has_room(&self, station: usize) -> bool
        ensures value { result ≡ has_room station self.now.had self.now.stations }
        ensures here { OnTrue result (station < length self.now.stations) }
        ensures known { OnTrue result (station < length self.now.had) }
    {
        if station >= self.had.len() {
            return false;
        }
        if station >= self.stations.len() {
            return false;
        }
        let waiting = self.had[station].saturating_sub(self.stations[station].given());
        waiting < MOST_WAITING
    }

    /// A station has this report, if memory is granted.
    fn give(&mut self, station: usize, class: Class, report: &[u8]) -> bool
        requires here { station < length self.old.stations }
        requires fits { FitsFrame self.old.size report.now }
        ensures { self.new ≡ (if result then record self.old {
          stations = changed_at station (with_report class report.now) self.old.stations;
        } else self.old) }
    {
        report_to(&mut self.stations[station], class, report)
    }

    /// A station has this report, if there is room and memory is granted. `false` says that it
    /// doesn't have it, and nothing changed.
    pub(crate) fn report(&mut self, station: usize, class: Class, report: &[u8]) -> bool
        requires { FitsFrame self.old.size report.now }
        ensures { IsReported station class report.now self.old result self.new }
    {
        if !self.has_room(station) || !self.give(station, class, report) {
            return false;
        }
        self.had[station] = self.had[station].saturating_add(1);
        true
    }

    /// What the line with this index has due.
    fn due(&self, line: usize, passed: u64) -> Option<DueReport>
        ensures value { result ≡ due_in passed line self.now.cues }
        ensures here { IfSome result (λ _. line < length self.now.cues) }
        ensures fits { IfSome result (λ due. FitsFrame self.now.size due.report) }
    {
        if line >= self.cues.len() {
            return None;
        }
        self.cues[line].due(passed)
    }

    /// The line with this index gives its station the report that it has due, so many ms behind the
    /// start. As long as the station doesn't take it the report waits.
    fn give_report(&mut self, line: usize, passed: u64)
        requires { passed ≤ 999999999999999 }
        ensures { LineReports passed line self.old self.new }
    {
        let Some(due) = self.due(line, passed) else {
            return;
        };
        // One a line waits at most: a slow line makes no queue without an end (docs/DECISIONS.md,
        // "A report that is due").
        if self.report(due.station, due.class, due.report.octets()) {
            self.cues[line].give(passed);
        }
    }

    /// Each line gives its station the report that it has due, so many ms behind the start.
    #[tactic(auto, using(crate::proofs::Reporting::reports_more))]
    pub(crate) fn give_reports(&mut self, passed: u64)
        requires { passed ≤ 999999999999999 }
        ensures { LinesReport passed (length self.old.cues) self.old self.new }
    {
        for line in 0..self.cues.len() {
            self.give_report(line, passed);
        }
    }
}
