//! The stations of a line as they begin.
ghost use Rattle.std.specs.Prelude.{◌≡◌, IfOk, OnOk};
ghost use Rattle.std.specs.List.{AllByRecursion, flat_map};
ghost use Rattle.sim.specs.declared.directive.Class.TheVariants.{One, Two};
ghost use Rattle.sim.specs.Directives.{FitsStations};
ghost use Rattle.sim.specs.Losses.{report_said};
ghost use Rattle.sim.specs.Lives.{begun_from, with_reports};
ghost use Rattle.sim.specs.Scripts.{FitsSettings};

use crate::directive::{Class, Directive};
use crate::script::Script;
use ft12::LinkSize;
use gateway::Config;
use link::{NoMemory, Station};
use std::alloc::Global;

#[tactic(auto, using(crate::proofs::BeginningLemmas::with_first, crate::proofs::BeginningLemmas::with_second, crate::proofs::BeginningLemmas::with_none))]
/// A line of a script may give the station with this index a report.
fn report(
    station: &mut Station,
    index: usize,
    stations: usize,
    directive: &Directive,
) -> Result<(), NoMemory>
    requires { FitsStations station.old.size stations directive.now }
    ensures { OnOk result (station.new ≡ with_reports station.old
        (report_said index One directive.now) (report_said index Two directive.now)) }
{
    match directive {
        Directive::Report(i, Class::One, asdu) if *i == index => station.report1(asdu.octets()),
        Directive::Report(i, Class::Two, asdu) if *i == index => station.report2(asdu.octets()),
        _ => Ok(()),
    }
}

#[tactic(auto, using(crate::proofs::BeginningLemmas::reports_none, crate::proofs::BeginningLemmas::reports_more, crate::proofs::BeginningLemmas::reports_all, crate::proofs::BeginningLemmas::fits_at))]
/// The station has its reports.
fn report_all(
    station: &mut Station,
    index: usize,
    stations: usize,
    directives: &[Directive],
) -> Result<(), NoMemory>
    requires { AllByRecursion (FitsStations station.old.size stations) directives.now }
    ensures { OnOk result (station.new ≡ with_reports station.old
        (flat_map (report_said index One) directives.now)
        (flat_map (report_said index Two) directives.now)) }
{
    for directive in directives {
        report(station, index, stations, directive)?;
    }
    Ok(())
}

/// The stations of these settings, with the reports that the script gives them.
#[tactic(auto, using(crate::proofs::BeginningLemmas::begun_more, crate::proofs::BeginningLemmas::begun_end, crate::proofs::BeginningLemmas::address_at))]
pub fn begin(alloc: Global, config: &Config, script: &Script) -> Result<Vec<Station>, NoMemory>
    requires { FitsSettings config.now script.now }
    ensures { IfOk result (λ v. v.items
        ≡ begun_from config.now.line.link 0 script.now config.now.stations) }
{
    let size = config.line().link;
    let settings = config.stations();
    let mut stations = Vec::new(alloc);
    for (index, one) in settings.iter().enumerate() {
        let mut station = Station::new(alloc, size, one.address);
        report_all(&mut station, index, settings.len(), script.directives())?;
        stations.push(station).map_err(|_| NoMemory)?;
    }
    Ok(stations)
}
