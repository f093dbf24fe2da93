//! The restarts of stations while they are played, at the moments of the script's lines.
ghost use Rattle.std.specs.Prelude.{◌≡◌, ◌<◌, ◌≤◌, IfOk, length};
ghost use Rattle.std.specs.List.{AllByRecursion};
ghost use Rattle.link.specs.Requests.{FitsAddress};
ghost use Rattle.link.specs.Secondary.{fresh_station};
ghost use Rattle.sim.specs.Reporting.{changed_at};

use super::Outstations;
use super::replying::ReplyProgress;
use gateway::Config;
use link::{NoMemory, Station};
use std::alloc::Global;

/// The link addresses of the stations of these settings.
#[tactic(auto, using(crate::proofs::BeginningLemmas::address_at))]
pub(super) fn addresses_of(alloc: Global, config: &Config) -> Result<Vec<u16>, NoMemory>
    ensures { IfOk result (λ all. AllByRecursion (FitsAddress config.now.line.link) all.items) }
{
    let size = config.line().link;
    let mut all = Vec::new(alloc);
    for (index, station) in config.stations().iter().enumerate() {
        all.push(station.address).map_err(|_| NoMemory)?;
    }
    Ok(all)
}

impl Outstations {
    /// A station is as it was before its first reset, and its reports are gone.
    fn renew(&mut self, station: usize, address: u16)
        requires here { station < length self.old.stations }
        requires fits { FitsAddress self.old.size address }
        ensures { self.new ≡ record self.old {
          stations =
              changed_at station (λ _. fresh_station self.old.size address) self.old.stations;
        } }
    {
        self.stations[station] = Station::new(self.alloc, self.size, address);
    }

    /// It has had no reports, and there is nothing to reply to.
    fn forget(&mut self, station: usize) {
        if station < self.had.len() {
            self.had[station] = 0;
        }
        if station < self.progress.len() {
            self.progress[station] = ReplyProgress::none();
        }
    }

    /// A station restarts: it was switched off and on.
    fn restart(&mut self, station: usize) {
        if station < self.addresses.len() && station < self.stations.len() {
            let address = self.addresses[station];
            self.renew(station, address);
            self.forget(station);
        }
    }

    /// The line with this index has its station restart if that is due, so many ms behind the
    /// start.
    fn restart_by(&mut self, line: usize, passed: u64)
        requires { passed ≤ 999999999999999 }
    {
        if line >= self.cues.len() {
            return;
        }
        if let Some(station) = self.cues[line].restart(passed) {
            self.cues[line].give(passed);
            self.restart(station);
        }
    }

    /// Each line has its station restart if that is due, so many ms behind the start.
    pub(crate) fn restart_all(&mut self, passed: u64)
        requires { passed ≤ 999999999999999 }
    {
        for line in 0..self.cues.len() {
            self.restart_by(line, passed);
        }
    }
}
