//! The end of a whole run over a simulated line.
ghost use Rattle.std.specs.Prelude.{◌≡◌, List, IfOk, string_bytes};
ghost use Rattle.gateway.specs.Config.{Settings, AreStations};
ghost use Rattle.gateway.specs.Setups.{setup_of};
ghost use Rattle.gateway.specs.Traffic.{IsFaithful, HasRested};
ghost use Rattle.sim.specs.declared.directive.Directive.{Directive};
ghost use Rattle.sim.specs.Calls.{calls_in};
ghost use Rattle.sim.specs.Lives.{plan_of};
ghost use Rattle.sim.specs.Losses.{turns_of};
ghost use Rattle.sim.specs.Runs.{IsRun};

use crate::laws::stations_are_honest;
use crate::sim::Sim;
use crate::text::closing_lines;
use delivery::nothing_is_lost;
use gateway::steps_keep_their_order;
use std::alloc::{AllocError, Global};

impl Sim<'_> {
    /// The closing lines of a run: one for each station, one for each connection, and one for each
    /// station whose link had more than one session.
    ///
    /// If a gateway has kept its promises in a run over this port, for as many calls as the script
    /// says, this follows, whatever the script loses or spoils. Each station is an honest
    /// outstation of that run, and what went to the control centre is a contiguous run, on each
    /// connection, of a merge of what was taken from the stations. If unanswered services are held
    /// (`silence` is `Hold`), what was taken from a station is what it gave, or all but its last
    /// report. With `Reset` this holds of each session between two resets. The lines have the
    /// numbers of that run.
    pub fn closing(&self, alloc: Global) -> Result<String, AllocError>
        ensures { (c : Settings) (ds : List Directive) → self.now.plan ≡ plan_of c ds →
            AreStations c.line.link c.line.sizes.ca c.stations →
            calls_in self.now.log ≡ turns_of ds →
            IsFaithful (setup_of c) self.now.log → HasRested (setup_of c) self.now.log →
            IfOk result (λ text. IsRun c ds self.now.log (string_bytes text)) }
    {
        stations_are_honest();
        nothing_is_lost();
        steps_keep_their_order();
        let _page = self.page();
        closing_lines(
            alloc,
            self.directives(),
            self.stations(),
            self.counts(),
            self.tallies(),
        )
    }
}
