//! What holds of every run over a simulated line.
ghost use Rattle.std.specs.Prelude.{◌≡◌, ◌<◌, ◌^◌};
ghost use Rattle.std.specs.Prelude.{List};
ghost use Rattle.std.specs.Prelude.{Option};
ghost use Rattle.ft12.specs.declared.frame.Frame.{Frame};
ghost use Rattle.link.specs.Secondary.{Secondary};
ghost use Rattle.gateway.specs.Config.{Settings, AreStations};
ghost use Rattle.gateway.specs.Log.{Log};
ghost use Rattle.gateway.specs.Setups.{setup_of};
ghost use Rattle.gateway.specs.Traffic.{IsFaithful};
ghost use Rattle.sim.specs.declared.directive.Directive.{Directive};
ghost use Rattle.sim.specs.declared.tally.StationTally.{StationTally};
ghost use Rattle.sim.specs.Tallies.{tallies_of};
ghost use Rattle.sim.specs.Lives.{plan_of, requests_in};
ghost use Rattle.sim.specs.Played.{IsPlayed};
ghost use Rattle.sim.specs.Outstations.{HaveServed};

use delivery::{each_session_is_known, losses_have_gaps, nothing_is_lost, silence_is_no_reset};
use ft12::{front_is_computed, spoilt_lines_are_no_lines};
use link::station_is_an_outstation;

/// Whatever requests and answers a script loses or spoils, each simulated station is an honest
/// outstation: it took its turns as the standard has it, no answer of it came late, and none was
/// altered unseen. It gave the script's reports of each class in order, each once. In each session
/// of its link what was taken from it is what it gave, or all but the last; and so for the commands
/// that it accepted. What is counted of its sessions ([`crate::Tally`]) is what they say: how many
/// there are, how many of those that ended have a gap, and how many reports were lost in these,
/// which are at most as many as the gaps. If unanswered services are held, its link is never reset,
/// and this holds of the whole run.
pub fn stations_are_honest()
    ensures { (c : Settings) (ds : List Directive) (log : Log) (answers : List (Option Frame))
        (stations : List Secondary) (tallies : List StationTally) →
        AreStations c.line.link c.line.sizes.ca c.stations →
        (played : IsPlayed (plan_of c ds) log answers stations) →
        tallies ≡ tallies_of (plan_of c ds) log answers stations played.lived →
        requests_in log < 2 ^ 64 → IsFaithful (setup_of c) log →
        HaveServed c ds log 0 stations tallies }
{
    front_is_computed();
    spoilt_lines_are_no_lines();
    station_is_an_outstation();
    nothing_is_lost();
    each_session_is_known();
    losses_have_gaps();
    silence_is_no_reset();
}
