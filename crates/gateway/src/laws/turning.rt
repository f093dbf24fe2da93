//! The turns of the line, on logs.
ghost use Rattle.std.specs.Prelude.{◌≡◌};
ghost use Rattle.gateway.specs.Config.{Settings, AreStations};
ghost use Rattle.gateway.specs.Setups.{setup_of};
ghost use Rattle.gateway.specs.Log.{Log};
ghost use Rattle.gateway.specs.Traffic.{IsFaithful};
ghost use Rattle.gateway.specs.Turning.{KeepsTurns};

use command::{commands_are_forwarded, waiting_commands_stay};
use link::{
    a_turn_is_one_visit, answers_have_their_time, commands_go_before_polls,
    giving_up_is_for_one_station, giving_up_is_logged, line_keeps_the_procedures,
    no_station_starves, polls_go_on, repeats_come_at_once, restarts_change_no_link,
    statuses_follow_restarts, turns_end, turns_go_on_behind_held_services,
};

/// On each log of a run, however it ended, turns end, no station starves, commands go before polls,
/// class 1 goes on while ACD is set, and repeats and the poll behind a command come at once, each
/// turn is one visit, and each request is awaited for `answer_ms`, as the laws of the link have it
/// over lists of calls. Only behind a restart is a station that is up asked for its status. The
/// list is the one that the log shows (`CallsOf`): in each step a request is asked for at the
/// step's moment, with the commands that wait then, and with leave to poll exactly if the queue has
/// room. The log's exchanges are those of these calls. At a restart the calls give up the link to
/// each station with a command without an answer; that ends its visit, and the next visit of that
/// station resets its link. (Settings have 1 to 32 stations, each with an address.)
pub fn logs_keep_turns()
    // None of it is read off the machine: a machine and a course that leave out a call together
    // break this law (docs/DECISIONS.md, "The calls of a log").
    ensures { (c : Settings) (log : Log) →
        AreStations c.line.link c.line.sizes.ca c.stations →
        IsFaithful (setup_of c) log → KeepsTurns (setup_of c) log }
{
    turns_end();
    no_station_starves();
    commands_go_before_polls();
    polls_go_on();
    repeats_come_at_once();
    turns_go_on_behind_held_services();
    a_turn_is_one_visit();
    answers_have_their_time();
    line_keeps_the_procedures();
    giving_up_is_logged();
    giving_up_is_for_one_station();
    restarts_change_no_link();
    statuses_follow_restarts();
    commands_are_forwarded();
    waiting_commands_stay();
}
