//! What the control centre gets is what the outstations reported, and what the outstations accept
//! is what the control centre sent.
//!
//! Laws over every log of a gateway ([`gateway::drive`] promises that its log is faithful).
//! Upwards: [`nothing_is_lost`], and [`each_session_is_known`] for links that are reset on the way.
//! There [`losses_are_reported`] as gaps ([`gaps_are_reported_by_their_station`],
//! [`gaps_are_told_before_the_next_request`]) and [`losses_have_gaps`] says how many gaps there are
//! at most. What comes of it to the control centre is one run, over closes and new connections:
//! [`what_has_come_is_one_run`]. A piece is acknowledged with its frame:
//! [`pieces_are_acknowledged_with_their_frames`]. What stations report goes on by its type
//! ([`reports_of_monitor_types_are_passed_on`]) and octet by octet
//! ([`reports_go_on_octet_by_octet`]).
//!
//! Downwards: [`each_command_is_given_once`], and [`faultless_commands_are_forwarded`]. What isn't
//! given is answered ([`what_is_refused_is_answered`],
//! [`refused_commands_come_back_with_their_cause`]). An execute needs a select of its own
//! ([`each_execute_has_a_select_of_its_own`]), and that is enough
//! ([`selects_let_their_execute_through`]). A command with a time tag is as old as its tag says
//! ([`tags_are_as_old_as_the_moment_that_they_name`]). A command goes out for the first time on its
//! own connection alone ([`commands_go_out_on_their_own_connection`]), and behind a restart none
//! that came before it goes out at all ([`no_command_outlives_a_restart`]). What a station says of
//! a command goes on as it came ([`answers_are_passed_on_as_they_came`]), with the command's tag
//! ([`answers_bear_the_tag_of_their_command`]), once ([`each_answer_is_given_once`]; on each log
//! [`answers_of_stations_are_heeded`]).
//!
//! Between them: what the gateway's course logs of the line and of commands is what the octets of
//! the log show ([`the_course_is_the_logs`]). What is counted of commands is what the log shows
//! ([`counts_of_commands_are_the_logs`]), and a gateway tells these numbers
//! ([`what_a_gateway_tells_is_its_logs`]). A log has what comes and goes under its own name
//! ([`events_and_actions_stand_under_their_names`]). What a run promises of it holds at each moment
//! ([`promises_hold_at_each_moment`]), and only a failed device ends it
//! ([`only_a_failed_device_ends_a_promise`]). Each part takes up other settings
//! ([`new_settings_are_taken_up`]).
//!
//! Commands wait for the line by their stations ([`commands_wait_for_each_station`]). The line
//! rests only if there is no room ([`a_line_rests_only_for_want_of_room`]), is asked once a step
//! ([`each_step_asks_and_closes_once`]), and goes by what was sent last
//! ([`unanswered_services_go_out_again`], [`requests_are_looked_back_at`]).
//!
//! What the gateway's definitions take for granted of a connection is said here too: which octets
//! are its own ([`octets_are_those_of_their_connection`]), what its frames bear
//! ([`frames_go_out_whole_and_with_their_counts`]), what closes it
//! ([`connections_are_closed_for_the_cause_that_is_told`]), and that it keeps the rules and leaves
//! nothing undone ([`connections_keep_the_rules_of_the_session`], [`steps_leave_nothing_due`]).
//!
//! The premises of the laws on a log are of the line alone: serial answers are neither late nor
//! altered unseen (`IsHonest`), and for the first law no link reset is caused (`IsSteady`; the
//! start of a link is no such reset, and if unanswered services are held silence never is one,
//! while a restart that gives up a command is: [`silence_is_no_reset`]). Of the control centre and
//! of TCP nothing is asked, but that what came on all connections is one run only if it
//! acknowledges no frame that hasn't come. The laws on commands speak of settings whose stations
//! are found by their link addresses (`IsSetUp`), as those of each gateway are. All laws hold of
//! the lives of a gateway together: a restart is an event of the log. What they don't say: that a
//! report is ever polled, or that a command is ever put on the line or accepted.
#![tactic(auto)]

// Apart from the gateway, of which it needs the log and `IsFaithful` alone: so the gateway's chain
// stays short (docs/DECISIONS.md, "`delivery` stands apart").
mod ages;
mod commands;
mod counting;
mod exchanges;
mod laws;
mod logged;
mod new_settings;
mod of_the_line;
mod passed_on;
mod received;
mod refusing;
mod restarting;
mod selecting;
mod sending;
mod waiting;

pub use ages::tags_are_as_old_as_the_moment_that_they_name;
pub use commands::{
    each_command_is_given_once, faultless_commands_are_forwarded, the_course_is_the_logs,
    what_is_refused_is_answered,
};
pub use counting::{counts_of_commands_are_the_logs, what_a_gateway_tells_is_its_logs};
pub use laws::{
    each_session_is_known, gaps_are_reported_by_their_station,
    gaps_are_told_before_the_next_request, losses_are_reported, losses_have_gaps, nothing_is_lost,
    promises_hold_at_each_moment, silence_is_no_reset,
};
pub use logged::{events_and_actions_stand_under_their_names, only_a_failed_device_ends_a_promise};
pub use new_settings::new_settings_are_taken_up;
pub use of_the_line::{requests_are_looked_back_at, unanswered_services_go_out_again};
pub use passed_on::{
    answers_are_passed_on_as_they_came, answers_bear_the_tag_of_their_command,
    answers_of_stations_are_heeded, each_answer_is_given_once, reports_go_on_octet_by_octet,
    reports_of_monitor_types_are_passed_on,
};
pub use received::{
    connections_are_closed_for_the_cause_that_is_told, connections_keep_the_rules_of_the_session,
    frames_go_out_whole_and_with_their_counts, octets_are_those_of_their_connection,
    pieces_are_acknowledged_with_their_frames, steps_leave_nothing_due, what_has_come_is_one_run,
};
pub use refusing::refused_commands_come_back_with_their_cause;
pub use restarting::{commands_go_out_on_their_own_connection, no_command_outlives_a_restart};
pub use selecting::{each_execute_has_a_select_of_its_own, selects_let_their_execute_through};
pub use sending::each_step_asks_and_closes_once;
pub use waiting::{a_line_rests_only_for_want_of_room, commands_wait_for_each_station};
