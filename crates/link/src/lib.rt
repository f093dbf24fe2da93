//! Link procedures of unbalanced transmission (IEC 60870-5-2, over frames of format class FT1.2).
//!
//! [`Master`] is the primary station of one line: it says which request goes out next
//! ([`Master::next`]), receives the octets that come back ([`Master::octets`]) and takes the time
//! ([`Master::due`]). [`Station`] is the other end, a secondary station. Neither reads a clock, nor
//! a line: moments and octets are handed in, requests and answers are handed out. Left out are
//! balanced mode, user data without reply, requests for access demand, and links without an
//! address. The state of a [`Master`] is put as lines ([`Master::put_state`]) and read back from
//! them ([`Master::read_state`]); lines that say no state give none.
//!
//! Each call of [`Master`] is one function on a small machine (`specs/Primary.antt`), and of
//! [`Station`] on another (`specs/Secondary.antt`). Above them stand laws, as public functions with
//! no body:
//! - over every list of calls the exchanges of the line keep the frame count bit of each station
//!   ([`frame_count_bits_are_kept`], [`master_matches_the_log`]), and no request goes out while one
//!   is outstanding ([`requests_wait_their_turn`]). Turns go round the stations
//!   ([`turns_go_round`]), a turn ends ([`turns_end`]) and is one visit ([`a_turn_is_one_visit`]),
//!   and no station starves ([`no_station_starves`]). An answer is heard ([`answers_are_heard`])
//!   and has its time ([`answers_have_their_time`]). An unanswered service is sent again at once
//!   ([`repeats_come_at_once`]) and as often as is set ([`repeats_are_as_many_as_set`]). A command
//!   that waits goes out before any new poll ([`commands_go_before_polls`]). Polls follow it in its
//!   turn ([`polls_go_on`]), as they follow a held service ([`turns_go_on_behind_held_services`]).
//!   Polls and commands go by ACD and DFC ([`flags_are_heeded`]). A command that is sent for the
//!   first time is the one that waits ([`commands_are_those_that_wait`]), and goes out if no other
//!   is under way ([`one_command_at_a_time`]). What the caller learns is what the exchanges show
//!   ([`outcomes_are_answers`], [`outcomes_bear_the_reports`]). Exchanges that closed with octets
//!   but no answer are counted ([`spoilt_exchanges_are_counted`]);
//! - a reset that ends a session whose last report may be lost is reported, and no other
//!   ([`gaps_are_reported`], [`gaps_are_ended_sessions`]);
//! - when a link is given up at a restart no other station changes
//!   ([`giving_up_is_for_one_station`]), and the exchanges show it ([`giving_up_is_logged`],
//!   [`the_latest_exchange_is_marked`]). When a line goes on with other settings, each station that
//!   goes on keeps its frame count bit ([`frame_count_bits_go_on`]), and what is known of its
//!   session ([`sessions_go_on`]). The procedures go on as behind a start
//!   ([`new_settings_keep_the_procedures`]);
//! - what the crates above go by is one record ([`line_keeps_the_procedures`]);
//! - a station runs as an outstation that receives each request to it
//!   ([`station_is_an_outstation`]);
//! - a control octet is a value ([`Control`], [`controls_are_octets`]);
//! - each request has one control octet at each address, and no other frame asks the same
//!   ([`requests_are_whole`]);
//! - the tables of control octets, requests, answers, turns and outstations have worked examples
//!   ([`controls_by_example`], [`answers_by_example`], [`requests_by_example`],
//!   [`turns_by_example`], [`outstations_by_example`]);
//! - from one exchange to the next the frame count bit is as the standard has it
//!   ([`frame_count_bits_alternate`]);
//! - and if the frame count bit is kept and an outstation's answers come in their exchange and
//!   unaltered, each service acts once and its answer is taken once ([`each_service_acts_once`],
//!   [`sessions_are_known`], [`commands_are_accepted`], [`reports_are_learnt`],
//!   [`silence_is_no_reset`]).
#![tactic(auto)]

mod answer;
mod asdu;
mod awaited;
mod control;
mod examples;
mod laws;
mod master;
mod no_memory;
mod outcome;
mod procedure;
mod received_request;
mod request;
mod saving;
mod seat;
mod service;
mod session;
mod settings;
mod station;
mod turn;
mod user;

pub use answer::Answer;
pub use asdu::{AsduRef, CommandOctets, UserData};
pub use control::{Control, PrimaryFunction, SecondaryFunction, controls_are_octets};
pub use examples::{
    answers_by_example, controls_by_example, outstations_by_example, requests_by_example,
    turns_by_example,
};
pub use laws::asking::{answers_have_their_time, next_changes_nothing};
pub use laws::at_once::{
    repeats_are_as_many_as_set, repeats_come_at_once, turns_go_on_behind_held_services,
};
pub use laws::beginnings::new_settings_keep_the_procedures;
pub use laws::bursts::polls_go_on;
pub use laws::carrying::{
    frame_count_bits_go_on, giving_up_is_for_one_station, giving_up_is_logged,
    seats_have_their_addresses, sessions_go_on, the_latest_exchange_is_marked,
};
pub use laws::commands::{commands_are_those_that_wait, one_command_at_a_time};
pub use laws::flags::flags_are_heeded;
pub use laws::gaps::{gaps_are_ended_sessions, gaps_are_reported};
pub use laws::hearing::{answers_are_heard, only_the_first_frame_is_heard};
pub use laws::leave::{polls_wait_for_leave, rests_mean};
pub use laws::life::{station_is_an_outstation, stations_hear_whole_frames};
pub use laws::logging::each_request_is_an_exchange;
pub use laws::precedence::commands_go_before_polls;
pub use laws::refinement::{
    commands_are_accepted, each_service_acts_once, frame_count_bits_alternate, reports_are_learnt,
    sessions_are_known, silence_is_no_reset,
};
pub use laws::restarts::{
    restarts_change_no_link, silence_ends_a_link_behind_two_statuses, statuses_follow_restarts,
};
pub use laws::runs::{
    frame_count_bits_are_kept, outcomes_are_answers, spoilt_exchanges_are_counted, turns_go_round,
};
pub use laws::tables::requests_are_whole;
pub use laws::visits::{a_turn_is_one_visit, no_station_starves, turns_end};
pub use laws::{
    line_keeps_the_procedures, master_matches_the_log, outcomes_bear_the_reports,
    requests_are_read_back, requests_wait_their_turn,
};
pub use master::Master;
pub use no_memory::NoMemory;
pub use outcome::{Outcome, ReportRef};
pub use procedure::{Link, Probed, Silence};
pub use received_request::ReceivedRequest;
pub use request::{Reading, Request, RequestKind, read_request};
pub use seat::ResumedStation;
pub use service::{Asked, Service};
pub use session::SessionState;
pub use settings::LinkSettings;
pub use station::Station;
pub use turn::StationState;
pub use user::{LinkUser, NoCommands};
