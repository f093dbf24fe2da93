//! The gateway between an unbalanced IEC 60870-5-101 line, of which it is the primary station, and
//! one IEC 60870-5-104 connection at a time, of which it is the controlled station.
//!
//! A [`Gateway`] takes one event after another from a [`Port`] and puts out what follows from each:
//! [`Gateway::step`], [`drive`], [`drive_on`].
//!
//! Proved, of the log of a run, for any octets and moments, is this. Its events are those that
//! came. Each station is asked as its link allows, with the frame count bit that is due, and each
//! request is the one that the stations' turns give. Nothing is polled while the queue is full, and
//! nothing else is kept back. Commands go down in order, each once, an execute to a guarded station
//! only if it was selected, and every other ASDU is answered. Of the connection a frame is taken
//! only if it is the next of the octets and free of faults, and once all that may go out before it
//! has gone out. To TCP goes one whole APDU at a time, only while a connection is open, numbered
//! without a gap. Each frame goes when it is due and with the number of the frames received, own
//! answers before reports, and an S frame only if no I frame can bear its number. The monitor
//! objects sent on each connection are a contiguous run of those taken from the line, from the
//! first on that no connection before acknowledged. A connection is closed when a cause stands, and
//! for no other cause.
//!
//! All of these speak of one course of the log: there is no other ([`one_course`]), and of two
//! causes never both stand ([`one_cause`]). What is free is only how far the octets of an event
//! were judged if the device failed in its step. A port whose device fails breaks none of this for
//! the log so far. What is due to the control centre is given ([`what_is_due_is_given`]), stations'
//! answers to commands being known by their types ([`answers_have_the_types_of_commands`]), and on
//! the line turns end, no station starves and commands go before polls ([`logs_keep_turns`]).
//! Within a step what came is taken first, one frame after another, each answered before the next
//! ([`each_frame_is_answered_before_the_next`]). An own answer without a place closes the
//! connection ([`own_answers_without_a_place_close`]), and a poll needs three
//! ([`polls_need_three_places`]).
//!
//! At a restart a gateway is read from the lines of its state ([`Gateway::read_state`]). It ends
//! the connection and gives up the commands without an answer ([`Gateway::restart`]), and goes on
//! with other settings if these were changed ([`Gateway::carried`],
//! [`stations_go_on_by_their_addresses`]): no link is up then but of a station as it was
//! ([`no_link_goes_on_but_of_a_station_as_it_was`]), a stale state leaves gaps, and counts and
//! clock stay. With the same settings the restart is an event of the log
//! ([`restarts_give_up_commands`]), which goes on: each promise on a log holds of all lives
//! together.
#![tactic(auto)]

mod config;
mod counts;
mod engine;
mod entries;
mod gaps;
mod history;
mod laws;
mod ports;
mod runs;
mod settings;
mod starting_links;
mod step;
mod walls;

pub use config::Config;
pub use counts::Counts;
pub use engine::{Gateway, LAST_MOMENT, NoMemory};
pub use entries::{Entry, StoredEntry, announce, cause_number, keep};
pub use history::History;
pub use laws::going_on::{
    no_link_goes_on_but_of_a_station_as_it_was, stations_go_on_by_their_addresses,
};
pub use laws::going_out::{frames_bear_whole_pieces, own_answers_go_out};
pub use laws::ordering::{moments_never_fall, steps_keep_their_order};
pub use laws::passing_on::answers_have_the_types_of_commands;
pub use laws::restarts::restarts_give_up_commands;
pub use laws::stepping::{
    each_frame_is_answered_before_the_next, own_answers_without_a_place_close,
    polls_need_three_places,
};
pub use laws::turning::logs_keep_turns;
pub use laws::walls::the_wall_clock_is_known;
pub use laws::{
    counts_match_commands, courses_keep_commands, one_cause, one_course, settings_are_kept,
    steps_leave_nothing_open, what_is_due_is_given,
};
pub use ports::{Action, Event, Next, Port};
pub use runs::{End, drive, drive_on};
pub use settings::{LineSettings, Silence, StationSettings, TcpSettings};
pub use starting_links::{LinkStart, link_start};
pub use walls::Wall;
