//! The gateway's port over real ends: a line, a listener at which control centres connect, and a
//! clock (this gateway's own profile).
//!
//! [`Live`] looks at its ends in turn and gives what it finds as events; it puts requests on the
//! line, and APDUs on the connection. Each end is behind a trait: [`OctetStream`] (octets both
//! ways, without a long wait), [`Listener`], [`RunClock`]. Those on the system's sockets are
//! [`LineSocket`], [`CentreListener`], [`CentreSocket`] and [`SystemClock`].
//!
//! Proved, for any ends that note what happens at them: an event is the first thing found in rounds
//! of looks, which begin after the source of the last event; each source of a round is looked at
//! once, and none after the one that had something. Where nothing is found a tick is given: 100 ms
//! after the first round began, at once where the time of an exchange is over, and where the wall
//! clock is due ([`looks_for_an_event_begin_within_100_ms`],
//! [`an_exchange_that_is_over_gives_an_event_at_once`]).
//!
//! A connection that is gone is a cut. After a write to the connection that failed the next event
//! but the wall clock is a cut, no end is looked at before, and nothing more is written to it. A
//! close ends the connection and that cut. Who connects takes the place of the connection, and
//! stays when the gateway closes the one before ([`a_close_shuts_the_connection`]). A request that
//! the line doesn't take is lost and no failure. The line's end alone is one.
//!
//! And of time, whatever the gateway stalls: an event bears the clock's moment after the looks, but
//! none that ends an exchange whose line hasn't been looked at for `answer_ms` since the request
//! was written ([`no_exchange_ends_unread`]). Once the line has been, it bears the clock's. If that
//! moment is more than 50 ms behind the clock, only the line is looked at. Then octets of a control
//! centre that would bear such a moment are held ([`what_the_centre_sent_is_given_in_time`]), until
//! a frame has come from the line, which bears none that is ([`a_frame_catches_the_clock_up`]).
//!
//! The wall clock is given at the first call, and again when a second has passed since and the ends
//! have been looked at in between ([`the_wall_clock_is_given_each_second`]): as it stood at the
//! moment that the event bears. A wall clock that is set is given as it then shows.
//!
//! It has a log, and stores none of it: each event that it gave and each action that it put out. If
//! the ends note what happens at them, the log's octets are those that the line and the open
//! connection gave and were handed ([`the_log_has_what_passed`]), to the end of a run
//! ([`what_is_noted_is_noted_to_the_end`]).
//!
//! [`Redialled`] is a stream that is reached again when it has gone. Proved, for any dialler that
//! notes its tries: it is quiet and takes nothing while it is away. A try begins at once and then
//! every second, after each stream that was reached and gave nothing at twice the distance, up to
//! 30 s. No try begins while one goes on, and a look waits for none. It begins as a new stream each
//! time. One which gives nothing while requests go out to it is closed
//! ([`a_stream_that_gives_nothing_is_closed`]).
//!
//! Before a request is written what has come from the line is dropped, since it is no answer to it,
//! and how many octets that were is counted.
//!
//! That nobody can be accepted is told at the first fault, and not again until somebody has come
//! ([`that_nobody_can_be_accepted_is_told_once`]).
//!
//! One call to a stream of the system is read as one fact about its answer: octets, quiet or gone,
//! and taken only if all was taken. A look at the line goes on until its octets end as a line frame
//! does, none come, or 15 times. Of a write in two calls a stream takes the octets once, in their
//! order. What waits is read until nothing comes, or 64 times. What sockets do beyond that is no
//! matter of a proof.
#![tactic(auto)]

mod allow_list;
mod arrivals;
mod clock;
mod ends;
mod found;
mod held;
mod laws;
mod memory;
mod port;
mod reach;
mod redial;
mod room;
mod silence;
mod sockets;
mod source;
mod stream;
mod stream_laws;
mod syncs;
mod timing;
mod walled;
mod watched;

pub use allow_list::AllowList;
pub use clock::Timed;
pub use ends::{
    Accepted, CutCause, Got, Listener, OctetStream, Presence, Reached, RefusedPeers, RunClock,
};
pub use laws::arriving::{
    only_allowed_addresses_connect, that_nobody_can_be_accepted_is_told_once,
    who_comes_is_refused_or_let_in,
};
pub use laws::reaching::{
    a_clock_begins_at_its_moment, a_try_ends_as_its_connect_does, calls_of_streams_wait_so_long,
};
pub use laws::showing::the_ends_are_shown_as_they_are;
pub use laws::tries::{
    a_stream_that_gives_nothing_is_closed, a_stream_that_is_away_is_tried_when_due,
    tries_lie_farther_apart_while_nothing_comes,
};
pub use laws::{
    a_clock_goes_on_with_the_systems, a_close_shuts_the_connection, a_cut_has_its_reason,
    a_cut_that_is_due_comes_next, a_frame_catches_the_clock_up, a_run_begins_with_the_wall_clock,
    a_run_logs_what_passed, a_run_that_goes_on_begins_with_a_cut,
    an_exchange_that_is_over_gives_an_event_at_once, looks_ask_nothing,
    looks_at_the_line_are_timed_by_the_clock, looks_for_an_event_begin_within_100_ms,
    no_exchange_ends_unread, the_log_has_what_passed, the_wall_clock_is_given_each_second,
    what_is_noted_is_noted_to_the_end, what_passed_by_example,
    what_the_centre_sent_is_given_in_time,
};
pub use port::Live;
pub use redial::{Dialled, Dialler, Redialled};
pub use room::{MOST_AT_ONCE, STANDARD_ERROR, STANDARD_OUTPUT, has_room};
pub use sockets::{
    CentreListener, CentreSocket, LineDialler, LineSocket, LocalSocket, SystemClock,
};
pub use stream_laws::{
    a_write_is_taken_where_all_its_octets_are, what_waits_is_dropped_to_its_end,
};
pub use syncs::SyncTimes;
pub use watched::{EndsSight, Failure, Notice, Watched};
