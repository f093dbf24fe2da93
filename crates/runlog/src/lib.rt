//! What a live run logs: a line for each thing that happens, at most one a second of each kind, but
//! each of what becomes of commands (this gateway's own profile).
//!
//! [`RunLog`] is a port around any port: it passes each event and each action on unchanged, so
//! what is proved of a run over a port holds of a run over it, and logs them to a [`LogSink`].
//! [`StandardError`] is the sink of a process.
//!
//! [`Watch`] is what is known of the run, for those who show it: each station's standing, what has
//! passed between it and the gateway, the line, and the connection. If that is wanted, it goes on
//! also if nothing is logged ([`Logger::watching`]).
//!
//! Proved: the run log's log, script and failures are those of the port inside; which line follows
//! from which event or action is one small function of what has passed, of what was seen of the
//! port's ends ([`Watch`]), and of the gateway between two steps; an event, an action or a look
//! has one line at most, and behind a step each command has its own; lines of any other kind are a
//! second apart, and those left out are counted; of refusals, and of reports that are skipped, each
//! is logged, or counted by a later line ([`what_is_gathered_is_logged_or_counted`]); by which rule
//! a command is refused is the judgement's own (`command::Commands::refusal_at`); a sink that takes
//! no line any more ends the log, and nothing else; how severe each line is ([`Note::severity`]);
//! the words of each line, and the name behind them ([`NamedLine`]). Of all this there are literal
//! examples ([`stations_by_example`], [`standings_by_example`], [`commands_by_example`],
//! [`moments_by_example`], [`late_answers_by_example`], [`log_lines_by_example`],
//! [`each_word_by_example`]).
//!
//! What has failed is logged at the end ([`failures_are_logged_at_the_end`]). How a station stands
//! is known by the requests to it ([`a_station_stands_as_its_requests_say`]). What becomes of a
//! command, and each mishap, is logged for the station that it befell
//! ([`what_becomes_of_commands_is_logged`]). What a station answers is read as of the request
//! before it ([`answers_are_read_as_of_their_request`]). All that passes is known and logged, and
//! so are the latest lines, for who looks ([`what_passes_is_known_and_logged`]). That a line's UTC
//! time is right, and what standard error does with it, is no matter of a proof.
#![tactic(auto)]

mod befallen_laws;
mod causes;
mod content;
mod ends;
mod examples;
mod exchange;
mod exchange_laws;
mod failure_laws;
mod fate;
mod fate_laws;
mod gathered;
mod inbox;
mod latest;
mod laws;
mod limit;
mod logger;
mod names;
mod note;
mod order;
mod order_words;
mod port;
mod queue;
mod severity;
mod sink;
mod spoiling;
mod station_laws;
mod stations;
mod syncs;
mod traffic;
mod trail;
mod waiting;
mod watch;
mod word_examples;

pub use befallen_laws::what_passes_is_known_and_logged;
pub use causes::{cause_words, line_cause_words};
pub use content::Skip;
pub use ends::OpenConnection;
pub use examples::{
    commands_by_example, late_answers_by_example, log_lines_by_example, moments_by_example,
    standings_by_example, stations_by_example,
};
pub use exchange_laws::answers_are_read_as_of_their_request;
pub use failure_laws::failures_are_logged_at_the_end;
pub use fate::{CommandFate, Reason};
pub use fate_laws::what_becomes_of_commands_is_logged;
pub use laws::what_is_gathered_is_logged_or_counted;
pub use limit::LeftOut;
pub use logger::{Logger, taken_places};
pub use names::{LogNames, NamedLine, NamedStation, Subject, name_of, subject_of};
pub use note::{LineWords, LogLine, Note, Obstacle, Remnant, RunCounts, Trouble};
pub use order::{Order, OrderKind, Value};
pub use port::RunLog;
pub use severity::Severity;
pub use sink::{LogSink, StandardError};
pub use spoiling::{FirstOctets, Spoiling};
pub use station_laws::{a_station_stands_as_its_requests_say, each_station_has_its_own_watch};
pub use stations::{RequestCounts, StationStanding, StationWatch};
pub use traffic::Traffic;
pub use watch::Watch;
pub use word_examples::each_word_by_example;
