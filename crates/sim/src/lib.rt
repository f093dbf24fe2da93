//! A line whose stations lose requests and answers as a script says, and a control centre (this
//! gateway's own profile, to show what a gateway does with losses).
//!
//! [`read_script`] reads a whole [`Script`], or names its first wrong line. [`Sim`] is the port of
//! a gateway over it: stations (`link::Station`) that receive what isn't lost, and a control centre
//! that acknowledges and sends. The lines of actions stand on its page ([`Sim::page`]), from which
//! the program takes them to print them while the run goes on, and at the end of a whole run there
//! are closing lines ([`Sim::closing`]). What the gateway does is no matter of this crate, no clock
//! is read, and no log is stored.
//!
//! Proved: a script read is what the lines of its text say, in their order, and a line that is
//! refused is the first that says nothing, or what no script can have beside the lines before it.
//! It is an invariant of [`Sim`] that each event of its log is what the script gives at that call
//! (the wall clock at the first, and else the first of seven that applies, `specs/Calls.antt`), and
//! that its stations have received each request that isn't lost, by every step of `link`'s machine,
//! and nothing else (`specs/Lives.antt`): an answer waits until it is given, or a next request goes
//! out.
//!
//! So in such a run each station is an honest outstation, whatever is lost or spoilt
//! ([`stations_are_honest`], `specs/Outstations.antt`): no answer comes late or altered unseen, it
//! gives the script's reports of each class in order, each once, and what is taken from it is what
//! it gave, or all but the last: in each session of its link, and where unanswered services are
//! held in the whole run. What is counted of the sessions of each link ([`StationTally`]) is what
//! its exchanges and turns say. [`Sim::closing`] promises that a run of as many calls as the script
//! says, in which the gateway keeps every promise of a gateway, keeps the order of actions in each
//! step and delivers what was taken, and that its lines have the numbers of that run
//! (`specs/Runs.antt`).
//!
//! Worked examples have literal octets: of what scripts do to requests and answers
//! ([`losses_by_example`]), and of calls ([`calls_by_example`]).
//!
//! Not proved: that a report is ever asked for, or that a port whose device fails wanted memory (it
//! fails too if more than 2^64 requests or frames would be counted).
//!
//! `stations` plays the outstations of a script behind a socket, to try a control centre with.
#![tactic(auto)]

mod beginning;
mod centre;
mod connections;
mod directive;
mod due;
mod ending;
mod examples;
mod fault;
mod flaws;
mod laws;
mod line;
mod numbered;
mod paged;
mod reading;
mod receiving;
mod script;
mod sim;
mod simulating;
mod stations;
mod tallies;
mod tally;
mod text;

pub use beginning::begin;
pub use directive::{Class, Directive, RequestFate};
pub use examples::{calls_by_example, losses_by_example};
pub use fault::SimFault;
pub use flaws::script_flaw;
pub use laws::stations_are_honest;
pub use line::read_line;
pub use reading::read_script;
pub use receiving::{arriving, put_out};
pub use script::Script;
pub use sim::Sim;
pub use simulating::{simulate, simulate_watched};
pub use stations::{
    Cue, GatewaySocket, LineListener, OutstationServer, Outstations, RestartTimer, Scenario,
    TimedServer, Timer, play, read_scenario, serve,
};
pub use tally::StationTally;
pub use traces::TextFault;
