//! Commands of the control centre on their way to the stations, the selections that they make, and
//! the gateway's own answers (IEC 60870-5-101, 7.2.3 for causes, 7.2.6 for elements and S/E; IEC
//! 60870-5-104, 7, for the sizes of the connection; how long a selection lasts, how much is kept,
//! and which rule comes first is this gateway's own profile).
//!
//! [`Commands::judge_command`] says whether an ASDU of the connection is forwarded or answered
//! ([`Act`]). What is forwarded waits, in the line's sizes and with the station's own common
//! address ([`Commands::waiting`]), until it goes out ([`Commands::on_line`]) and the station
//! accepts it, is busy, or is given up. [`Commands::mirror`] takes what stations answer to
//! commands. Own answers are handed over and taken back first in, first out. The crate knows no
//! frames, sockets or clock: moments are handed in, in ms, and never fall from call to call.
//!
//! Proved: each call is one small function on a record of plain fields. The rest holds for every
//! list of calls. An ASDU gets the answer of the first rule that applies. First sendings to a
//! station are the commands forwarded to it, in order, each once, and only while their connection
//! is open. Before each forwarded execute to a station that asks for selects its select stands,
//! accepted on the line and confirmed in time, with nothing between that ends it. If that is so the
//! execute is refused for no want of a selection, and forwarded if it has a place (as long as
//! moments never fall). Kept selections have distinct targets, and each is the select that stands.
//! After `due` each one's select, or its latest confirmation, came less than `select_ms` ago. Each
//! answer that is made here is the ASDU that came with its cause octet replaced, and bears no
//! object that is passed on as a station's report. Own answers go out first in, first out, and 16
//! of them at most wait. What waits for a station stays what is next until it goes out, and the
//! settings stay. Places come back: what waits is what was forwarded less what went out. These laws
//! speak of octets, in words of their own (specs/Standard) that no call is built of. A table of
//! worked examples holds too.
//!
//! By which rule an ASDU is refused is asked apart from its judgement ([`Commands::refusal_of`]),
//! and also behind it, by a [`Glance`] that was taken before ([`Commands::refusal_at`]). Proved:
//! there is a rule exactly if the judgement is an own answer, it is the first of nine that applies,
//! and the rule that is answered behind it is that of the state of which the glance was taken.
//!
//! What is kept is put as lines of numbers ([`Commands::put_state`]) and made again of them
//! ([`Commands::read_state`]). Proved: each state that a `Commands` has is one that can be saved
//! (`IsSavable`), and its lines, with the settings, give that state and are never refused as wrong.
//! What isn't the lines of a state gives none. `new`, `read_state` and `carried` take memory, and a
//! line grows if it is too short; no other call does.
#![tactic(auto)]

mod act;
mod commands;
mod content;
mod glance;
mod judging;
mod keeping;
mod laws;
mod mirrors;
mod refusal;
mod restoring;
mod saving;
mod selection;
mod station;
mod tags;
mod waiting;

pub use act::{Act, OwnAnswer};
pub use commands::{Commands, NoMemory};
pub use glance::Glance;
pub use laws::{
    commands_are_forwarded, commands_keep_the_rules, executes_are_selected,
    faultless_commands_pass, judgement_is_the_first_rule_that_applies, mirrors_bear_the_newest_tag,
    nothing_of_a_connection_outlives_new_settings, own_answers_are_given,
    rules_hold_for_all_numbers, selections_let_one_execute_through, sent_activations_are_fresh,
    waiting_commands_stay, worked_examples_hold,
};
pub use refusal::Refusal;
pub use selection::SelectedObject;
pub use station::StationInfo;
