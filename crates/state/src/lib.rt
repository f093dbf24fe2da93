//! A run whose events are kept on a disk (this gateway's own profile): how it is kept and gone on
//! with, the directory in the system's files, and what is said of it.
#![tactic(auto)]

mod beginning;
mod counting;
mod description;
mod disk_store;
mod ends;
mod event_text;
mod files;
mod folder;
mod form_laws;
mod given_up;
mod keeper;
mod keeping;
mod laws;
mod looking;
mod loss;
mod opened;
mod pair;
mod renewal;
mod replaying;
mod same_settings;
mod standing;
mod start;
mod start_laws;
mod store;
mod trail;

pub use beginning::{Begun, Origin, begin};
pub use description::{
    describe_state, each_station_has_its_line, note_of, note_of_damage, note_of_given_up,
    note_of_queue, note_of_settings, the_first_lines_say_how_a_run_begins,
};
pub use disk_store::DiskStore;
pub use ends::Ends;
pub use event_text::EventText;
pub use files::{
    Directory, Starts, Stood, a_directory_is_refused_for_its_reason, a_file_is_looked_at_whole,
    a_lock_is_told_where_it_is_taken, a_mark_is_made_where_there_is_none,
    a_mark_is_on_the_disk_where_it_is_told, files_are_put_aside_in_pairs, mark_beside, stood_in,
};
pub use folder::{Folder, FolderFault};
pub use form_laws::{
    commands_are_kept_in_this_form, lines_of_a_state_are_these_texts, links_are_kept_in_this_form,
    sessions_are_kept_in_this_form, states_are_kept_in_this_form,
};
pub use given_up::{GivenUp, Stage};
pub use keeper::Keeper;
pub use laws::{
    a_clock_goes_on_where_the_gateway_stood, a_damaged_state_never_goes_on_as_whole,
    a_gap_of_the_last_step_is_reported_again, a_keeper_remembers_what_it_tried_and_reported,
    a_line_can_hold_each_event, a_log_has_room_for_each_line, a_log_is_begun_where_one_is_due,
    a_log_that_could_not_be_begun_is_tried_each_ten_seconds,
    a_loss_is_reported_each_minute_until_it_is_over, a_start_goes_on_behind_a_crash,
    a_state_that_can_be_read_is_not_put_aside, losses_by_example, no_crash_leaves_another_line,
    no_event_waits_for_a_second, no_line_is_longer_than_2067_octets, no_link_is_up_behind_a_reset,
    nothing_goes_out_before_it_is_on_disk, what_is_on_disk_is_in_the_log,
    what_stands_is_not_passed_over,
};
pub use looking::{Seen, Sight, are_changed, look, settings_said};
pub use loss::{Loss, StoreFault};
pub use pair::Pair;
pub use renewal::{Patience, is_renewal_due};
pub use replaying::{EventLines, Lineage, Replayed, ReportedGap, replay};
pub use standing::Standing;
pub use start::{Beginning, Found, beginning_of};
pub use start_laws::{
    a_gap_is_told_of_its_own_station, a_log_ends_before_its_first_unread_line,
    each_log_is_received_again_under_its_settings, no_command_outlives_a_start,
    nothing_is_gone_on_with_but_a_state, the_first_log_of_a_run_has_its_own_number,
    what_is_shown_is_what_a_start_finds, what_was_found_says_how_a_run_begins,
};
pub use store::Store;
pub use trail::{Done, Trail};
