//! What the laws on logs use of `link`.
ghost use Rattle.delivery.specs.LinkLaws.{LinkLaws};

use link::{
    commands_are_those_that_wait, giving_up_is_logged, master_matches_the_log,
    outcomes_are_answers, outcomes_bear_the_reports, requests_are_read_back,
    requests_wait_their_turn, the_latest_exchange_is_marked,
};

/// What `link` says of a primary station and of the exchanges of its line, in one record.
pub(crate) fn the_line_is_its_exchanges()
    ensures { LinkLaws }
{
    master_matches_the_log();
    outcomes_bear_the_reports();
    outcomes_are_answers();
    requests_wait_their_turn();
    requests_are_read_back();
    commands_are_those_that_wait();
    giving_up_is_logged();
    the_latest_exchange_is_marked();
}
