//! The command that shows what a run would go on with.
ghost use Rattle.std.specs.Prelude.{◌≡◌, option_map};
ghost use Rattle.telegate.specs.Stood.{IsLookFault, IsSightAnswer, IsStoodShown, octets_of};
ghost use Rattle.telegate.specs.Stood.{status_of_sight};

use crate::answer::CommandAnswer;
use crate::fault::{BAD_CONTENT, DONE, Fault};
use checkpoint::StateFault;
use state::{Beginning, Sight, Stood, describe_state, look};
use std::alloc::Global;

/// What a start would find in a directory, in lines, with the exit status: 1 if what is there can't
/// be read. What is queued is told if it is wanted. It is compared with these settings, if any are
/// given.
pub(crate) fn answer_stood(
    alloc: Global,
    stood: Stood,
    are_wanted: bool,
    given: Option<Vec<u8>>,
) -> Result<CommandAnswer, Fault>
    ensures { IsStoodShown are_wanted stood (octets_of given) result }
{
    let Stood {
        files,
        is_stale,
        is_held,
        before,
        ..
    } = stood;
    match look(alloc, files, is_stale, &before) {
        Ok(sight) => answer_sight(alloc, is_held, is_stale, are_wanted, given, sight),
        Err(fault) => Err(fault_of(fault)),
    }
}

/// That in lines.
fn answer_sight(
    alloc: Global,
    is_held: bool,
    is_stale: bool,
    are_wanted: bool,
    given: Option<Vec<u8>>,
    sight: Sight,
) -> Result<CommandAnswer, Fault>
    ensures { IsSightAnswer is_held is_stale are_wanted (octets_of given) sight result }
{
    let given = slice_of(&given);
    let text = describe_state(alloc, is_held, is_stale, are_wanted, given, &sight)?;
    Ok(CommandAnswer {
        text,
        status: status_of(sight.beginning),
    })
}

/// The octets that are given.
fn slice_of(given: &Option<Vec<u8>>) -> Option<&[u8]>
    ensures { option_map (λ t. t.now) result ≡ octets_of given.now }
{
    match given {
        Some(octets) => Some(octets.as_slice()),
        None => None,
    }
}

/// The exit status if a run would begin so.
fn status_of(beginning: Beginning) -> u8
    ensures { result ≡ status_of_sight beginning }
{
    match beginning {
        Beginning::PutAside => BAD_CONTENT,
        Beginning::Anew | Beginning::LinksReset | Beginning::GoesOn => DONE,
    }
}

/// Why nothing is answered.
fn fault_of(fault: StateFault) -> Fault
    ensures { IsLookFault result }
{
    match fault {
        StateFault::Wrong | StateFault::Device => Fault::Unread,
        StateFault::NoMemory => Fault::NoMemory,
    }
}
