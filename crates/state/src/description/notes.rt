//! The notes of a start with a state.
ghost use Rattle.std.specs.Prelude.{◌≡◌};
ghost use Rattle.state.specs.StartNotes as spec;

use crate::given_up::{GivenUp, Stage};
use crate::start::Beginning;
use gateway::Gateway;
use runlog::{Note, Remnant, taken_places};

/// The note that says what is made of the state in a directory, if there is anything to say.
pub fn note_of(beginning: Beginning) -> Option<Note>
    ensures { result ≡ spec.note_of beginning }
{
    match beginning {
        Beginning::Anew => Some(Note::StateBegins),
        Beginning::PutAside => Some(Note::StatePutAside),
        Beginning::LinksReset => Some(Note::StateStale),
        Beginning::GoesOn => None,
    }
}

/// The note that says from which octet of its file on nothing is read of the log, if that is for
/// damage.
pub fn note_of_damage(damage: Option<usize>) -> Option<Note>
    ensures { result ≡ spec.note_of_damage damage }
{
    match damage {
        Some(octet) => Some(Note::StateDamaged(octet as u64)),
        None => None,
    }
}

/// The note that says that the state was kept under other settings, if it was.
pub fn note_of_settings(is_moved: bool) -> Option<Note>
    ensures { result ≡ spec.note_of_settings is_moved }
{
    if is_moved {
        Some(Note::SettingsChanged)
    } else {
        None
    }
}

/// The note that says with how many pieces a run goes on.
pub fn note_of_queue(gateway: &Gateway) -> Note
    ensures { result ≡ spec.note_of_queue gateway.now }
{
    Note::StateGoesOn(taken_places(gateway))
}

/// What of a connection is given up, in the words of the log.
fn remnant_of(stage: Stage) -> Remnant
    ensures { result ≡ spec.remnant_of stage }
{
    match stage {
        Stage::Unanswered => Remnant::Unanswered,
        Stage::Waiting => Remnant::Waiting,
        Stage::Selection => Remnant::Selection,
        Stage::OwnAnswer => Remnant::OwnAnswer,
    }
}

/// The note that names what a start gives up.
pub fn note_of_given_up(given_up: &GivenUp) -> Note
    ensures { result ≡ spec.note_of_given_up given_up.now }
{
    Note::GivenUp(
        remnant_of(given_up.stage),
        given_up.kind,
        given_up.ca,
        given_up.object,
    )
}
