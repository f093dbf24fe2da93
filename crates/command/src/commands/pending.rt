//! What is kept of commands and ends with the connection, one by one, for who tells it.
ghost use Rattle.std.specs.Prelude.{◌≡◌, ◌<◌, IfSome, option_map, slice_get};
ghost use Rattle.command.specs.Pending.{selected_of, waiting_of};

use super::Commands;
use crate::selection::{SelectedObject, Selection};

/// What a selection is told as.
fn selected(selection: Selection) -> SelectedObject
    ensures { result ≡ selected_of selection }
{
    SelectedObject {
        station: selection.station,
        kind: selection.command.kind,
        ca: selection.command.ca,
        address: selection.command.address,
    }
}

impl Commands {
    /// The command that waits for the line at this place, the oldest at 0: the place of its station
    /// among the stations, and its ASDU as it came. Each of these was never put on the line.
    pub fn waiting_at(&self, place: usize) -> Option<(usize, &[u8])>
        ensures value { option_map (λ w. (w.0, w.1.now)) result
            ≡ option_map waiting_of (slice_get self.now.waiting place) }
        ensures few { IfSome result (λ _. place < 64) }
    {
        match self.waiting.get(place) {
            Some(waiting) => Some((waiting.station, waiting.received.as_slice())),
            None => None,
        }
    }

    /// The selection at this place.
    pub fn selection_at(&self, place: usize) -> Option<SelectedObject>
        ensures value { result ≡ option_map selected_of (slice_get self.now.selections place) }
        ensures few { IfSome result (λ _. place < 16) }
    {
        match self.selections.get(place) {
            Some(selection) => Some(selected(*selection)),
            None => None,
        }
    }

    /// The own answer at this place that wasn't sent, the oldest at 0: its ASDU.
    pub fn own_answer_at(&self, place: usize) -> Option<&[u8]>
        ensures value { option_map (λ a. a.now) result ≡ slice_get self.now.answers place }
        ensures few { IfSome result (λ _. place < 16) }
    {
        if place >= self.answers.len() {
            return None;
        }
        match self.answers.get(place) {
            Some(answer) => Some(answer.as_slice()),
            None => None,
        }
    }
}
