//! The lines of events in memory.
ghost use Rattle.std.specs.Prelude.{◌≡◌, ◌∷◌, ◌≤◌, ◌==◌, ◌<◌, [], drop, length, position, IfSome};
ghost use Rattle.std.specs.Prelude.{IsNone};
ghost use Rattle.state.specs.Replays.{whole_lines};
ghost use Rattle.traces.specs.Trace.{lines_of};

use crate::replaying::EventLines;
use checkpoint::StateFault;

/// The lines of a text in memory. What no line feed follows is no line: a crash may leave one that
/// was cut off.
#[derive(Drop)]
pub struct EventText {
    text: Vec<u8>,
    /// Where the next line begins.
    at: usize,
    ghost within: { at ≤ length text.items },
}

impl EventText {
    ghost use Rattle.state.specs.Replays.{whole_lines};

    /// The lines of this text.
    pub fn new(text: Vec<u8>) -> EventText
        ensures { whole_lines (drop result.at result.text.items) ≡ whole_lines text.items }
    {
        EventText { text, at: 0 }
    }
}

/// The place of the first line feed.
fn place(text: &[u8]) -> Option<usize>
    ensures first { result ≡ position (λ b. b == 10) text.now }
    ensures within { IfSome result (λ i. i < length text.now) }
{
    text.iter().position(|octet| *octet == b'\n')
}

/// The line at a place, and where the line behind it begins, if a whole one is there.
fn row_at(text: &[u8], at: usize) -> Option<(&[u8], usize)>
    requires { at ≤ length text.now }
    ensures some { IfSome result (λ found. whole_lines (drop at text.entry.now)
        ≡ found.0.now ∷ whole_lines (drop found.1 text.entry.now)) }
    ensures one { IfSome result (λ found. lines_of found.0.now ≡ found.0.now ∷ []) }
    ensures within { IfSome result (λ found. found.1 ≤ length text.entry.now) }
    ensures none { IsNone result → whole_lines (drop at text.entry.now) ≡ [] }
{
    let left = &text[at..];
    match place(left) {
        Some(i) => Some((&left[..i], at + i + 1)),
        None => None,
    }
}

impl EventLines for EventText {
    ghost coming = { λ t. whole_lines (drop t.at t.text.items) };

    fn next_line(&mut self, line: &mut Vec<u8>) -> Result<bool, StateFault> {
        let Some((row, behind)) = row_at(&self.text, self.at) else {
            return Ok(false);
        };
        line.clear();
        if line.extend_from_slice(row).is_err() {
            return Err(StateFault::NoMemory);
        }
        self.at = behind;
        Ok(true)
    }
}
