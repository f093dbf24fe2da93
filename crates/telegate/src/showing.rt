//! The commands that show a frame.
ghost use Rattle.std.specs.Prelude.{◌≡◌, string_bytes};
ghost use Rattle.telegate.specs.Answers.{IsReadOctets, IsShown101, IsShown104, status_by};

use crate::answer::CommandAnswer;
use crate::fault::{BAD_CONTENT, DONE, Fault};
use std::alloc::Global;
use words::{Condition, Shown, describe_apdu, describe_line};

/// Shows the line frame at the front of octets, in one line of words or with a fact a line. The
/// sizes are judged before the octets.
pub(crate) fn show101(
    alloc: Global,
    sizes: &str,
    hex: &str,
    words: bool,
) -> Result<CommandAnswer, Fault>
    ensures { IsShown101 words sizes.now hex.now result }
{
    let Some(sizes) = words::read_sizes(sizes) else {
        return Err(Fault::Sizes);
    };
    let octets = read_octets(alloc, hex)?;
    match describe_line(alloc, sizes, octets.as_slice(), words) {
        Ok(shown) => Ok(answer_of(shown)),
        Err(_) => Err(Fault::NoMemory),
    }
}

/// Shows the APDU at the front of octets, in one line of words or with a fact a line.
pub(crate) fn show104(alloc: Global, hex: &str, words: bool) -> Result<CommandAnswer, Fault>
    ensures { IsShown104 words hex.now result }
{
    let octets = read_octets(alloc, hex)?;
    match describe_apdu(alloc, octets.as_slice(), words) {
        Ok(shown) => Ok(answer_of(shown)),
        Err(_) => Err(Fault::NoMemory),
    }
}

/// The octets of a word.
fn read_octets(alloc: Global, hex: &str) -> Result<Vec<u8>, Fault>
    ensures { IsReadOctets hex.now result }
{
    match traces::read_octets(alloc, hex.as_bytes()) {
        Ok(Some(octets)) => Ok(octets),
        Ok(None) => Err(Fault::Octets),
        Err(_) => Err(Fault::NoMemory),
    }
}

/// The lines, and the exit status that stands for a fault in the octets.
fn answer_of(shown: Shown) -> CommandAnswer
    ensures text { result.text.items ≡ string_bytes shown.lines }
    ensures status { result.status ≡ status_by shown.condition }
{
    CommandAnswer {
        text: shown.lines.into_bytes(),
        status: match shown.condition {
            Condition::Good => DONE,
            Condition::Faulty => BAD_CONTENT,
        },
    }
}
