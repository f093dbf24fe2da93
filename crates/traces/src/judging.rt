//! The judgement of a trace before it is run.
ghost use Rattle.traces.specs.Progress.{IsJudgement};

use crate::event::{FirstLine, first_line, judged};
use crate::reading::TextFault;

/// Judges a part of a trace, which is whole lines, without the line feed behind the last of them.
/// Lines are counted from `first`, the number of the part's first one: answers that of the line
/// behind it. The first wrong line is the fault. It takes no memory; `NoMemory` says that there are
/// more lines than any memory holds.
pub fn judge(text: &[u8], first: u64) -> Result<u64, TextFault>
    ensures { IsJudgement first text.now result }
{
    let mut left = Some(text);
    for number in first..u64::MAX {
        let Some(text) = left else {
            return Ok(number);
        };
        match first_line(text) {
            FirstLine::Skipped(rest) => left = rest,
            FirstLine::Event(event) => {
                // Not decoded: a text without a wrong line is read once more, and run then
                // (docs/DECISIONS.md, "A trace is judged before it is run").
                let Some(rest) = judged(&event) else {
                    return Err(TextFault::Line(number));
                };
                left = rest;
            }
            FirstLine::Wrong => return Err(TextFault::Line(number)),
        }
    }
    Err(TextFault::NoMemory)
}
