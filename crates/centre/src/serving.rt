//! A control centre in time.
ghost use Rattle.std.specs.Prelude.{IfOk, OnOk};
ghost use Rattle.centre.specs.Courses.{HasConversed, HasPursued, IsPrinted};

use crate::desk::Desk;
use crate::errand::Outcome;
use crate::telling::{Style, silent_line};
use live::{OctetStream, RunClock};
use std::alloc::{AllocError, Global};
use std::io::Write;
use traces::print;

/// Why what passes isn't told any more.
#[derive(Clone, Copy, Debug, PartialEq, Eq)]
pub enum Untold {
    NoMemory,
    /// The output can't be written.
    Device,
}

impl From<AllocError> for Untold {
    fn from(_error: AllocError) -> Untold {
        Untold::NoMemory
    }
}

/// Goes on round by round, each at the moment that the clock gives then, until all is done, and
/// prints what passes. Answers what became of the errand.
pub fn converse<C: RunClock, S: OctetStream + Drop, W: Write>(
    clock: &mut C,
    desk: &mut Desk<S>,
    out: &mut W,
) -> Result<Outcome, Untold>
    ensures { IfOk result (λ outcome. HasConversed desk.old outcome desk.new
        (W.contents out.old) (W.contents out.new)) }
{
    'rounds: for _ in 0..u64::MAX {
        if desk.is_over() {
            break;
        }
        let text = desk.round(clock.now_ms())?;
        let Ok(()) = print(text.as_bytes(), out) else {
            return Err(Untold::Device);
        };
    }
    match desk.outcome() {
        Some(outcome) => Ok(outcome),
        // So many rounds never pass.
        None => Err(Untold::Device),
    }
}

/// Converses until all is done. If an errand ends since nothing came from some stations, a line
/// names each of those that a request to all waited for.
#[tactic(auto, using(crate::proofs::Named::all_printed, crate::proofs::Named::nothing_printed))]
pub fn pursue<C: RunClock, S: OctetStream + Drop, W: Write>(
    alloc: Global,
    clock: &mut C,
    style: Style,
    desk: &mut Desk<S>,
    out: &mut W,
) -> Result<Outcome, Untold>
    ensures { IfOk result (λ outcome. HasPursued desk.old outcome desk.new
        (W.contents out.old) (W.contents out.new)) }
{
    let outcome = converse(clock, desk, out)?;
    if outcome == Outcome::Silent {
        name_silent(alloc, style, desk.silent(), out)?;
    }
    Ok(outcome)
}

/// Prints a line for each station of which nothing came.
fn name_silent<W: Write>(
    alloc: Global,
    style: Style,
    stations: &[u16],
    out: &mut W,
) -> Result<(), Untold>
    ensures { OnOk result (IsPrinted (W.contents out.old) (W.contents out.new)) }
{
    let mut text = String::new(alloc);
    for ca in stations {
        text.push_str(silent_line(alloc, style, *ca)?.as_str())?;
    }
    match print(text.as_bytes(), out) {
        Ok(()) => Ok(()),
        Err(_) => Err(Untold::Device),
    }
}
