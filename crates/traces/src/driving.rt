//! Runs that print while they go on, and show on a terminal how far they have come.
ghost use Rattle.std.specs.Prelude.{◌≡◌, ◌≢◌, ℕ, ◌%◌, List, Option, ◌<◌, ◌≤◌, false, true, IfSome};
ghost use Rattle.std.specs.Prelude.{Some};
ghost use Rattle.gateway.specs.Accounts.{IsAccounted};
ghost use Rattle.gateway.specs.Agrees.{Follows, Rests};
ghost use Rattle.gateway.specs.Reports.{Setup};
ghost use Rattle.gateway.specs.Runs.{UnlessDevice, MoreEvents};
ghost use Rattle.gateway.specs.Traffic.{IsFaithful, HasRested};
ghost use Rattle.traces.specs.Actions.{lines_of_actions};
ghost use Rattle.traces.specs.Pouring.{IsPoured};

use crate::paged::Paged;
use crate::progress::{blank_if, show_percent};
use crate::writing::print;
use gateway::{End, Gateway, drive_on};
use std::io::Write;

/// So many turns pass before their lines are printed: some 12 KB, if each event has an action, and
/// 1.3 MB at most, if each has as many APDUs to answer as it can bring.
const PART: u64 = 256;

/// So many turns pass before a run shows how far it has come: 2^19, about half a second.
const STRIDE: u64 = 524_288;

/// Takes the events of a port one after another, at most so many, as `drive_on` does, and prints
/// the lines of the actions as they are made. If the output fails, or has failed before, nothing
/// more is printed, and the run goes on to its end: the second answer is whether all was printed.
/// If a run of more than one stride is watched, standard error shows after each how far it has
/// come, and is blank again at the end. Whether it takes that changes nothing.
pub fn drive_printed<P: Paged, W: Write, E: Write>(
    gateway: &mut Gateway,
    port: &mut P,
    turns: u64,
    was_whole: bool,
    is_watched: bool,
    out: &mut W,
    err: &mut E,
) -> (End, bool)
    requires healthy { P.failed port.old ≡ 0 }
    // As of `drive_on`.
    ensures faithful { (p : Setup) → Follows p gateway.old (P.log port.old) →
        Rests p (P.log port.old) → IfSome (P.log port.new) (IsFaithful p) }
    ensures rests { (p : Setup) → Follows p gateway.old (P.log port.old) →
        Rests p (P.log port.old) → UnlessDevice result.0 (IfSome (P.log port.new) (HasRested p)) }
    ensures kept { (p : Setup) → Follows p gateway.old (P.log port.old) →
        Rests p (P.log port.old) → UnlessDevice result.0 (Follows p gateway.new (P.log port.new)) }
    ensures accounts { (p : Setup) → Follows p gateway.old (P.log port.old) →
        Rests p (P.log port.old) →
        UnlessDevice result.0 (IfSome (P.log port.new) (IsAccounted p gateway.new)) }
    ensures turns { result.0 ≡ End.Turns → MoreEvents turns (P.log port.old) (P.log port.new) }
    ensures finished { result.0 ≡ End.Finished → P.ended port.new ≡ true }
    ensures course { P.course port.new ≡ P.course port.old }
    // All lines of the log were printed, or a beginning of them, if that is so of those before.
    ensures all { P.log port.new ≡ Some (P.poured port.new) }
    ensures healthy { UnlessDevice result.0 (P.failed port.new ≡ 0) }
    ensures poured { (before : Option (List ℕ)) →
        IsPoured was_whole before (W.contents out.old) (lines_of_actions (P.poured port.old)) →
        IsPoured result.1 before (W.contents out.new) (lines_of_actions (P.poured port.new)) }
    // If nobody looks on, nothing is shown, nor in a run of no more than one stride.
    ensures unwatched { is_watched ≡ false → err.new ≡ err.old }
    ensures short { turns ≤ STRIDE → err.new ≡ err.old }
{
    // `replay` and `sim` share it (docs/DECISIONS.md, "The driver that prints").
    let is_shown = is_watched && turns > STRIDE;
    let mut is_whole = was_whole;
    let mut done = 0;
    'parts: while turns - done > PART {
        let end = drive_on(gateway, port, PART);
        is_whole = pour(port, is_whole, out);
        match end {
            End::Turns => done += PART,
            end => {
                blank_if(is_shown, err);
                return (end, is_whole);
            }
        }
        show_after(is_shown, done, turns, err);
    }
    let end = drive_on(gateway, port, turns - done);
    is_whole = pour(port, is_whole, out);
    blank_if(is_shown, err);
    (end, is_whole)
}

/// Prints the lines that are on the page, unless the output failed before, and takes them off it.
/// Answers whether the output has taken all.
fn pour<P: Paged, W: Write>(port: &mut P, is_whole: bool, out: &mut W) -> bool
    ensures all { P.log port.old ≡ Some (P.poured port.new) }
    ensures log { P.log port.new ≡ P.log port.old }
    ensures failed { P.failed port.new ≡ P.failed port.old }
    ensures ended { P.ended port.new ≡ P.ended port.old }
    ensures course { P.course port.new ≡ P.course port.old }
    ensures poured { (before : Option (List ℕ)) →
        IsPoured is_whole before (W.contents out.old) (lines_of_actions (P.poured port.old)) →
        IsPoured result before (W.contents out.new) (lines_of_actions (P.poured port.new)) }
{
    // No line is kept that went out: proofs alone know the log (docs/DECISIONS.md, "`replay` and
    // `sim` print while they run").
    let page = port.page();
    // An output that fails ends no run (docs/DECISIONS.md, "An output that fails").
    let is_taken = is_whole && print(page, out).is_ok();
    port.clear_page();
    is_taken
}

/// Shows how far a run has come after each stride, if that is to be shown.
fn show_after<E: Write>(is_shown: bool, done: u64, all: u64, err: &mut E)
    requires within { done ≤ all }
    requires some { 0 < all }
    ensures unwatched { is_shown ≡ false → err.new ≡ err.old }
    // Nothing is shown within a stride.
    ensures between { done % STRIDE ≢ 0 → err.new ≡ err.old }
{
    if is_shown && done % STRIDE == 0 {
        let _ = show_percent(done, all, err);
    }
}
