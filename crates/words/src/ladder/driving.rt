//! Runs that print what passes in words while they go on.
ghost use Rattle.std.specs.Prelude.{◌≡◌, ◌⊎◌, ◌+◌, ◌-◌, ◌<◌, ℕ, List, Option, IfSome, Some};
ghost use Rattle.std.specs.Prelude.{true};
ghost use Rattle.gateway.specs.Accounts.{IsAccounted};
ghost use Rattle.gateway.specs.Agrees.{Follows, Rests};
ghost use Rattle.gateway.specs.Reports.{Setup};
ghost use Rattle.gateway.specs.Runs.{UnlessDevice, MoreEvents};
ghost use Rattle.gateway.specs.Traffic.{IsFaithful, HasRested};
ghost use Rattle.traces.specs.Pouring.{IsPoured};

use crate::ladder::Ladder;
use gateway::{End, Gateway, drive_on};
use std::io::Write;
use traces::{Paged, print_behind};

/// So many turns pass before their lines are printed: some 30 KB, if each event has an action.
const PART: u64 = 256;

/// Takes the events of the port in a ladder one after another, at most so many, as `drive_on` does,
/// and prints the ladder's lines while it goes on. If the output fails, or has failed before,
/// nothing more is printed, and the run goes on to its end: the second answer is whether all was
/// printed. After `Device`, which says that the port failed or memory was refused to a line, what
/// was printed are the lines of the run up to some turn before.
pub fn drive_in_words<P: Paged + Drop, W: Write>(
    gateway: &mut Gateway,
    ladder: &mut Ladder<P>,
    turns: u64,
    was_whole: bool,
    out: &mut W,
) -> (End, bool)
    requires port { P.failed ladder.old.port ≡ 0 }
    requires own { ladder.old.failed ≡ 0 }
    // As of `drive_on`.
    ensures faithful { (p : Setup) → Follows p gateway.old (P.log ladder.old.port) →
        Rests p (P.log ladder.old.port) → IfSome (P.log ladder.new.port) (IsFaithful p) }
    ensures rests { (p : Setup) → Follows p gateway.old (P.log ladder.old.port) →
        Rests p (P.log ladder.old.port) →
        UnlessDevice result.0 (IfSome (P.log ladder.new.port) (HasRested p)) }
    ensures kept { (p : Setup) → Follows p gateway.old (P.log ladder.old.port) →
        Rests p (P.log ladder.old.port) →
        UnlessDevice result.0 (Follows p gateway.new (P.log ladder.new.port)) }
    ensures accounts { (p : Setup) → Follows p gateway.old (P.log ladder.old.port) →
        Rests p (P.log ladder.old.port) →
        UnlessDevice result.0 (IfSome (P.log ladder.new.port) (IsAccounted p gateway.new)) }
    ensures turns { result.0 ≡ End.Turns →
        MoreEvents turns (P.log ladder.old.port) (P.log ladder.new.port) }
    ensures finished { result.0 ≡ End.Finished → P.ended ladder.new.port ≡ true }
    ensures course { P.course ladder.new.port ≡ P.course ladder.old.port }
    ensures style { ladder.new.scribe.style ≡ ladder.old.scribe.style }
    // What was printed keeps every promise, or nothing was.
    ensures so_far { (out.new ≡ out.old) ⊎ ((p : Setup) →
        Follows p gateway.old (P.log ladder.old.port) → Rests p (P.log ladder.old.port) →
        IsFaithful p ladder.new.scribe.poured) }
    // All of the log was printed, or a beginning, if that is so of what was before.
    ensures all { UnlessDevice result.0 (P.log ladder.new.port ≡ Some ladder.new.scribe.poured) }
    ensures cleared { UnlessDevice result.0
        (P.log ladder.new.port ≡ Some (P.poured ladder.new.port)) }
    ensures noted { UnlessDevice result.0 (ladder.new.scribe.is_noted ≡ true) }
    ensures healthy { UnlessDevice result.0 (P.failed ladder.new.port ≡ 0) }
    ensures logged { (before : Option (List ℕ)) →
        IsPoured was_whole before (W.contents out.old) ladder.old.scribe.logged →
        IsPoured result.1 before (W.contents out.new) ladder.new.scribe.logged }
{
    let mut is_whole = was_whole;
    let mut done = 0;
    'parts: while turns - done > PART {
        let ended = drive_on(gateway, ladder, PART);
        let poured = pour(ladder, ended, is_whole, out);
        match poured.0 {
            End::Turns => is_whole = poured.1,
            _ => return poured,
        }
        done += PART;
    }
    let ended = drive_on(gateway, ladder, turns - done);
    pour(ladder, ended, is_whole, out)
}

/// Prints the lines on the page behind a part of a run that ended so, unless the output failed
/// before, and takes them off it. If memory was refused to a line the device has failed.
fn pour<P: Paged + Drop, W: Write>(
    ladder: &mut Ladder<P>,
    end: End,
    is_whole: bool,
    out: &mut W,
) -> (End, bool)
    ensures all { UnlessDevice result.0 (P.log ladder.old.port ≡ Some ladder.new.scribe.poured) }
    ensures cleared { UnlessDevice result.0
        (P.log ladder.old.port ≡ Some (P.poured ladder.new.port)) }
    ensures same { UnlessDevice result.0 (result.0 ≡ end) }
    ensures noted { UnlessDevice result.0 (ladder.new.scribe.is_noted ≡ true) }
    ensures unpoured { result.0 ≡ End.Device →
        (out.new ≡ out.old) × (ladder.new ≡ ladder.old) }
    ensures log { P.log ladder.new.port ≡ P.log ladder.old.port }
    ensures failed { P.failed ladder.new.port ≡ P.failed ladder.old.port }
    ensures own { ladder.new.failed ≡ ladder.old.failed }
    ensures ended { P.ended ladder.new.port ≡ P.ended ladder.old.port }
    ensures course { P.course ladder.new.port ≡ P.course ladder.old.port }
    ensures style { ladder.new.scribe.style ≡ ladder.old.scribe.style }
    ensures logged { (before : Option (List ℕ)) →
        IsPoured is_whole before (W.contents out.old) ladder.old.scribe.logged →
        IsPoured result.1 before (W.contents out.new) ladder.new.scribe.logged }
{
    if let End::Device = end {
        return (End::Device, is_whole);
    }
    if !ladder.is_noted() {
        return (End::Device, is_whole);
    }
    let is_taken = print_behind(ladder.page(), is_whole, out);
    ladder.clear_page();
    (end, is_taken)
}
