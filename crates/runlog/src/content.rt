//! What a station's report holds.
ghost use Rattle.std.specs.Prelude.{◌≡◌};
ghost use Rattle.gateway.specs.Counting.{is_answer_type};
ghost use Rattle.runlog.specs.Traffic as spec;

use crate::fate::CommandFate;
use asdu::{Sizes, read};
use elements::TypeId;

/// Why a report isn't passed on.
#[derive(Clone, Copy, PartialEq, Eq)]
pub enum Skip {
    /// It is too short for a header and an object address.
    TooShort,
    /// Its type isn't known.
    TypeUnknown,
    /// It says that it has no objects.
    NoObjects,
    /// It has another length than type, number of objects and sizes give.
    OtherLength,
    /// Its last object address is past its size.
    PastSize,
    /// It is of a monitor type, with a negative 'unknown type'.
    Negative,
}

/// What a station's report holds.
#[derive(Clone, Copy, PartialEq, Eq)]
pub(crate) enum Content {
    /// What goes on to the control centre.
    Report,
    /// An answer to a command.
    Reply,
    /// What isn't passed on.
    Skipped(Skip),
}

fn skip_by(number: u8) -> Skip
    ensures { result ≡ spec.skip_by number }
{
    match number {
        1 => Skip::TooShort,
        2 => Skip::TypeUnknown,
        3 => Skip::NoObjects,
        4 => Skip::OtherLength,
        _ => Skip::PastSize,
    }
}

/// Whether a station answers a command by this type.
fn is_answer(kind: TypeId) -> bool
    ensures { result ≡ is_answer_type kind }
{
    !kind.monitor() && !kind.tagged()
}

/// What a report in these sizes holds.
pub(crate) fn content_of(sizes: Sizes, report: &[u8]) -> Content
    ensures { result ≡ spec.content_of sizes report.now }
{
    match read(sizes, report) {
        Err(why) => Content::Skipped(skip_by(why.0)),
        Ok(asdu) => {
            if is_answer(asdu.kind) {
                Content::Reply
            } else if asdu.is_passed_on() {
                Content::Report
            } else {
                Content::Skipped(Skip::Negative)
            }
        }
    }
}

/// What a station answers a command by this cause octet.
pub(crate) fn reply_of(cause: u8) -> Option<CommandFate>
    ensures { result ≡ spec.reply_of cause }
{
    // Causes 44 to 47 name what isn't known there. P/N says that the answer is negative.
    if 44 <= cause % 64 || 64 <= cause % 128 {
        return Some(CommandFate::Denied);
    }
    match cause % 64 {
        10 => Some(CommandFate::Terminated),
        7 | 9 => Some(CommandFate::Confirmed),
        _ => None,
    }
}
