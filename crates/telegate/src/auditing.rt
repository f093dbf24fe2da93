//! The command that audits a recorded run.
ghost use Rattle.std.specs.Prelude.{◌≡◌, [], MatchResult};
ghost use Rattle.telegate.specs.Audits.{IsAuditedBy, IsComparisonAnswer, IsMemory, fault_of_lem};

use crate::answer::CommandAnswer;
use crate::check::read_config;
use crate::fault::{BAD_CONTENT, DONE, Fault};
use crate::replay::open;
use crate::source::Source;
use gateway::History;
use record::{Comparison, RecordFault, audit_text};
use std::alloc::Global;

/// Runs the gateway over the events of a record, and answers whether its actions are the record's.
/// The settings are judged before the record, which is read once, block by block. This log passed
/// before the record, of which code knows nothing.
pub(crate) fn audit<S: Source>(
    alloc: Global,
    config: &[u8],
    text: &S,
    past: History,
) -> Result<CommandAnswer, Fault>
    ensures { IsAuditedBy config.now past.entries (S.has text.now) result }
{
    let text = open(text)?;
    let config = read_config(alloc, config)?;
    match audit_text(alloc, &config, text, past) {
        Ok(comparison) => answer_comparison(alloc, comparison),
        Err(fault) => Err(fault_of(fault)),
    }
}

/// The same of a record of which nothing is known that passed before.
pub(crate) fn audit_alone<S: Source>(
    alloc: Global,
    config: &[u8],
    text: &S,
) -> Result<CommandAnswer, Fault>
    ensures { IsAuditedBy config.now [] (S.has text.now) result }
{
    audit(alloc, config, text, History::new())
}

/// Why a command stops whose record has no comparison.
fn fault_of(fault: RecordFault) -> Fault
    ensures { result ≡ fault_of_lem fault }
{
    match fault {
        RecordFault::Line(n) => Fault::Record(n),
        RecordFault::Unfit(n) => Fault::Unfit(n),
        RecordFault::Unread => Fault::Unread,
        RecordFault::NoMemory => Fault::NoMemory,
    }
}

/// The line of a comparison, and its exit status: 0 if the two are the same.
fn answer_comparison(alloc: Global, comparison: Comparison) -> Result<CommandAnswer, Fault>
    ensures { MatchResult result (IsComparisonAnswer comparison) IsMemory }
{
    let mut line = String::new(alloc);
    let status = match comparison {
        Comparison::Same { events, actions } => {
            writeln!(line, "same, {events} events, {actions} actions")?;
            DONE
        }
        Comparison::Differs(number) => {
            writeln!(line, "line {number} differs")?;
            BAD_CONTENT
        }
        Comparison::LeftOut(number) => {
            writeln!(
                line,
                "line {number}: lines are left out here; those before it are the same"
            )?;
            BAD_CONTENT
        }
    };
    Ok(CommandAnswer {
        text: line.into_bytes(),
        status,
    })
}
