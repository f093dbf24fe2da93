//! Commands done.
ghost use Rattle.std.specs.Prelude.{◌≡◌};
ghost use Rattle.telegate.specs.Faults.{status_of};
ghost use Rattle.telegate.specs.Answers.{Performs};
ghost use Rattle.telegate.specs.Given.{IsGiven};

use crate::answer::CommandAnswer;
use crate::fault::{DONE, Fault};
use crate::job::Job;
use crate::pointing::{NamedText, point_script};
use crate::showing::{show101, show104};
use crate::simulating::simulate;
use std::alloc::Global;
use std::io::Write;
use traces::print;

/// Does a command: its answer goes to `out`, or the line of a fault to `err`. Answers the exit
/// status: 0 done, 1 a bad frame or a file with wrong content, 3 if the output can't be written
/// (what was written is then a beginning of the answer's text), 4 if memory was refused. A run over
/// a script prints while it goes on. So after 4 a beginning of its lines may have been written, and
/// if it is watched it says on `err` how far it has come. The others print when all is there. A
/// fault of a file is told by the names of settings and script.
pub fn perform<W: Write, E: Write>(
    alloc: Global,
    job: &Job<'_>,
    is_watched: bool,
    names: (&str, &str),
    out: &mut W,
    err: &mut E,
) -> u8
    ensures { Performs job.now (W.contents out.old) (W.contents out.new) result }
{
    // No replay: its trace is read by blocks, and never stands in a `Job` (docs/DECISIONS.md, "No
    // replay in `perform`").
    match job {
        Job::Show101(sizes, hex, words) => give(&show101(alloc, *sizes, *hex, *words), out, err),
        Job::Show104(hex, words) => give(&show104(alloc, *hex, *words), out, err),
        Job::Sim(config, script, manner) => {
            match simulate(alloc, *config, *script, *manner, is_watched, out, err) {
                Ok(()) => DONE,
                Err(fault) => {
                    let config = NamedText {
                        name: names.0,
                        octets: *config,
                    };
                    let script = NamedText {
                        name: names.1,
                        octets: *script,
                    };
                    point_script(alloc, config, script, false, &fault, err);
                    write_fault(&fault, err)
                }
            }
        }
    }
}

/// Prints an answer, or writes a fault, and answers the exit status.
pub(crate) fn give<W: Write, E: Write>(
    answer: &Result<CommandAnswer, Fault>,
    out: &mut W,
    err: &mut E,
) -> u8
    ensures { IsGiven answer.now (W.contents out.old) (W.contents out.new) result }
{
    match answer {
        Ok(answer) => match print(answer.text.as_slice(), out) {
            Ok(()) => answer.status,
            Err(_) => write_fault(&Fault::Device, err),
        },
        Err(fault) => write_fault(fault, err),
    }
}

/// Writes the line of a fault, as far as that can be done, and answers its exit status.
pub(crate) fn write_fault<E: Write>(fault: &Fault, err: &mut E) -> u8
    ensures { result ≡ status_of fault.now }
{
    let _ = writeln!(err, "{fault}");
    fault.status()
}
