//! `telegate`, a telecontrol gateway from an IEC 60870-5-101 line to an IEC 60870-5-104 connection:
//! the program.
//!
//! `obey` does what a list of words asks for. It reads the files that they name, in their order,
//! and hands their octets to `perform`, which does the work of one command (`Job`), or to the
//! gateway's live run. It has a trace read by `replay`, block by block, which judges it and then
//! runs it (`Source`). Proved of `obey`, for every list of words and any host: the command is the
//! one that the words name with what stands at each place, and each file's octets go where its name
//! stood. A file that can't be read ends it with 3 before anything is printed. `check` judges the
//! file of a site, if one is named, before it reads the settings. `run` ends as the host's live run
//! ended. Words that ask for nothing end with 2, or 0 if they ask for help or the version. Proved
//! of `perform` and `replay`: what each appends to a writer that notes its octets is the text of
//! the command's answer and nothing else. It is nothing if a text is refused, a beginning of the
//! answer's text if the writer failed, and a beginning of a run's lines if memory was refused while
//! they were printed. The exit status is that of the answer or of the first fault. A run that is
//! printed in words (`--words`) is the same run, and what is printed are the words of its log.
//! Frames that come by a pipe are shown line by line. `status` prints what a live run answers, and
//! ends as its table says. What the system's files, terminals and sockets do, and the lines of
//! faults, are tested.
#![tactic(auto)]

mod allow_laws;
mod allow_list;
mod answer;
mod answer_laws;
mod asking;
mod auditing;
mod capturing;
mod check;
mod closing;
mod command_line;
mod controlling;
mod fault;
mod help;
mod host;
mod in_words;
mod inquiry;
mod job;
mod laws;
mod living;
mod manner;
mod mounts;
mod performing;
mod piping;
mod place;
mod playing;
mod pointing;
mod printed;
mod recorded;
mod replay;
mod run_laws;
mod run_words;
mod running;
mod shell;
mod showing;
mod simulating;
mod simulating_in_words;
mod site;
mod size_laws;
mod source;
mod stood;
mod telling;
mod wishes;
mod word_laws;

use fault::{Fault, USAGE};
use gateway::History;
use host::{Host, System};
use manner::shows_colours;
use performing::write_fault;
use shell::obey;
use site::{Notes, SiteRequest};
use sqlite_std_file::Unknown;
use state::Starts;
use std::io::{IsTerminal, Write};
use std::process::ExitCode;
use std::rt::Env;
use std::{env, io};

/// What stands in the files of a state, of which nothing is supposed.
#[derive(Clone, Copy)]
struct AsTheyStand;

impl Starts for AsTheyStand {
    type Found = Unknown;

    fn found(self) -> Unknown {
        Unknown
    }
}

/// Notes nothing of what live runs ask for.
#[derive(Default, Drop)]
struct Unnoted;

impl Notes for Unnoted {
    ghost use Rattle.std.specs.Prelude.{None};

    ghost calls = { λ _. None };

    ghost clocks = { λ _. None };

    fn note(&mut self, _request: SiteRequest<'_>) {}
}

fn main(rt: HostRuntime) -> ExitCode {
    let mut out = rt.stdout();
    let mut err = rt.stderr();
    // Lines that pass on a terminal say by their moments how far a run has come (docs/DECISIONS.md,
    // "How far a run has come").
    let is_watched = err.is_terminal() && !out.is_terminal();
    let has_colours = shows_colours(out.is_terminal(), &env::var(&rt, "NO_COLOR"));
    let mut system = System {
        rt: &rt,
        is_watched,
        has_colours,
        starts: AsTheyStand,
        lineage: History::new(),
        notes: Unnoted,
    };
    ExitCode::from(run(&rt, &mut system, &mut out, &mut err))
}

/// Does what the process's words ask for, and answers the exit status.
fn run<R: Env + AllocGlobal, H: Host, W: Write, E: Write>(
    rt: &R,
    system: &mut H,
    out: &mut W,
    err: &mut E,
) -> u8 {
    match words_of(rt) {
        Ok(words) => obey(rt.alloc(), system, words.as_slice(), out, err),
        Err(Unspoken::NoMemory) => write_fault(&Fault::NoMemory, err),
        Err(Unspoken::NotText) => {
            let _ = writeln!(err, "error: the words are not UTF-8");
            USAGE
        }
    }
}

/// Why a process has no words.
enum Unspoken {
    /// They are not UTF-8.
    NotText,
    NoMemory,
}

/// The words of the process. The first is the program's name.
fn words_of<R: Env + AllocGlobal>(rt: &R) -> Result<Vec<String>, Unspoken> {
    match env::args(rt) {
        Ok(words) => match words.collect::<Vec<String>>(rt.alloc()) {
            Ok(words) => Ok(words),
            Err(_) => Err(Unspoken::NoMemory),
        },
        Err(fault) if fault.kind() == io::ErrorKind::OutOfMemory => Err(Unspoken::NoMemory),
        Err(_) => Err(Unspoken::NotText),
    }
}
