//! The command that judges settings.
ghost use Rattle.std.specs.Prelude.{MatchResult};
ghost use Rattle.telegate.specs.Given.{IsGood, IsReadConfig};
ghost use Rattle.telegate.specs.Checks.{AreLinesGiven, IsCheckDone, IsCheckFault, IsGoodFor};
ghost use Rattle.telegate.specs.Checks.{IsRefusalAnswered};
ghost use Rattle.telegate.specs.Faults.{status_of};

use crate::answer::CommandAnswer;
use crate::fault::{DONE, Fault};
use crate::living::read_live;
use crate::performing::{give, write_fault};
use crate::pointing::{NamedText, point_keys, warn_of};
use gateway::Config;
use settings::{ConfigFault, explain, explain_site, is_here};
use std::alloc::{AllocError, Global};
use std::io::Write;
use traces::print;

/// How settings are judged.
#[derive(Clone, Copy)]
pub struct Checking {
    /// As for a live run, which needs the keys of `live`.
    pub live: bool,
    /// What is wrong is shown, and where.
    pub explain: bool,
}

/// Judges a file of settings, and answers the exit status. `ok` is printed, or the first fault is
/// written, with what is wrong and where behind it on `out`, if that is asked for. As for a live
/// run it is written too if the line is on another machine. Each wrong key is written with its
/// place before a fault, and what is odd in settings that are good, or in the file of a site beside
/// them.
pub(crate) fn check<W: Write, E: Write>(
    alloc: Global,
    config: NamedText<'_>,
    site: Option<NamedText<'_>>,
    how: Checking,
    out: &mut W,
    err: &mut E,
) -> u8
    ensures { IsCheckDone config.entry.octets.now how (W.contents out.old)
        (W.contents out.new) result }
{
    match judge(alloc, config.octets, how.live) {
        Ok(is_here) => {
            if !is_here {
                warn(err);
            }
            warn_of(alloc, config, site, err);
            give(&good(alloc), out, err)
        }
        Err(fault) => refuse(alloc, config, &fault, how, out, err),
    }
}

/// Judges a file of settings, and answers whether the line is on this machine, as far as that is
/// asked for.
fn judge(alloc: Global, config: &[u8], live: bool) -> Result<bool, Fault>
    ensures { MatchResult result (λ is_here. IsGoodFor live config.now)
        (IsCheckFault live config.now) }
{
    if live {
        match read_live(alloc, config) {
            Ok(read) => Ok(is_here(read.1.line.as_bytes())),
            Err(fault) => Err(fault),
        }
    } else {
        match read_config(alloc, config) {
            Ok(_settings) => Ok(true),
            Err(fault) => Err(fault),
        }
    }
}

/// Writes that the line is on another machine, and what that means.
fn warn<E: Write>(err: &mut E) {
    let _ = writeln!(
        err,
        "warning: live.line is on another machine: a network that holds requests back brings stale \
        answers"
    );
}

/// Writes why the file of these octets is refused, and prints what is wrong in it and where, if
/// that is asked for. Answers the exit status.
pub(crate) fn refuse<W: Write, E: Write>(
    alloc: Global,
    file: NamedText<'_>,
    fault: &Fault,
    how: Checking,
    out: &mut W,
    err: &mut E,
) -> u8
    ensures { IsRefusalAnswered how.explain file.entry.octets.now fault.now (W.contents out.old)
        (W.contents out.new) result }
{
    point_keys(alloc, file, how.live, fault, err);
    let text = file.octets;
    if !how.explain {
        return write_fault(fault, err);
    }
    match fault {
        Fault::Config(why) => give_lines(&explain(alloc, text, why), fault, out, err),
        Fault::Site(why) => give_lines(&explain_site(alloc, text, why), fault, out, err),
        _ => write_fault(fault, err),
    }
}

/// Writes a fault, and prints the lines that explain it, if there was memory for them. Answers the
/// exit status.
fn give_lines<W: Write, E: Write>(
    lines: &Result<Vec<u8>, AllocError>,
    fault: &Fault,
    out: &mut W,
    err: &mut E,
) -> u8
    ensures { AreLinesGiven lines.now (status_of fault.now) (W.contents out.old)
        (W.contents out.new) result }
{
    match lines {
        Ok(lines) => {
            let status = write_fault(fault, err);
            match print(lines.as_slice(), out) {
                Ok(()) => status,
                Err(_) => write_fault(&Fault::Device, err),
            }
        }
        Err(_) => write_fault(&Fault::NoMemory, err),
    }
}

/// The answer to settings that are good.
fn good(alloc: Global) -> Result<CommandAnswer, Fault>
    ensures { IsGood result }
{
    match String::from_str(alloc, "ok\n") {
        Ok(text) => Ok(CommandAnswer {
            text: text.into_bytes(),
            status: DONE,
        }),
        Err(_) => Err(Fault::NoMemory),
    }
}

/// The settings of a file.
pub(crate) fn read_config(alloc: Global, config: &[u8]) -> Result<Config, Fault>
    ensures { IsReadConfig config.now result }
{
    match settings::read_config(alloc, config, false) {
        Ok(config) => Ok(config),
        Err(ConfigFault::NoMemory) => Err(Fault::NoMemory),
        Err(fault) => Err(Fault::Config(fault)),
    }
}
