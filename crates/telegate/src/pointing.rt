//! Where a file is wrong, and why, in lines for a person and for an editor: `FILE:LINE:COLUMN:
//! WHY`, before the fault's own line.
//!
//! What these lines say is tested (`checks/faults.py`, `checks/settings.py`, `checks/site.py`).

use crate::fault::Fault;
use crate::host::{Host, HostFile};
use crate::source::Source;
use gateway::Config;
use settings::{
    ConfigFault, Remark, Site, config_remarks, listen_remarks, live_remarks, read_live_config,
    site_remarks, stranger_remarks,
};
use sim::{TextFault, read_scenario, read_script, script_flaw};
use std::alloc::{AllocError, Global};
use std::io::{Read, Write};
use traces::{Blocks, Flaw, cut, record_flaw, trace_flaw};

const LINE_FEED: u8 = b'\n';

/// So many wrong lines of one text are told at the most.
const MOST_LINES: usize = 40;

/// A file that was read.
#[derive(Clone, Copy)]
pub(crate) struct NamedText<'a> {
    pub(crate) name: &'a str,
    pub(crate) octets: &'a [u8],
}

/// Writes all that is wrong with the file of settings or of a site whose first fault this is. The
/// settings are those of a live run, if that is asked for.
pub(crate) fn point_keys<E: Write>(
    alloc: Global,
    file: NamedText<'_>,
    live: bool,
    fault: &Fault,
    err: &mut E,
) {
    match fault {
        Fault::Config(why) => {
            put_remarks(
                file,
                "",
                &config_remarks(alloc, file.octets, live, why),
                err,
            );
        }
        Fault::Site(why) => put_remarks(file, "", &site_remarks(alloc, file.octets, why), err),
        _ => {}
    }
}

/// The same of a site's file of this name, which is read once more: what words say beside it made
/// the fault.
pub(crate) fn point_site<H: Host, E: Write>(
    alloc: Global,
    host: &H,
    name: Option<&str>,
    fault: &Fault,
    err: &mut E,
) {
    let Some(name) = name else {
        return;
    };
    if let (true, Ok(octets)) = (host.can_reopen(name), host.read(name)) {
        let octets = octets.as_slice();
        point_keys(alloc, NamedText { name, octets }, false, fault, err);
    }
}

/// Writes in which directory the state can't be kept, and why.
pub(crate) fn point_directory<E: Write>(name: Option<&str>, fault: &Fault, err: &mut E) {
    let Some(name) = name else {
        return;
    };
    match fault {
        Fault::StateInUse => {
            let _ = writeln!(err, "error: state {name}: in use by another process");
        }
        Fault::StateUnusable(cause) => {
            let _ = writeln!(err, "error: state {name}: {cause}");
        }
        _ => {}
    }
}

/// Writes all that is wrong with settings that a command only compares, if anything is.
pub(crate) fn point_settings<E: Write>(alloc: Global, config: NamedText<'_>, err: &mut E) {
    if let Err(why) = settings::read_config(alloc, config.octets, false) {
        let remarks = config_remarks(alloc, config.octets, false, &why);
        put_remarks(config, "", &remarks, err);
    }
}

/// Writes what is wrong with settings, or with each line of a script for them, whose fault this is.
/// One that is played may have lines for the outstations alone.
pub(crate) fn point_script<E: Write>(
    alloc: Global,
    config: NamedText<'_>,
    script: NamedText<'_>,
    is_played: bool,
    fault: &Fault,
    err: &mut E,
) {
    point_keys(alloc, config, is_played, fault, err);
    let Fault::Script(number) = fault else {
        return;
    };
    let Ok(config) = settings::read_config(alloc, config.octets, false) else {
        return;
    };
    let _ = point_lines(alloc, &config, script, *number, is_played, err);
}

/// Writes what is wrong with each line of a script, from the first wrong one on, which has this
/// number. A line that was told is passed over then, as a comment is. That `turns` is missing is
/// told alone, since the line that was meant may be a wrong one.
fn point_lines<E: Write>(
    alloc: Global,
    config: &Config,
    script: NamedText<'_>,
    first: u64,
    is_played: bool,
    err: &mut E,
) -> Result<(), AllocError> {
    let mut text = script.octets.to_vec(alloc)?;
    let mut next = Some(first);
    for _ in 0..MOST_LINES {
        let Some(number) = next else {
            return Ok(());
        };
        let flaw = script_flaw(alloc, config, text.as_slice(), number, is_played)?;
        let is_there = skip_line(&mut text, number);
        if is_there || number == first {
            put_flaw(script.name, number, flaw, err);
        }
        next = if is_there {
            wrong_line(alloc, config, text.as_slice(), is_played)
        } else {
            None
        };
    }
    Ok(())
}

/// The first wrong line of a script.
fn wrong_line(alloc: Global, config: &Config, text: &[u8], is_played: bool) -> Option<u64> {
    let fault = if is_played {
        read_scenario(alloc, config, text).err()
    } else {
        read_script(alloc, config, text).err()
    };
    match fault {
        Some(TextFault::Line(number)) => Some(number),
        _ => None,
    }
}

/// Makes a comment of the line with this number. Answers whether it is there.
fn skip_line(text: &mut Vec<u8>, number: u64) -> bool {
    let mut line = 1;
    for at in 0..text.len() {
        if line == number {
            text[at] = b'#';
            return true;
        }
        if text[at] == LINE_FEED {
            line = u64::saturating_add(line, 1);
        }
    }
    false
}

/// Writes what is wrong with each wrong line of a trace, or with the first one of a record. The
/// text is read once more.
pub(crate) fn point_line<S: Source, E: Write>(
    alloc: Global,
    name: &str,
    text: &S,
    as_record: bool,
    fault: &Fault,
    err: &mut E,
) {
    let (Fault::Trace(number) | Fault::Record(number)) = fault else {
        return;
    };
    let Ok(text) = text.open() else {
        return;
    };
    if !as_record {
        point_trace(alloc, name, text, err);
    } else if let Some(line) = line_at(alloc, text, *number) {
        put_flaw(name, *number, record_flaw(line.as_slice()), err);
    }
}

/// Writes what is wrong with each wrong line of a trace.
fn point_trace<R: Read + Drop, E: Write>(alloc: Global, name: &str, text: R, err: &mut E) {
    let mut blocks = Blocks::new(alloc, text);
    let mut number = 1;
    let mut told = 0;
    for _ in 0..u64::MAX {
        let Ok(true) = blocks.advance() else {
            return;
        };
        let mut left = blocks.lines();
        for _ in 0..=blocks.lines().len() {
            let (line, rest) = cut(left, LINE_FEED);
            if let Some(flaw) = trace_flaw(line) {
                put_flaw(name, number, flaw, err);
                told = usize::saturating_add(told, 1);
            }
            number = u64::saturating_add(number, 1);
            if told == MOST_LINES {
                return;
            }
            let Some(behind) = rest else {
                break;
            };
            left = behind;
        }
    }
}

/// The same of a record that was read from a file. What came by a pipe is gone.
pub(crate) fn point_record<H: Host, E: Write>(
    alloc: Global,
    host: &H,
    name: &str,
    fault: &Fault,
    err: &mut E,
) {
    if host.can_reopen(name) {
        point_line(alloc, name, &HostFile { host, name }, true, fault, err);
    }
}

/// Warns of what a file of settings without a fault says, and of what the file of a site says
/// beside it.
pub(crate) fn warn_of<E: Write>(
    alloc: Global,
    config: NamedText<'_>,
    site: Option<NamedText<'_>>,
    err: &mut E,
) {
    put_remarks(config, WARNING, &live_remarks(alloc, config.octets), err);
    if let Ok((_, ends)) = read_live_config(alloc, config.octets) {
        let listen = ends.listen.as_str();
        put_remarks(
            config,
            WARNING,
            &listen_remarks(alloc, config.octets, listen),
            err,
        );
    }
    let Some(file) = site else {
        return;
    };
    let Ok(settings) = settings::read_config(alloc, config.octets, false) else {
        return;
    };
    if let Ok(site) = settings::read_site(alloc, file.octets) {
        let remarks = stranger_remarks(alloc, file.octets, &site, &settings);
        put_remarks(file, WARNING, &remarks, err);
    }
}

const WARNING: &str = "warning: ";

/// Writes remarks on a file, a line each, if there was memory for them.
fn put_remarks<E: Write>(
    file: NamedText<'_>,
    kind: &str,
    remarks: &Result<Vec<Remark>, AllocError>,
    err: &mut E,
) {
    let Ok(remarks) = remarks else {
        return;
    };
    let name = file.name;
    for remark in remarks {
        let line = remark.place.line;
        let column = remark.place.column;
        let words = remark.words.as_str();
        let _ = writeln!(err, "{name}:{line}:{column}: {kind}{words}");
    }
}

fn put_flaw<E: Write>(name: &str, line: u64, flaw: Flaw, err: &mut E) {
    let Flaw { column, why } = flaw;
    let _ = writeln!(err, "{name}:{line}:{column}: {why}");
}

/// The line with this number of a text, counted from 1, if it is there and there is memory for it.
fn line_at<R: Read + Drop>(alloc: Global, text: R, number: u64) -> Option<Vec<u8>> {
    let mut blocks = Blocks::new(alloc, text);
    let mut number = number;
    for _ in 0..u64::MAX {
        let is_there = blocks.advance().ok()?;
        if !is_there {
            return None;
        }
        match line_in(blocks.lines(), number) {
            Ok(line) => return line.to_vec(alloc).ok(),
            Err(left) => number = left,
        }
    }
    None
}

/// The line with this number of these, counted from 1, or its number behind them.
fn line_in(lines: &[u8], number: u64) -> Result<&[u8], u64> {
    let mut left = lines;
    for passed in 1..number {
        let (_, rest) = cut(left, LINE_FEED);
        match rest {
            Some(behind) => left = behind,
            None => return Err(number - passed),
        }
    }
    let (line, _) = cut(left, LINE_FEED);
    Ok(line)
}
