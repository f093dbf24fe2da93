//! What the program does with its words: the files that they name are read, and the command is
//! done.
ghost use Rattle.std.specs.Prelude.{◌≡◌, ◌⊎◌, ◌∷◌, [], IfErr, IfOk, OnOk, map, string_bytes};
ghost use Rattle.std.specs.Io.KnownBytes.{Appends};
ghost use Rattle.clap.specs.Words.{kind_of};
ghost use Rattle.telegate.specs.CommandLine.{text_of};
ghost use Rattle.telegate.specs.Answers.{IsReplayed, Runs};
ghost use Rattle.telegate.specs.Captures.{IsCapturedBy};
ghost use Rattle.telegate.specs.Piping.{HasPiped, PipesLine};
ghost use Rattle.telegate.specs.Shell.{HaveEnded, IsGivenIn, PlayFiles, ShowsDirectory};
ghost use Rattle.telegate.specs.Shell.{ShowsState};
ghost use Rattle.telegate.specs.Stood.{octets_of};
ghost use Rattle.telegate.specs.Shell.{AuditsFile, ChecksBehind, ChecksFile, IsNoSite, IsNotRead};
ghost use Rattle.telegate.specs.Shell.{IsRunAskedFor, IsRunOf, IsSilent, IsUsageAnswered, Obeys};
ghost use Rattle.telegate.specs.Shell.{ReplaysFile, Responds, RunsAsSaid, RunsAtSite, RunsFile};
ghost use Rattle.telegate.specs.Shell.{input, unreadable_line};
ghost use Rattle.telegate.specs.Wishes.{HasEndedLive, HasRunAsAsked, HasRunAsWished, HasRunLive};
ghost use Rattle.telegate.specs.Wishes.{IsSiteIn, site_files};

use crate::asking::ask_status;
use crate::auditing::audit_alone;
use crate::capturing::capture;
use crate::check::{Checking, check, refuse};
use crate::closing::Closing;
use crate::command_line::{CommandRequest, parse, request_of};
use crate::controlling::be_centre;
use crate::fault::{DEVICE_FAILED, DONE, Fault, USAGE};
use crate::host::{Host, HostFile, INPUT, Unread, Wishes};
use crate::job::Job;
use crate::manner::{Manner, manner_of};
use crate::performing::{give, perform, write_fault};
use crate::piping::{Piped, end_pipe, pipe};
use crate::pointing::{
    NamedText, point_directory, point_keys, point_line, point_record, point_script, point_settings,
    point_site,
};
use crate::replay::{AskedReplay, replay};
use crate::run_words::RunWords;
use crate::source::{HeldText, Source};
use crate::stood::answer_stood;
use crate::wishes::{judge_site, site_in, wishes_of};
use clap::Error;
use clap::error::ErrorKind;
use settings::Site;
use std::alloc::Global;
use std::io;
use std::io::Write;

/// Those of a command that reads no file.
const NO_NAMES: (&str, &str) = ("", "");

/// The octets of a file with its name.
fn named<'a>(name: &'a str, octets: &'a Vec<u8>) -> NamedText<'a>
    ensures { result.octets.now ≡ octets.now.items }
{
    NamedText {
        name,
        octets: octets.as_slice(),
    }
}

/// Does what the words of a process ask for, of which the first is the program's name. Answers the
/// exit status: that of the command, or 2 if the words are wrong, and 0 for help and the version.
pub(crate) fn obey<H: Host, W: Write, E: Write>(
    alloc: Global,
    host: &mut H,
    words: &[String],
    out: &mut W,
    err: &mut E,
) -> u8
    ensures obeys { Obeys (H.has host.old) (H.lacks host.old) (H.ran host.old host.new)
        (H.answered host.old) (H.silent host.old) (H.played host.old) (H.stands host.old)
        (H.colours host.old) (map string_bytes words.now) (W.contents out.old)
        (W.contents out.new) result }
    // Nothing is run live unless the words ask for it, and then once.
    ensures alone { (host.new ≡ host.old) ⊎ IsRunAskedFor (H.has host.old)
        (H.ran host.old host.new) (map string_bytes words.now) result }
{
    match parse(alloc, words) {
        Ok(matches) => match request_of(&matches) {
            Some(request) => respond(alloc, host, &request, out, err),
            None => USAGE,
        },
        Err(fault) => print_usage(&fault, out, err),
    }
}

/// Prints what the words gave in place of a command, and answers the exit status.
fn print_usage<W: Write, E: Write>(fault: &Error, out: &mut W, err: &mut E) -> u8
    ensures answered { IsUsageAnswered (kind_of fault.now) result }
    ensures silent { IsSilent (kind_of fault.now) (W.contents out.old) (W.contents out.new) }
{
    match fault.kind() {
        ErrorKind::OutOfMemory => write_fault(&Fault::NoMemory, err),
        ErrorKind::DisplayHelp | ErrorKind::DisplayVersion => {
            let printed = show(fault, out);
            end_of(&printed, DONE, err)
        }
        _ => {
            let printed = show(fault, err);
            end_of(&printed, USAGE, err)
        }
    }
}

/// The exit status behind a text that was to be printed: this one, if it was.
fn end_of<E: Write>(printed: &io::Result<()>, status: u8, err: &mut E) -> u8
    ensures { (result ≡ status) ⊎ (result ≡ 3) }
{
    match printed {
        Ok(()) => status,
        Err(_) => write_fault(&Fault::Device, err),
    }
}

fn show<W: Write>(fault: &Error, to: &mut W) -> io::Result<()> {
    write!(to, "{fault}")?;
    to.flush()
}

/// Reads the files that a request names, in the order of the words, and does the command. A trace
/// is read while it is judged, and again while it is run.
pub(crate) fn respond<H: Host, W: Write, E: Write>(
    alloc: Global,
    host: &mut H,
    request: &CommandRequest<'_, '_>,
    out: &mut W,
    err: &mut E,
) -> u8
    ensures responds { Responds (H.has host.old) (H.lacks host.old) (H.ran host.old host.new)
        (H.answered host.old) (H.silent host.old) (H.played host.old) (H.stands host.old)
        (H.colours host.old) request.now (W.contents out.old) (W.contents out.new) result }
    ensures alone { (host.new ≡ host.old) ⊎ IsRunOf (H.has host.old) (H.ran host.old host.new)
        request.now result }
{
    let is_watched = host.is_watched();
    let has_colours = host.shows_colours();
    match request {
        CommandRequest::Show101 { sizes, hex, words } => {
            if *hex == INPUT {
                return pipe_line(alloc, host, *sizes, *words, out, err);
            }
            let job = Job::Show101(*sizes, *hex, *words);
            perform(alloc, &job, is_watched, NO_NAMES, out, err)
        }
        CommandRequest::Show104 { hex, words } => {
            if *hex == INPUT {
                return pipe_frames(alloc, host, Piped::Connection, *words, out, err);
            }
            let job = Job::Show104(*hex, *words);
            perform(alloc, &job, is_watched, NO_NAMES, out, err)
        }
        CommandRequest::Check {
            config,
            site,
            live,
            explain,
        } => {
            let how = Checking {
                live: *live,
                explain: *explain,
            };
            check_behind(alloc, host, *site, *config, how, out, err)
        }
        CommandRequest::Replay {
            config,
            trace,
            left,
            counts,
            words,
            color,
        } => match read_file(host, *config, err) {
            Ok(octets) => {
                let asked = AskedReplay {
                    name: *config,
                    config: octets.as_slice(),
                    manner: manner_of(*words, *color, has_colours),
                    closing: Closing {
                        left: *left,
                        counts: *counts,
                    },
                    is_watched,
                };
                replay_file(alloc, host, *trace, &asked, out, err)
            }
            Err(status) => status,
        },
        CommandRequest::Sim {
            config,
            script,
            words,
            color,
        } => match read_files(host, *config, *script, err) {
            Ok((octets, text)) => {
                let manner = manner_of(*words, *color, has_colours);
                let job = Job::Sim(octets.as_slice(), text.as_slice(), manner);
                perform(alloc, &job, is_watched, (*config, *script), out, err)
            }
            Err(status) => status,
        },
        CommandRequest::Audit { config, text } => match read_file(host, *config, err) {
            Ok(octets) => audit_file(alloc, host, *text, named(*config, &octets), out, err),
            Err(status) => status,
        },
        CommandRequest::Run { config, words } => run_wished(alloc, host, *config, words, err),
        CommandRequest::Status { place, json } => ask_status(host, *place, *json, out, err),
        CommandRequest::State {
            directory,
            config,
            reports,
        } => show_state(alloc, host, *directory, *config, *reports, out, err),
        CommandRequest::Capture { config, text } => match read_file(host, *config, err) {
            Ok(octets) => capture_file(alloc, host, *text, named(*config, &octets), out, err),
            Err(status) => status,
        },
        CommandRequest::Stations {
            config,
            script,
            words,
        } => play_files(alloc, host, *config, *script, *words, err),
        CommandRequest::Centre { words } => be_centre(alloc, host, words, out, err),
    }
}

/// Judges the settings of this name. If a site's file is named, that is read and judged before they
/// are, and they are judged only if it is good. Answers the exit status.
fn check_behind<H: Host, W: Write, E: Write>(
    alloc: Global,
    host: &H,
    site: Option<&str>,
    config: &str,
    how: Checking,
    out: &mut W,
    err: &mut E,
) -> u8
    ensures { ChecksBehind (H.has host.now) (H.lacks host.now) (text_of site.entry) config.now how
        (W.contents out.old) (W.contents out.new) result }
{
    let Some(name) = site else {
        return check_file(alloc, host, config, None, how, out, err);
    };
    match read_file(host, name, err) {
        Ok(octets) => match judge_site(alloc, octets.as_slice()) {
            Ok(()) => {
                let site = Some(named(name, &octets));
                check_file(alloc, host, config, site, how, out, err)
            }
            Err(fault) => refuse(alloc, named(name, &octets), &fault, how, out, err),
        },
        Err(status) => status,
    }
}

/// Judges the settings of this name, and answers the exit status.
fn check_file<H: Host, W: Write, E: Write>(
    alloc: Global,
    host: &H,
    config: &str,
    site: Option<NamedText<'_>>,
    how: Checking,
    out: &mut W,
    err: &mut E,
) -> u8
    ensures { ChecksFile (H.has host.now) (H.lacks host.now) config.now how
        (W.contents out.old) (W.contents out.new) result }
{
    match read_file(host, config, err) {
        Ok(octets) => check(alloc, named(config, &octets), site, how, out, err),
        Err(status) => status,
    }
}

/// Shows the frames of a line that come on standard input, and answers the exit status.
fn pipe_line<H: Host, W: Write, E: Write>(
    alloc: Global,
    host: &H,
    sizes: &str,
    words: bool,
    out: &mut W,
    err: &mut E,
) -> u8
    ensures { PipesLine sizes.now words (H.has host.now input)
        (W.contents out.old) (W.contents out.new) result }
{
    match words::read_sizes(sizes) {
        Some(sizes) => pipe_frames(alloc, host, Piped::Line(sizes), words, out, err),
        None => write_fault(&Fault::Sizes, err),
    }
}

/// Shows the frames that come on standard input, and answers the exit status.
fn pipe_frames<H: Host, W: Write, E: Write>(
    alloc: Global,
    host: &H,
    piped: Piped,
    words: bool,
    out: &mut W,
    err: &mut E,
) -> u8
    ensures { HasPiped piped words (H.has host.now input)
        (W.contents out.old) (W.contents out.new) result }
{
    let text = HostFile { host, name: INPUT };
    let ended = pipe(alloc, &text, piped, words, out, err);
    end_pipe(&ended, err)
}

/// Replays a trace, and answers the exit status. A file that can't be opened again, as a pipe, is
/// read whole.
fn replay_file<H: Host, W: Write, E: Write>(
    alloc: Global,
    host: &H,
    name: &str,
    asked: &AskedReplay<'_>,
    out: &mut W,
    err: &mut E,
) -> u8
    ensures { ReplaysFile (H.has host.now) (H.lacks host.now) name.now asked.now.config.now
        asked.now.manner asked.now.closing (W.contents out.old) (W.contents out.new) result }
{
    if host.can_reopen(name) {
        return replay_text(alloc, &HostFile { host, name }, name, asked, out, err);
    }
    match read_file(host, name, err) {
        Ok(octets) => {
            let text = HeldText {
                octets: octets.as_slice(),
            };
            replay_text(alloc, &text, name, asked, out, err)
        }
        Err(status) => status,
    }
}

/// Replays the trace of this name, and answers the exit status.
fn replay_text<S: Source, W: Write, E: Write>(
    alloc: Global,
    text: &S,
    name: &str,
    asked: &AskedReplay<'_>,
    out: &mut W,
    err: &mut E,
) -> u8
    ensures { Runs (IsReplayed asked.now.config.now asked.now.manner (S.has text.now)
        asked.now.closing) (W.contents out.old) (W.contents out.new) result }
{
    match replay(alloc, asked, text, out, err) {
        Ok(()) => DONE,
        Err(Fault::Unread) => {
            let _ = write_unreadable(name, err);
            DEVICE_FAILED
        }
        Err(fault) => {
            let config = NamedText {
                name: asked.name,
                octets: asked.config,
            };
            point_keys(alloc, config, false, &fault, err);
            let as_record = matches!(asked.manner, Manner::Words { .. });
            point_line(alloc, name, text, as_record, &fault, err);
            write_fault(&fault, err)
        }
    }
}

/// Audits the record of this name by settings of these octets, and answers the exit status. It is
/// read once.
fn audit_file<H: Host, W: Write, E: Write>(
    alloc: Global,
    host: &H,
    name: &str,
    config: NamedText<'_>,
    out: &mut W,
    err: &mut E,
) -> u8
    ensures { AuditsFile (H.has host.now) name.now config.entry.octets.now
        (W.contents out.old) (W.contents out.new) result }
{
    match audit_alone(alloc, config.octets, &HostFile { host, name }) {
        Err(Fault::Unread) => {
            let _ = write_unreadable(name, err);
            DEVICE_FAILED
        }
        answer => {
            if let Err(fault) = &answer {
                point_keys(alloc, config, false, fault, err);
                point_record(alloc, host, name, fault, err);
            }
            give(&answer, out, err)
        }
    }
}

/// Makes the capture of the record of this name by settings of these octets, and answers the exit
/// status. It is read once.
fn capture_file<H: Host, W: Write, E: Write>(
    alloc: Global,
    host: &H,
    name: &str,
    config: NamedText<'_>,
    out: &mut W,
    err: &mut E,
) -> u8
    ensures { Runs (IsCapturedBy config.entry.octets.now (H.has host.now name.now))
        (W.contents out.old) (W.contents out.new) result }
{
    match capture(alloc, config.octets, &HostFile { host, name }, out) {
        Ok(()) => DONE,
        Err(Fault::Unread) => {
            let _ = write_unreadable(name, err);
            DEVICE_FAILED
        }
        Err(fault) => {
            point_keys(alloc, config, false, &fault, err);
            point_record(alloc, host, name, &fault, err);
            write_fault(&fault, err)
        }
    }
}

/// Shows what stands in the directory of this name, beside the settings of this name, if one is
/// given, and answers the exit status.
fn show_state<H: Host, W: Write, E: Write>(
    alloc: Global,
    host: &H,
    directory: &str,
    config: Option<&str>,
    are_wanted: bool,
    out: &mut W,
    err: &mut E,
) -> u8
    ensures { ShowsState (H.has host.now) (H.lacks host.now) (H.stands host.now) directory.now
        (text_of config.entry) are_wanted (W.contents out.old) (W.contents out.new) result }
{
    match read_given(host, config, err) {
        Ok(given) => {
            if let (Some(name), Some(octets)) = (config, &given) {
                point_settings(alloc, named(name, octets), err);
            }
            show_directory(alloc, host, directory, are_wanted, given, out, err)
        }
        Err(status) => status,
    }
}

/// The octets of a file, if one is named, or the exit status if it can't be read, which is written
/// then.
fn read_given<H: Host, E: Write>(
    host: &H,
    name: Option<&str>,
    err: &mut E,
) -> Result<Option<Vec<u8>>, u8>
    ensures read { IfOk result (λ given. IsGivenIn (H.has host.now) (text_of name.entry)
        (octets_of given)) }
    ensures unread { IfErr result (IsNotRead (H.has host.now) (H.lacks host.now)
        (site_files (text_of name.entry))) }
{
    let Some(name) = name else {
        return Ok(None);
    };
    match read_file(host, name, err) {
        Ok(octets) => Ok(Some(octets)),
        Err(status) => Err(status),
    }
}

/// Shows what stands in the directory of this name, beside these settings, if any are given, and
/// with what is queued, if it is wanted. Answers the exit status.
fn show_directory<H: Host, W: Write, E: Write>(
    alloc: Global,
    host: &H,
    directory: &str,
    are_wanted: bool,
    given: Option<Vec<u8>>,
    out: &mut W,
    err: &mut E,
) -> u8
    ensures { ShowsDirectory (H.lacks host.now) (H.stands host.now) directory.now are_wanted
        (octets_of given) (W.contents out.old) (W.contents out.new) result }
{
    match host.look(directory) {
        Ok(stood) => give(&answer_stood(alloc, stood, are_wanted, given), out, err),
        Err(Unread::Unreadable) => {
            let _ = write_unreadable(directory, err);
            DEVICE_FAILED
        }
        Err(Unread::NoMemory) => write_fault(&Fault::NoMemory, err),
    }
}

/// Plays the outstations of a script by settings, each the octets of a file, and answers the exit
/// status.
fn play_files<H: Host, E: Write>(
    alloc: Global,
    host: &H,
    config: &str,
    script: &str,
    words: bool,
    err: &mut E,
) -> u8
    ensures { PlayFiles (H.has host.now) (H.lacks host.now) (H.played host.now) config.now
        script.now result }
{
    match read_files(host, config, script, err) {
        Ok((octets, text)) => {
            let files = (named(config, &octets), named(script, &text));
            play_live(alloc, host, files, words, err)
        }
        Err(status) => status,
    }
}

/// Plays the outstations of a script of these octets by settings of these, and answers the exit
/// status.
fn play_live<H: Host, E: Write>(
    alloc: Global,
    host: &H,
    files: (NamedText<'_>, NamedText<'_>),
    words: bool,
    err: &mut E,
) -> u8
    ensures { HaveEnded (H.played host.now) files.entry.0.octets.now
        files.entry.1.octets.now result }
{
    let (config, script) = files;
    match host.play(config.octets, script.octets, words) {
        Ok(()) => DONE,
        Err(fault) => {
            point_script(alloc, config, script, true, &fault, err);
            write_fault(&fault, err)
        }
    }
}

/// Runs the gateway live as words say, and the file of a site that they name, which is read and
/// judged before the settings are. Answers the exit status.
fn run_wished<H: Host, E: Write>(
    alloc: Global,
    host: &mut H,
    config: &str,
    words: &RunWords<'_, '_>,
    err: &mut E,
) -> u8
    ensures runs { RunsAsSaid (H.has host.old) (H.lacks host.old) (H.ran host.old host.new)
        config.now words.now result }
    ensures alone { (host.new ≡ host.old) ⊎ HasRunAsAsked (H.has host.old)
        (H.ran host.old host.new) config.now words.now result }
{
    match site_of(alloc, host, words.site, err) {
        Ok(site) => run_at_site(alloc, host, config, words, &site, err),
        Err(status) => status,
    }
}

/// What belongs to a site: what the file of this name says, or nothing if none is named. Or the
/// exit status, if it can't be read or is refused, which is written then.
fn site_of<H: Host, E: Write>(
    alloc: Global,
    host: &H,
    name: Option<&str>,
    err: &mut E,
) -> Result<Site, u8>
    ensures site { IfOk result (IsSiteIn (H.has host.now) (text_of name.entry)) }
    ensures none { IfErr result (IsNoSite (H.has host.now) (H.lacks host.now)
        (text_of name.entry)) }
{
    let Some(name) = name else {
        return Ok(Site::empty(alloc));
    };
    match read_file(host, name, err) {
        Ok(octets) => match site_in(alloc, octets.as_slice()) {
            Ok(site) => Ok(site),
            Err(fault) => {
                point_keys(alloc, named(name, &octets), false, &fault, err);
                Err(write_fault(&fault, err))
            }
        },
        Err(status) => Err(status),
    }
}

/// Runs the gateway live as words and this site say, and answers the exit status.
fn run_at_site<H: Host, E: Write>(
    alloc: Global,
    host: &mut H,
    config: &str,
    words: &RunWords<'_, '_>,
    site: &Site,
    err: &mut E,
) -> u8
    ensures runs { RunsAtSite (H.has host.old) (H.lacks host.old) (H.ran host.old host.new)
        config.now words.now site.now result }
    ensures alone { (host.new ≡ host.old) ⊎ HasRunAsWished (H.has host.old)
        (H.ran host.old host.new) config.now words.now site.now result }
{
    match wishes_of(alloc, words, site) {
        Ok(wishes) => run_file(alloc, host, config, wishes, err),
        Err(fault) => {
            point_site(alloc, host, words.site, &fault, err);
            write_fault(&fault, err)
        }
    }
}

/// Runs the gateway live by the settings of a file, and answers the exit status.
fn run_file<H: Host, E: Write>(
    alloc: Global,
    host: &mut H,
    config: &str,
    wishes: Wishes<'_>,
    err: &mut E,
) -> u8
    ensures runs { RunsFile (H.has host.old) (H.lacks host.old) (H.ran host.old host.new)
        config.now wishes.entry result }
    ensures alone { (host.new ≡ host.old) ⊎ HasRunLive (H.has host.old)
        (H.ran host.old host.new) config.now wishes.entry result }
{
    match read_file(host, config, err) {
        Ok(octets) => run_live(alloc, host, named(config, &octets), wishes, err),
        Err(status) => status,
    }
}

/// Runs the gateway live by settings of these octets.
fn run_live<H: Host, E: Write>(
    alloc: Global,
    host: &mut H,
    config: NamedText<'_>,
    wishes: Wishes<'_>,
    err: &mut E,
) -> u8
    ensures { HasEndedLive (H.ran host.old host.new) config.entry.octets.now wishes.entry result }
{
    let directory = wishes.state;
    match host.run(config.octets, wishes) {
        Ok(()) => DONE,
        Err(fault) => {
            point_keys(alloc, config, true, &fault, err);
            point_directory(directory, &fault, err);
            write_fault(&fault, err)
        }
    }
}

/// The octets of two files, read in this order, or the exit status if one can't be read.
fn read_files<H: Host, E: Write>(
    host: &H,
    first: &str,
    second: &str,
    err: &mut E,
) -> Result<(Vec<u8>, Vec<u8>), u8>
    ensures read { IfOk result (λ both. H.has host.now first.now both.0.items
        × H.has host.now second.now both.1.items) }
    ensures unread { IfErr result (IsNotRead (H.has host.now) (H.lacks host.now)
        (first.now ∷ second.now ∷ [])) }
{
    match read_file(host, first, err) {
        Ok(first) => match read_file(host, second, err) {
            Ok(second) => Ok((first, second)),
            Err(status) => Err(status),
        },
        Err(status) => Err(status),
    }
}

/// The octets of a file, or the exit status if it can't be read, which is written then.
pub(crate) fn read_file<H: Host, E: Write>(host: &H, name: &str, err: &mut E) -> Result<Vec<u8>, u8>
    ensures read { IfOk result (λ octets. H.has host.now name.now octets.items) }
    ensures unread { IfErr result (IsNotRead (H.has host.now) (H.lacks host.now) (name.now ∷ [])) }
{
    match host.read(name) {
        Ok(octets) => Ok(octets),
        Err(Unread::Unreadable) => {
            let _ = write_unreadable(name, err);
            Err(DEVICE_FAILED)
        }
        Err(Unread::NoMemory) => Err(write_fault(&Fault::NoMemory, err)),
    }
}

/// Writes the line of a file that can't be read.
fn write_unreadable<E: Write>(name: &str, err: &mut E) -> io::Result<()>
    ensures { OnOk result (Appends (E.contents err.old) (E.contents err.new)
        (unreadable_line name.now)) }
{
    writeln!(err, "cannot read {name}")
}
