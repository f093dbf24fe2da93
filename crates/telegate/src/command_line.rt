//! The command line.
ghost use Rattle.std.specs.Prelude.{◌≡◌, IfOk, codes, map, option_map, string_bytes};
ghost use Rattle.clap.specs.Words.{App, FailsBy, fault_of, found_of, first_of, rows_of};
ghost use Rattle.clap.specs.Words.{subcommand_of, subcommand_rows_of, with_subcommand};
ghost use Rattle.telegate.specs.CommandLine as line;
ghost use Rattle.telegate.specs.CommandLine.{AreGiven, AreRunWords, texts_of, IsArgument, IsAsked};
ghost use Rattle.telegate.specs.CommandLine.{IsCommand, IsFlag, IsRequestOf, rule_in, with_all};

use crate::controlling::CentreWords;
use crate::help;
use crate::run_words::RunWords;
use clap::{Arg, ArgAction, ArgMatches, Command, Error};
use std::alloc::{AllocError, Global};

/// What the words ask for.
#[derive(Clone, Copy)]
pub(crate) enum CommandRequest<'m, 'a> {
    /// The sizes of addresses, octets or `-`, and whether a frame is shown in one line of words.
    Show101 {
        sizes: &'a str,
        hex: &'a str,
        words: bool,
    },
    /// Octets or `-`, and whether a frame is shown in one line of words.
    Show104 {
        hex: &'a str,
        words: bool,
    },
    /// The name of a file, that of the file of the site, if one is judged too, whether it is judged
    /// as for a live run, and whether it is shown what is wrong and where.
    Check {
        config: &'a str,
        site: Option<&'a str>,
        live: bool,
        explain: bool,
    },
    /// The names of two files, which lines the run ends with, and whether it is printed in words,
    /// and in colours.
    Replay {
        config: &'a str,
        trace: &'a str,
        left: bool,
        counts: bool,
        words: bool,
        color: bool,
    },
    /// The names of two files, and whether the run is printed in words, and in colours.
    Sim {
        config: &'a str,
        script: &'a str,
        words: bool,
        color: bool,
    },
    /// The names of two files.
    Audit {
        config: &'a str,
        text: &'a str,
    },
    /// The name of a file, and what else is said of the run.
    Run {
        config: &'a str,
        words: RunWords<'m, 'a>,
    },
    /// Where a live run can be looked at, and whether the page that programs read is printed.
    Status {
        place: &'a str,
        json: bool,
    },
    /// The name of a directory, and that of a file of settings, if one is to be compared; and
    /// whether what is queued is wanted.
    State {
        directory: &'a str,
        config: Option<&'a str>,
        reports: bool,
    },
    /// The names of two files.
    Capture {
        config: &'a str,
        text: &'a str,
    },
    /// The names of two files, and whether frames are printed in words.
    Stations {
        config: &'a str,
        script: &'a str,
        words: bool,
    },
    /// Where a gateway is, and what is to be done there.
    Centre {
        words: CentreWords<'a>,
    },
}

/// What the flag `--words` does.
const IN_WORDS: &str = "Prints the frame on one line, in the words of the standard";

/// What it does for a run.
const RUN_IN_WORDS: &str =
    "Prints each event and each action on a line, in the words of the standard";

/// What the flag `--color` does.
const IN_COLORS: &str =
    "Prints the words in colours, one for each side, also into a file or a pipe";

/// What octets are.
const OCTETS: &str = "1 to 1,024 octets in hexadecimal; or - for lines of octets on standard input";

/// A word that a command takes: its name, and what help says of it.
#[derive(Clone, Copy)]
pub(crate) enum CommandWord<'a> {
    /// It has to be given, at its place.
    Needed(&'a str, &'a str),
    /// It may be given, at its place.
    Further(&'a str, &'a str),
    /// `--name`, at most once.
    Flag(&'a str, &'a str),
    /// `--name WORD`, at most once.
    Single(&'a str, &'a str),
    /// `--name WORD`, any number of times.
    Repeated(&'a str, &'a str),
}

fn argument<'a>(alloc: Global, word: CommandWord<'a>) -> Arg<'a>
    ensures { IsArgument (rule_in word.entry) result }
{
    match word {
        CommandWord::Needed(name, help) => Arg::new(alloc, name)
            .required(true)
            .action(ArgAction::Set)
            .help(help),
        CommandWord::Further(name, help) => {
            Arg::new(alloc, name).action(ArgAction::Set).help(help)
        }
        CommandWord::Flag(name, help) => Arg::new(alloc, name)
            .long(name)
            .action(ArgAction::SetTrue)
            .help(help),
        CommandWord::Single(name, help) => Arg::new(alloc, name)
            .long(name)
            .action(ArgAction::Set)
            .help(help),
        CommandWord::Repeated(name, help) => Arg::new(alloc, name)
            .long(name)
            .action(ArgAction::Append)
            .help(help),
    }
}

/// A command that takes these words too, in this order.
fn with_words<'a>(
    alloc: Global,
    command: Command<'a>,
    words: &[CommandWord<'a>],
) -> Result<Command<'a>, AllocError>
    ensures { IfOk result (λ r. (app : App) → IsCommand app command.entry →
        IsCommand (with_all (map rule_in words.entry.now) app) r) }
{
    let mut command = command;
    for word in words {
        command = command.arg(argument(alloc, *word))?;
    }
    Ok(command)
}

fn show101<'a>(alloc: Global) -> Result<Command<'a>, AllocError>
    ensures { IfOk result (IsCommand line.show101) }
{
    let command = Command::new(alloc, "show101").about(
        "Shows the line frame at the front of octets",
    );
    let words = [
        CommandWord::Needed(
            "SIZES",
            "Four digits, as 1112: octets of link address, cause, common and object address",
        ),
        CommandWord::Needed("HEX", OCTETS),
        CommandWord::Flag("words", IN_WORDS),
    ];
    with_words(alloc, command, &words)
}

fn show104<'a>(alloc: Global) -> Result<Command<'a>, AllocError>
    ensures { IfOk result (IsCommand line.show104) }
{
    let command = Command::new(alloc, "show104").about("Shows the APDU at the front of octets");
    let words = [
        CommandWord::Needed("HEX", OCTETS),
        CommandWord::Flag("words", IN_WORDS),
    ];
    with_words(alloc, command, &words)
}

fn check<'a>(alloc: Global) -> Result<Command<'a>, AllocError>
    ensures { IfOk result (IsCommand line.check) }
{
    let command = Command::new(alloc, "check")
        .about("Checks a file of settings, and that of a site")
        .after_help(help::CHECK);
    let words = [
        CommandWord::Needed("CONFIG", "A file of settings"),
        CommandWord::Flag(
            "live",
            "Judges `live` as `run` does, and warns if the line is on another machine",
        ),
        CommandWord::Flag(
            "explain",
            "Prints behind a fault where it is, and what is wanted there",
        ),
        CommandWord::Single(
            "site",
            "A file of what belongs to this site, which is judged first",
        ),
    ];
    with_words(alloc, command, &words)
}

fn replay<'a>(alloc: Global) -> Result<Command<'a>, AllocError>
    ensures { IfOk result (IsCommand line.replay) }
{
    let command = Command::new(alloc, "replay")
        .about("Runs the gateway over the events of a trace, and prints what it puts out")
        .after_help(help::REPLAY);
    let words = [
        CommandWord::Needed("CONFIG", "A file of settings"),
        CommandWord::Needed("TRACE", "A file of events, one a line"),
        CommandWord::Flag(
            "left",
            "Prints a line for each piece that was not acknowledged",
        ),
        CommandWord::Flag(
            "counts",
            "Prints a line with what was dropped, given up or spoilt",
        ),
        CommandWord::Flag("words", RUN_IN_WORDS),
        CommandWord::Flag("color", IN_COLORS),
    ];
    with_words(alloc, command, &words)
}

fn sim<'a>(alloc: Global) -> Result<Command<'a>, AllocError>
    ensures { IfOk result (IsCommand line.sim) }
{
    let command = Command::new(alloc, "sim")
        .about(
            "Runs the gateway over a simulated line and control centre, and prints what it puts \
            out",
        )
        .after_help(help::SIM);
    let words = [
        CommandWord::Needed("CONFIG", "A file of settings"),
        CommandWord::Needed(
            "SCRIPT",
            "A file of reports, losses, cuts and commands, one a line",
        ),
        CommandWord::Flag("words", RUN_IN_WORDS),
        CommandWord::Flag("color", IN_COLORS),
    ];
    with_words(alloc, command, &words)
}

fn audit<'a>(alloc: Global) -> Result<Command<'a>, AllocError>
    ensures { IfOk result (IsCommand line.audit) }
{
    let command = Command::new(alloc, "audit")
        .about("Runs the gateway over the events of a recorded run, and compares the actions")
        .after_help(help::AUDIT);
    let words = [
        CommandWord::Needed("CONFIG", "A file of settings"),
        CommandWord::Needed("RECORD", "A file of events and actions, one a line"),
    ];
    with_words(alloc, command, &words)
}

fn run<'a>(alloc: Global) -> Result<Command<'a>, AllocError>
    ensures { IfOk result (IsCommand line.run) }
{
    let command = Command::new(alloc, "run")
        .about("Runs the gateway between a line and a control centre, until the line ends")
        .after_help(help::RUN);
    let words = [
        CommandWord::Needed(
            "CONFIG",
            "A file of settings, whose table `live` says where the line is and where to listen",
        ),
        CommandWord::Flag(
            "redial",
            "Reaches the line again if it ends, once a second, and goes on",
        ),
        CommandWord::Flag("log", "Tells on standard error what happens, one line each"),
        CommandWord::Flag("record", "Prints each event and each action"),
        CommandWord::Single(
            "state",
            "Keeps the state in this directory (made if need be), and goes on with it",
        ),
        CommandWord::Flag(
            "state-or-stop",
            "Ends the run if the state can't be kept, in place of going on without it",
        ),
        CommandWord::Repeated(
            "allow",
            "The address of a control centre that may connect; without it any may",
        ),
        CommandWord::Single(
            "status",
            "Where the run can be looked at by HTTP, as 127.0.0.1:8104",
        ),
        CommandWord::Single(
            "site",
            "A file of what belongs to this site: names, and what these words say too",
        ),
        CommandWord::Flag(
            "log-severity",
            "Begins each line of the log with its severity, for systemd's journal",
        ),
    ];
    with_words(alloc, command, &words)
}

fn status<'a>(alloc: Global) -> Result<Command<'a>, AllocError>
    ensures { IfOk result (IsCommand line.status) }
{
    let command = Command::new(alloc, "status")
        .about("Asks a live run how it stands, and ends as a monitor wants it")
        .after_help(help::STATUS);
    let words = [
        CommandWord::Needed(
            "PLACE",
            "Where the run can be looked at (`run --status`), as 127.0.0.1:8104",
        ),
        CommandWord::Flag("json", "Prints JSON in place of the table"),
    ];
    with_words(alloc, command, &words)
}

fn state<'a>(alloc: Global) -> Result<Command<'a>, AllocError>
    ensures { IfOk result (IsCommand line.state) }
{
    let command = Command::new(alloc, "state")
        .about("Shows what a run would go on with, and changes nothing")
        .after_help(help::STATE);
    let words = [
        CommandWord::Needed(
            "DIR",
            "A directory in which a run keeps its state (`run --state`)",
        ),
        CommandWord::Further(
            "CONFIG",
            "A file of settings, to tell whether the state was kept under others, and which",
        ),
        CommandWord::Flag("reports", "Prints each report that is queued, in words"),
    ];
    with_words(alloc, command, &words)
}

fn capture<'a>(alloc: Global) -> Result<Command<'a>, AllocError>
    ensures { IfOk result (IsCommand line.capture) }
{
    let command = Command::new(alloc, "capture")
        .about("Writes a recorded run as a capture (pcapng) that Wireshark reads")
        .after_help(help::CAPTURE);
    let words = [
        CommandWord::Needed("CONFIG", "A file of settings"),
        CommandWord::Needed("RECORD", "A file of events and actions, one a line"),
    ];
    with_words(alloc, command, &words)
}

fn stations<'a>(alloc: Global) -> Result<Command<'a>, AllocError>
    ensures { IfOk result (IsCommand line.stations) }
{
    let command = Command::new(alloc, "stations")
        .about("Plays outstations in real time, as behind a serial device server")
        .after_help(help::STATIONS);
    let words = [
        CommandWord::Needed(
            "CONFIG",
            "A file of settings, whose key `live.line` says where to listen",
        ),
        CommandWord::Needed("SCRIPT", "A file of reports and losses, one a line"),
        CommandWord::Flag("words", "Prints each frame of the line in words"),
    ];
    with_words(alloc, command, &words)
}

fn centre<'a>(alloc: Global) -> Result<Command<'a>, AllocError>
    ensures { IfOk result (IsCommand line.centre) }
{
    let command = Command::new(alloc, "centre")
        .about("Is a control centre, to try a gateway with, and prints what passes")
        .after_help(help::CENTRE);
    let words = [
        CommandWord::Needed("PLACE", "Where the gateway is: HOST, or HOST:PORT"),
        CommandWord::Further("CONFIG", "A file of settings, whose stations are asked"),
        CommandWord::Further("WHAT", "What is to be done; a watch, if it is left out"),
        CommandWord::Further("TARGET", "A common address; with an object's, as 1/100"),
        CommandWord::Further("VALUE", "The value of a command"),
        CommandWord::Flag("tagged", "Gives a command a time tag"),
        CommandWord::Flag("json", "Prints JSON objects, one a line"),
        CommandWord::Single(
            "wait",
            "How many seconds an answer may take, 1 to 3600; by default 10",
        ),
    ];
    with_words(alloc, command, &words)
}

/// The program, of whose commands one has to be named.
fn bare<'a>(alloc: Global) -> Command<'a>
    ensures { IsCommand line.bare result }
{
    Command::new(alloc, "telegate")
        .version(help::VERSION)
        .about(
            "A telecontrol gateway from an IEC 60870-5-101 line to an IEC 60870-5-104 connection",
        )
        .after_help(help::PROGRAM)
        .subcommand_required(true)
        .arg_required_else_help(true)
}

/// The program with one more command. (A chain of `?` would drop what is built so far at each.)
fn add_command<'a>(
    above: Command<'a>,
    command: Result<Command<'a>, AllocError>,
) -> Result<Command<'a>, AllocError>
    ensures { IfOk result (λ r. (app below : App) → IsCommand app above.entry →
        IfOk command.entry (IsCommand below) → IsCommand (with_subcommand app below.top) r) }
{
    above.subcommand(command?)
}

/// The program, with its commands.
fn program<'a>(alloc: Global) -> Result<Command<'a>, AllocError>
    ensures { IfOk result (IsCommand line.program) }
{
    let program = add_command(bare(alloc), show101(alloc))?;
    let program = add_command(program, show104(alloc))?;
    let program = add_command(program, check(alloc))?;
    let program = add_command(program, replay(alloc))?;
    let program = add_command(program, sim(alloc))?;
    let program = add_command(program, audit(alloc))?;
    let program = add_command(program, run(alloc))?;
    let program = add_command(program, status(alloc))?;
    let program = add_command(program, state(alloc))?;
    let program = add_command(program, capture(alloc))?;
    let program = add_command(program, stations(alloc))?;
    add_command(program, centre(alloc))
}

/// Reads the words, or gives the text that is to be printed in place of a run.
pub(crate) fn parse<'a>(alloc: Global, words: &'a [String]) -> Result<ArgMatches<'a>, Error>
    // What the words name is what this command line takes.
    ensures named { IfOk result (λ m. subcommand_rows_of m
        ≡ subcommand_of line.program (map string_bytes words.entry.now)) }
    // If they ask for nothing, it is by the first of their faults, or by a question for help or the
    // version.
    ensures fails { FailsBy (fault_of line.program (map string_bytes words.entry.now)) result }
{
    program(alloc)?.try_get_matches_from(words)
}

/// The command that was named, and what was given for it.
fn named<'m, 'a>(matches: &'m ArgMatches<'a>) -> Option<(&'a str, &'m ArgMatches<'a>)>
    ensures { option_map (λ p. (p.0.now, rows_of (found_of p.1.now))) result
        ≡ subcommand_rows_of matches.now }
{
    matches.subcommand()
}

/// The word given under a name.
fn given<'a>(matches: &ArgMatches<'a>, name: &str) -> Option<&'a str>
    ensures { option_map (λ s. s.now) result ≡ first_of name.now (rows_of (found_of matches.now)) }
{
    matches.get_str(name)
}

/// Whether a flag is given.
fn is_given(matches: &ArgMatches<'_>, name: &str) -> bool
    ensures { IsFlag (rows_of (found_of matches.now)) name.now result }
{
    matches.get_flag(name)
}

/// The words given under a name, if any are.
fn all_given<'m, 'a>(matches: &'m ArgMatches<'a>, name: &str) -> Option<&'m [&'a str]>
    ensures { AreGiven (rows_of (found_of matches.now)) name.now (texts_of result) }
{
    matches.get_strs(name)
}

fn show101_of<'m, 'a>(matches: &'m ArgMatches<'a>) -> Option<CommandRequest<'m, 'a>>
    ensures { IsAsked (codes "show101") (rows_of (found_of matches.now)) result }
{
    Some(CommandRequest::Show101 {
        sizes: given(matches, "SIZES")?,
        hex: given(matches, "HEX")?,
        words: is_given(matches, "words"),
    })
}

fn show104_of<'m, 'a>(matches: &'m ArgMatches<'a>) -> Option<CommandRequest<'m, 'a>>
    ensures { IsAsked (codes "show104") (rows_of (found_of matches.now)) result }
{
    Some(CommandRequest::Show104 {
        hex: given(matches, "HEX")?,
        words: is_given(matches, "words"),
    })
}

fn check_of<'m, 'a>(matches: &'m ArgMatches<'a>) -> Option<CommandRequest<'m, 'a>>
    ensures { IsAsked (codes "check") (rows_of (found_of matches.now)) result }
{
    Some(CommandRequest::Check {
        config: given(matches, "CONFIG")?,
        site: given(matches, "site"),
        live: is_given(matches, "live"),
        explain: is_given(matches, "explain"),
    })
}

fn replay_of<'m, 'a>(matches: &'m ArgMatches<'a>) -> Option<CommandRequest<'m, 'a>>
    ensures { IsAsked (codes "replay") (rows_of (found_of matches.now)) result }
{
    Some(CommandRequest::Replay {
        config: given(matches, "CONFIG")?,
        trace: given(matches, "TRACE")?,
        left: is_given(matches, "left"),
        counts: is_given(matches, "counts"),
        words: is_given(matches, "words"),
        color: is_given(matches, "color"),
    })
}

fn sim_of<'m, 'a>(matches: &'m ArgMatches<'a>) -> Option<CommandRequest<'m, 'a>>
    ensures { IsAsked (codes "sim") (rows_of (found_of matches.now)) result }
{
    Some(CommandRequest::Sim {
        config: given(matches, "CONFIG")?,
        script: given(matches, "SCRIPT")?,
        words: is_given(matches, "words"),
        color: is_given(matches, "color"),
    })
}

fn audit_of<'m, 'a>(matches: &'m ArgMatches<'a>) -> Option<CommandRequest<'m, 'a>>
    ensures { IsAsked (codes "audit") (rows_of (found_of matches.now)) result }
{
    Some(CommandRequest::Audit {
        config: given(matches, "CONFIG")?,
        text: given(matches, "RECORD")?,
    })
}

/// What the words of a live run say.
fn run_words_of<'m, 'a>(matches: &'m ArgMatches<'a>) -> RunWords<'m, 'a>
    ensures { AreRunWords (rows_of (found_of matches.now)) result }
{
    RunWords {
        site: given(matches, "site"),
        redial: is_given(matches, "redial"),
        log: is_given(matches, "log"),
        log_severity: is_given(matches, "log-severity"),
        record: is_given(matches, "record"),
        state: given(matches, "state"),
        state_or_stop: is_given(matches, "state-or-stop"),
        allow: all_given(matches, "allow"),
        status: given(matches, "status"),
    }
}

fn run_of<'m, 'a>(matches: &'m ArgMatches<'a>) -> Option<CommandRequest<'m, 'a>>
    ensures { IsAsked (codes "run") (rows_of (found_of matches.now)) result }
{
    Some(CommandRequest::Run {
        config: given(matches, "CONFIG")?,
        words: run_words_of(matches),
    })
}

fn status_of<'m, 'a>(matches: &'m ArgMatches<'a>) -> Option<CommandRequest<'m, 'a>>
    ensures { IsAsked (codes "status") (rows_of (found_of matches.now)) result }
{
    Some(CommandRequest::Status {
        place: given(matches, "PLACE")?,
        json: is_given(matches, "json"),
    })
}

fn state_of<'m, 'a>(matches: &'m ArgMatches<'a>) -> Option<CommandRequest<'m, 'a>>
    ensures { IsAsked (codes "state") (rows_of (found_of matches.now)) result }
{
    Some(CommandRequest::State {
        directory: given(matches, "DIR")?,
        config: given(matches, "CONFIG"),
        reports: is_given(matches, "reports"),
    })
}

fn capture_of<'m, 'a>(matches: &'m ArgMatches<'a>) -> Option<CommandRequest<'m, 'a>>
    ensures { IsAsked (codes "capture") (rows_of (found_of matches.now)) result }
{
    Some(CommandRequest::Capture {
        config: given(matches, "CONFIG")?,
        text: given(matches, "RECORD")?,
    })
}

fn stations_of<'m, 'a>(matches: &'m ArgMatches<'a>) -> Option<CommandRequest<'m, 'a>>
    ensures { IsAsked (codes "stations") (rows_of (found_of matches.now)) result }
{
    Some(CommandRequest::Stations {
        config: given(matches, "CONFIG")?,
        script: given(matches, "SCRIPT")?,
        words: is_given(matches, "words"),
    })
}

fn centre_of<'m, 'a>(matches: &'m ArgMatches<'a>) -> Option<CommandRequest<'m, 'a>>
    ensures { IsAsked (codes "centre") (rows_of (found_of matches.now)) result }
{
    Some(CommandRequest::Centre {
        words: CentreWords {
            place: given(matches, "PLACE")?,
            config: given(matches, "CONFIG"),
            what: given(matches, "WHAT"),
            target: given(matches, "TARGET"),
            value: given(matches, "VALUE"),
            tagged: is_given(matches, "tagged"),
            json: is_given(matches, "json"),
            wait: given(matches, "wait"),
        },
    })
}

/// The request of the words.
pub(crate) fn request_of<'m, 'a>(matches: &'m ArgMatches<'a>) -> Option<CommandRequest<'m, 'a>>
    ensures { IsRequestOf (subcommand_rows_of matches.now) result }
{
    let (name, matches) = named(matches)?;
    match name {
        "show101" => show101_of(matches),
        "show104" => show104_of(matches),
        "check" => check_of(matches),
        "replay" => replay_of(matches),
        "sim" => sim_of(matches),
        "audit" => audit_of(matches),
        "run" => run_of(matches),
        "status" => status_of(matches),
        "state" => state_of(matches),
        "capture" => capture_of(matches),
        "stations" => stations_of(matches),
        "centre" => centre_of(matches),
        _ => None,
    }
}
