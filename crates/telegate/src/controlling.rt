//! The command that is a control centre, to try a gateway with.
ghost use Rattle.std.specs.Prelude.{◌≡◌, ◌<◌, ◌≤◌, IfErr, IfOk, IfSome};
ghost use Rattle.telegate.specs.Controlled.{EndsAsSaid, HasPrinted, IsTold, style_of};

use crate::asking::write_unknown;
use crate::fault::{Fault, USAGE};
use crate::host::Host;
use crate::performing::write_fault;
use crate::pointing::{NamedText, point_keys};
use crate::shell::read_file;
use crate::site::tell_refused;
use centre::{
    Centre, Desk, Outcome, Style, Terms, Untold, Wish, end_line, errand_of, is_wish_word, pursue,
    read_wish, tag_of,
};
use live::{LineDialler, RunClock, SystemClock};
use settings::{is_address, read_config};
use std::alloc::{AllocError, Global};
use std::io;
use std::io::Write;
use traces::print;

/// The port of IEC 60870-5-104.
const PORT: &str = "2404";

/// How long an answer may take, in seconds, and what may be said in place of that.
const WAIT_S: u64 = 10;

const LONGEST_WAIT_S: u64 = 3600;

/// The words of the command.
#[derive(Clone, Copy)]
pub(crate) struct CentreWords<'a> {
    /// Where the gateway is: HOST:PORT, or HOST alone.
    pub(crate) place: &'a str,
    /// A file of settings, what to do, to which object, and with which value. If no file is named,
    /// each of the others stands one place ahead.
    pub(crate) config: Option<&'a str>,
    pub(crate) what: Option<&'a str>,
    pub(crate) target: Option<&'a str>,
    pub(crate) value: Option<&'a str>,
    pub(crate) tagged: bool,
    pub(crate) json: bool,
    pub(crate) wait: Option<&'a str>,
}

/// What the words ask for.
#[derive(Clone, Copy)]
pub(crate) struct Errands<'a> {
    pub(crate) place: &'a str,
    /// A file of settings, if one is named.
    config: Option<&'a str>,
    wish: Wish,
    is_tagged: bool,
    style: Style,
    wait_ms: u64,
}

/// Reads the words. `None` says that they are wrong.
fn errands_in<'a>(words: &CentreWords<'a>) -> Option<Errands<'a>>
    ensures { IfSome result (λ errands. errands.style ≡ style_of words.now.json) }
{
    let (config, wish) = match words.config {
        Some(what) if is_wish_word(what) && words.value.is_none() => {
            (None, read_wish(Some(what), words.what, words.target)?)
        }
        config => (config, read_wish(words.what, words.target, words.value)?),
    };
    Some(Errands {
        place: words.place,
        config,
        wish,
        is_tagged: words.tagged,
        style: if words.json {
            Style::Json
        } else {
            Style::Words
        },
        wait_ms: wait_of(words.wait)? * 1000,
    })
}

/// How long an answer may take, in seconds.
fn wait_of(word: Option<&str>) -> Option<u64>
    ensures { IfSome result (λ seconds. seconds ≤ 3600) }
{
    let Some(word) = word else {
        return Some(WAIT_S);
    };
    let seconds = word.parse::<u64>().ok()?;
    if seconds == 0 || seconds > LONGEST_WAIT_S {
        return None;
    }
    Some(seconds)
}

/// Is a control centre as the words say, and answers the exit status: 0 confirmed, 1 refused, 2
/// wrong words, 3 no reply or no connection, 4 no memory.
pub(crate) fn be_centre<H: Host, W: Write, E: Write>(
    alloc: Global,
    host: &H,
    words: &CentreWords<'_>,
    out: &mut W,
    err: &mut E,
) -> u8
    ensures { EndsAsSaid words.now.json (W.contents out.old) (W.contents out.new) result }
{
    let Some(errands) = errands_in(words) else {
        let _ = writeln!(
            err,
            "error: wrong words: `telegate centre --help` lists them"
        );
        return USAGE;
    };
    let addresses = match addresses_of(alloc, host, errands.config, err) {
        Ok(addresses) => addresses,
        Err(status) => return status,
    };
    match host.control(&errands, addresses.as_slice(), out) {
        Ok(outcome) => tell(alloc, outcome, errands.style, out, err),
        Err(Uncontrolled::Unreached) => write_unknown(errands.place, err),
        Err(Uncontrolled::Failed(fault)) => write_fault(&fault, err),
    }
}

/// The common addresses in a file of settings, if one is named. If it can't be read or is refused,
/// that is written, and the exit status is answered.
fn addresses_of<H: Host, E: Write>(
    alloc: Global,
    host: &H,
    config: Option<&str>,
    err: &mut E,
) -> Result<Vec<u16>, u8>
    ensures { IfErr result (λ status. 0 < status) }
{
    let mut addresses = Vec::new(alloc);
    let Some(name) = config else {
        return Ok(addresses);
    };
    let octets = read_file(host, name, err)?;
    let config = match read_config(alloc, octets.as_slice(), false) {
        Ok(config) => config,
        Err(fault) => {
            let file = NamedText {
                name,
                octets: octets.as_slice(),
            };
            let fault = Fault::Config(fault);
            point_keys(alloc, file, false, &fault, err);
            return Err(write_fault(&fault, err));
        }
    };
    for station in config.stations() {
        if addresses.push(station.ca).is_err() {
            return Err(write_fault(&Fault::NoMemory, err));
        }
    }
    Ok(addresses)
}

/// Prints what became of the errand, and answers the exit status.
fn tell<W: Write, E: Write>(
    alloc: Global,
    outcome: Outcome,
    style: Style,
    out: &mut W,
    err: &mut E,
) -> u8
    ensures { IsTold style outcome (W.contents out.old) (W.contents out.new) result }
{
    let Ok(line) = end_line(alloc, style, outcome) else {
        return write_fault(&Fault::NoMemory, err);
    };
    match print(line.as_bytes(), out) {
        Ok(()) => outcome.status(),
        Err(_) => write_fault(&Fault::Device, err),
    }
}

/// Why nothing became of it.
#[derive(Drop)]
pub(crate) enum Uncontrolled {
    /// Nobody accepts a connection there.
    Unreached,
    Failed(Fault),
}

impl From<AllocError> for Uncontrolled {
    fn from(_error: AllocError) -> Uncontrolled {
        Uncontrolled::Failed(Fault::NoMemory)
    }
}

/// Connects to a gateway, and does there what is asked for. Prints what passes, and answers what
/// became of the errand.
pub(crate) fn control_at<W: Write>(
    rt: &HostRuntime,
    errands: &Errands<'_>,
    addresses: &[u16],
    out: &mut W,
) -> Result<Outcome, Uncontrolled>
    ensures { IfOk result (λ _. HasPrinted (W.contents out.old) (W.contents out.new)) }
{
    let alloc = rt.alloc();
    let place = dialled(alloc, errands.place)?;
    let stream = match LineDialler::new(rt, place.as_str()).reach() {
        Ok(stream) => stream,
        Err(fault) if fault.kind() == io::ErrorKind::OutOfMemory => {
            return Err(Uncontrolled::Failed(Fault::NoMemory));
        }
        Err(fault) => {
            tell_refused(rt, "gateway", errands.place, &fault);
            return Err(Uncontrolled::Unreached);
        }
    };
    let Ok(mut clock) = SystemClock::start(rt) else {
        return Err(Uncontrolled::Failed(Fault::Device));
    };
    let Some(tag) = tag_of(clock.wall_ms()) else {
        return Err(Uncontrolled::Failed(Fault::Device));
    };
    let terms = Terms {
        is_tagged: errands.is_tagged,
        tag,
        wait: errands.wait_ms,
        addresses,
    };
    let errand = errand_of(alloc, errands.wish, terms)?;
    let Ok(centre) = Centre::new(alloc, errand, clock.now_ms()) else {
        return Err(Uncontrolled::Failed(Fault::NoMemory));
    };
    let mut desk = Desk::new(alloc, errands.style, stream, centre);
    match pursue(alloc, &mut clock, errands.style, &mut desk, out) {
        Ok(outcome) => Ok(outcome),
        Err(Untold::NoMemory) => Err(Uncontrolled::Failed(Fault::NoMemory)),
        Err(Untold::Device) => Err(Uncontrolled::Failed(Fault::Device)),
    }
}

/// The place as the ends of a live run have it, with the standard's port if none is named.
fn dialled(alloc: Global, place: &str) -> Result<String, AllocError> {
    if is_address(place.as_bytes()) {
        format!(in alloc; "tcp:{place}")
    } else {
        format!(in alloc; "tcp:{place}:{PORT}")
    }
}
