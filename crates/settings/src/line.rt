//! The settings of the line.
ghost use Rattle.std.specs.Prelude.{◌≡◌, ◌≤◌, IfOk, codes};
ghost use Rattle.gateway.specs.Settings.{IsWithin};
ghost use Rattle.settings.specs.Faults.{seen, seen_by};
ghost use Rattle.settings.specs.Keys.{given_at, members_in};
ghost use Rattle.settings.specs.Line.{line_settings, line_of, sizes_of, waits_of, link_size};
ghost use Rattle.settings.specs.Line.{cause_size, ca_size, ioa_size, silence_of};

use crate::fault::WrongKey;
use crate::keys::{Whole, given};
use asdu::{CaSize, CauseSize, IoaSize, Sizes};
use ft12::LinkSize;
use gateway::{LineSettings, Silence};
use toml::Table;

const LINK: &Whole = &Whole {
    key: "link",
    path: "line.link",
    low: 1,
    high: 2,
    default: None,
};

const CAUSE: &Whole = &Whole {
    key: "cause",
    path: "line.cause",
    low: 1,
    high: 2,
    default: None,
};

const CA: &Whole = &Whole {
    key: "ca",
    path: "line.ca",
    low: 1,
    high: 2,
    default: None,
};

const IOA: &Whole = &Whole {
    key: "ioa",
    path: "line.ioa",
    low: 1,
    high: 3,
    default: None,
};

const ANSWER_MS: &Whole = &Whole {
    key: "answer_ms",
    path: "line.answer_ms",
    low: 1,
    high: 60000,
    default: Some(200),
};

const RETRIES: &Whole = &Whole {
    key: "retries",
    path: "line.retries",
    low: 0,
    high: 10,
    default: Some(3),
};

const BURST: &Whole = &Whole {
    key: "burst",
    path: "line.burst",
    low: 1,
    high: 255,
    default: Some(8),
};

const QUEUE: &Whole = &Whole {
    key: "queue",
    path: "line.queue",
    low: 3,
    high: 65535,
    default: Some(1000),
};

/// How long an answer is waited for, in ms, how often a request is sent again, and what a station's
/// silence does.
struct Waits {
    answer_ms: u64,
    retries: u8,
    silence: Silence,
}

/// Reads the keys of the table `line` in their order.
pub(crate) fn read_line(table: Option<&Table>) -> Result<LineSettings, WrongKey>
    ensures { seen_by line_of result ≡ line_settings (members_in table.entry) }
{
    let link = link_size(LINK.read(table)?);
    let sizes = read_sizes(table)?;
    let Waits {
        answer_ms,
        retries,
        silence,
    } = read_waits(table)?;
    let burst = BURST.read(table)? as u8;
    let queue = QUEUE.read(table)? as u16;
    Ok(LineSettings {
        link,
        sizes,
        answer_ms,
        retries,
        silence,
        burst,
        queue,
    })
}

fn read_sizes(table: Option<&Table>) -> Result<Sizes, WrongKey>
    ensures { seen result ≡ sizes_of (members_in table.entry) }
{
    let cause = cause_size(CAUSE.read(table)?);
    let ca = ca_size(CA.read(table)?);
    let ioa = ioa_size(IOA.read(table)?);
    Ok(Sizes { cause, ca, ioa })
}

fn read_waits(table: Option<&Table>) -> Result<Waits, WrongKey>
    ensures value { seen result ≡ waits_of (members_in table.entry) }
    ensures range { IfOk result (λ waits. IsWithin 1 60000 waits.answer_ms × (waits.retries ≤ 10)) }
{
    let answer_ms = u64::from(ANSWER_MS.read(table)?);
    let retries = RETRIES.read(table)? as u8;
    let silence = read_silence(table)?;
    Ok(Waits {
        answer_ms,
        retries,
        silence,
    })
}

fn read_silence(table: Option<&Table>) -> Result<Silence, WrongKey>
    ensures { seen result ≡ silence_of (given_at (codes "silence") (members_in table.entry)) }
{
    let Some(value) = given(table, "silence") else {
        return Ok(Silence::Hold);
    };
    match value.as_str() {
        Some("hold") => Ok(Silence::Hold),
        Some("reset") => Ok(Silence::Reset),
        _ => Err(WrongKey {
            path: "line.silence",
        }),
    }
}

fn link_size(octets: u32) -> LinkSize
    ensures { result ≡ link_size octets }
{
    if octets == 1 {
        LinkSize::One
    } else {
        LinkSize::Two
    }
}

fn cause_size(octets: u32) -> CauseSize
    ensures { result ≡ cause_size octets }
{
    if octets == 1 {
        CauseSize::One
    } else {
        CauseSize::Two
    }
}

fn ca_size(octets: u32) -> CaSize
    ensures { result ≡ ca_size octets }
{
    if octets == 1 {
        CaSize::One
    } else {
        CaSize::Two
    }
}

fn ioa_size(octets: u32) -> IoaSize
    ensures { result ≡ ioa_size octets }
{
    match octets {
        1 => IoaSize::One,
        2 => IoaSize::Two,
        _ => IoaSize::Three,
    }
}
