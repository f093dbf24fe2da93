//! Where a live run finds its line and its control centre.
ghost use Rattle.std.specs.Prelude.{◌≡◌};
ghost use Rattle.settings.specs.Faults.{seen};
ghost use Rattle.settings.specs.Keys.{members_in};
ghost use Rattle.std.specs.List.{list_all};
ghost use Rattle.std.specs.Prelude.{codes, option_map, MatchResult};
ghost use Rattle.settings.specs.Faults.{seen_by, IsWrongKeyOf};
ghost use Rattle.settings.specs.Keys.{given_at};
ghost use Rattle.settings.specs.Live.{live_keys, word_of, has_port, is_address, is_behind, is_here};
ghost use Rattle.settings.specs.Live.{is_line, is_localhost, is_loopback, is_numeric, is_port};
ghost use Rattle.settings.specs.Live.{live_places, place_of, places_of, text_of};

use crate::ConfigFault;
use crate::fault::WrongKey;
use crate::keys::given;
use std::alloc::Global;
use toml::Table;
use traces::read_decimal;

/// Where a live run finds its ends.
#[derive(PartialEq, Eq, Drop)]
pub struct LiveSettings {
    /// The line: `tcp:HOST:PORT` or `unix:PATH`.
    pub line: String,
    /// Where control centres connect: `HOST:PORT`.
    pub listen: String,
}

/// Judges the keys of the table `live`, which may be missing.
pub(crate) fn judge_live(table: Option<&Table>) -> Result<(), WrongKey>
    ensures { seen result ≡ live_keys (members_in table.entry) }
{
    judge_text(table, "line", "live.line")?;
    judge_text(table, "listen", "live.listen")
}

/// A key whose value is any text, and which may be missing.
fn judge_text(table: Option<&Table>, key: &str, path: &'static str) -> Result<(), WrongKey>
    ensures { seen result ≡ word_of key.now path.entry.now (members_in table.entry) }
{
    match given(table, key) {
        None => Ok(()),
        Some(value) => match value.as_str() {
            Some(_) => Ok(()),
            None => Err(WrongKey { path }),
        },
    }
}

/// Reads the keys of the table `live`, which a live run needs.
pub(crate) fn read_live(alloc: Global, table: Option<&Table>) -> Result<LiveSettings, ConfigFault>
    ensures { MatchResult result
        (λ s. live_places (members_in table.entry) ≡ Ok (places_of s))
        (IsWrongKeyOf (live_places (members_in table.entry))) }
{
    // Only `run` judges the places themselves.
    let line = line_place(table)?;
    let listen = listen_place(table)?;
    Ok(LiveSettings {
        line: String::from_str(alloc, line)?,
        listen: String::from_str(alloc, listen)?,
    })
}

/// The place of the line.
fn line_place<'a>(table: Option<&'a Table>) -> Result<&'a str, WrongKey>
    ensures { seen_by (λ text. text.now) result
        ≡ place_of is_line (codes "line") (codes "live.line") (members_in table.entry) }
{
    match text_at(table, "line") {
        Some(text) if is_line(text.as_bytes()) => Ok(text),
        _ => Err(WrongKey { path: "live.line" }),
    }
}

/// The place of the listener.
fn listen_place<'a>(table: Option<&'a Table>) -> Result<&'a str, WrongKey>
    ensures { seen_by (λ text. text.now) result
        ≡ place_of is_address (codes "listen") (codes "live.listen") (members_in table.entry) }
{
    match text_at(table, "listen") {
        Some(text) if is_address(text.as_bytes()) => Ok(text),
        _ => Err(WrongKey {
            path: "live.listen",
        }),
    }
}

/// The text at a key, if it is there and is one.
fn text_at<'a>(table: Option<&'a Table>, key: &str) -> Option<&'a str>
    ensures { option_map (λ text. text.now) result
        ≡ text_of (given_at key.now (members_in table.entry)) }
{
    match given(table, key) {
        Some(value) => value.as_str(),
        None => None,
    }
}

/// `tcp:HOST:PORT`, or `unix:PATH` with a path that isn't empty.
fn is_line(text: &[u8]) -> bool
    ensures { result ≡ is_line text.now }
{
    text.starts_with(b"tcp:") && is_address(&text[4..])
        || text.starts_with(b"unix:") && text.len() > 5
}

/// `HOST:PORT`, if the host is all that stands before the last colon, and isn't empty.
pub fn is_address(text: &[u8]) -> bool
    ensures { result ≡ is_address text.now }
{
    match text {
        [] => false,
        [_, after @ ..] => has_port(after),
    }
}

/// Somewhere a colon stands before a port, which goes to the end.
#[tactic(auto, using(crate::proofs::LiveLemmas::port_here, crate::proofs::LiveLemmas::no_colon_here, crate::proofs::LiveLemmas::no_port_here, crate::proofs::LiveLemmas::port_nowhere))]
fn has_port(text: &[u8]) -> bool
    ensures { result ≡ has_port text.now }
{
    for at in 0..text.len() {
        // Any colon may be the one: an IPv6 address has some of its own, and only the last has
        // nothing but digits behind it.
        if text[at] == b':' && is_port(&text[at + 1..]) {
            return true;
        }
    }
    false
}

/// A number from 1 to 65535 in decimal digits.
fn is_port(digits: &[u8]) -> bool
    ensures { result ≡ is_port digits.now }
{
    match read_decimal(digits) {
        Some(port) => (1..=65535).contains(&port),
        None => false,
    }
}

/// Whether a line, `tcp:HOST:PORT` or `unix:PATH`, is on this machine by its name: a path of a
/// device is, and so are the hosts `localhost`, `::1` and those of 127.0.0.0/8.
pub fn is_here(line: &[u8]) -> bool
    ensures { result ≡ is_here line.now }
{
    line.starts_with(b"unix:") || is_localhost(line) || is_loopback(line)
}

/// Whether a line's host is `localhost` or `::1`.
#[tactic(auto, unfolding(crate::specs::Live::is_localhost))]
fn is_localhost(line: &[u8]) -> bool
    ensures { result ≡ is_localhost line.now }
{
    is_behind(line, b"tcp:localhost:") || is_behind(line, b"tcp:::1:")
}

/// Whether a line is this beginning and a port.
fn is_behind(line: &[u8], head: &[u8]) -> bool
    ensures { result ≡ is_behind head.now line.now }
{
    line.starts_with(head) && is_port(&line[head.len()..])
}

/// Whether a line's host is an address of 127.0.0.0/8.
fn is_loopback(line: &[u8]) -> bool
    ensures { result ≡ is_loopback line.now }
{
    line.starts_with(b"tcp:127.") && are_numeric(&line[8..])
}

/// Whether the octets are those of an IPv4 address with its port.
fn are_numeric(text: &[u8]) -> bool
    ensures { result ≡ list_all is_numeric text.now }
{
    text.iter().all(|octet| is_numeric(*octet))
}

/// Whether the octet belongs to an IPv4 address with its port.
fn is_numeric(octet: u8) -> bool
    ensures { result ≡ is_numeric octet }
{
    octet.is_ascii_digit() || octet == b'.' || octet == b':'
}
