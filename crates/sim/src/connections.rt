//! What is counted of the control centre's connections.
ghost use Rattle.std.specs.Prelude.{◌≡◌, [], length, drop, OnOk, OnErr};
ghost use Rattle.gateway.specs.Entries.{event_of};
ghost use Rattle.gateway.specs.Objects.{objects};
ghost use Rattle.sim.specs.Connections.{objects_in_apdu, add_latest, counted_after};

use crate::centre::is_data;
use asdu::{Sizes, objects_are_those_of_the_asdu, read};
use gateway::Entry;
use std::alloc::{AllocError, Global};
use std::marker::Model;

/// How many monitor objects went to the control centre on each connection, the oldest first. No
/// number goes past `u64::MAX`.
#[derive(Drop)]
pub(crate) struct Connections {
    counts: Vec<u64>,
}

impl Model for Connections {
    ghost use Rattle.std.specs.Prelude.{List, ℕ};

    ghost Value = { List ℕ };

    ghost view = { λ c. c.counts.items };
}

/// The monitor objects of an ASDU on the connection.
fn objects_in_asdu(asdu: &[u8]) -> u64
    ensures { result ≡ length (objects asdu.now) }
{
    objects_are_those_of_the_asdu();
    match read(Sizes::TCP, asdu) {
        Ok(asdu) if asdu.is_passed_on() => asdu.number() as u64,
        _ => 0,
    }
}

/// What follows the control octets.
fn after_control(apdu: &[u8]) -> &[u8]
    ensures { result.now ≡ drop 6 apdu.entry.now }
{
    if apdu.len() > 6 { &apdu[6..] } else { &[] }
}

/// The monitor objects of an APDU.
fn objects_in_apdu(apdu: &[u8]) -> u64
    ensures { result ≡ objects_in_apdu apdu.now }
{
    if is_data(apdu) {
        objects_in_asdu(after_control(apdu))
    } else {
        0
    }
}

/// So many more are counted of the latest connection.
#[tactic(auto, using(crate::proofs::Counts::latest_set, crate::proofs::Counts::latest_none))]
fn add_latest(counts: &mut [u64], more: u64)
    ensures { counts.new ≡ add_latest more counts.old }
{
    let len = counts.len();
    if len > 0 {
        counts[len - 1] = counts[len - 1].saturating_add(more);
    }
}

impl Connections {
    /// None has opened yet.
    pub(crate) fn new(alloc: Global) -> Connections
        ensures { result ≡ [] }
    {
        Connections {
            counts: Vec::new(alloc),
        }
    }

    /// What is counted of each.
    pub(crate) fn counts(&self) -> &[u64]
        ensures { result.now ≡ self.now }
    {
        &self.counts
    }

    /// An event comes. An `Err` is want of memory, and changes nothing.
    pub(crate) fn come(&mut self, entry: &Entry) -> Result<(), AllocError>
        ensures ok { OnOk result (self.new ≡ counted_after (event_of entry.now) self.old) }
        ensures err { OnErr result (self.new ≡ self.old) }
    {
        if let Entry::Open(_) = entry {
            // Room for its number, before its opening is taken (docs/DECISIONS.md, "What the
            // closing lines say").
            self.counts.push(0)?;
        }
        Ok(())
    }

    /// An APDU goes to the control centre.
    pub(crate) fn hand(&mut self, apdu: &[u8])
        ensures { self.new ≡ add_latest (objects_in_apdu apdu.now) self.old }
    {
        add_latest(self.counts.as_mut_slice(), objects_in_apdu(apdu));
    }
}
