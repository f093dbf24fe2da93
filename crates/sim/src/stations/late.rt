//! An answer that goes out late.
ghost use Rattle.std.specs.Prelude.{◌≡◌, None, Some};
ghost use Rattle.sim.specs.Losses.{or_else};
ghost use Rattle.sim.specs.Late.{delay_in, delay_of, has_passed};

use crate::stations::cue::Cue;
use arrayvec::ArrayVec;
use std::marker::Model;

/// An answer that goes out late.
#[derive(Drop)]
pub(crate) struct Late {
    octets: ArrayVec<u8, 261>,
    /// So many ms behind its request.
    ms: u64,
    /// The moment of the round in which the request was received, in ms, once that is known.
    since: Option<u64>,
}

impl Model for Late {
    ghost use Rattle.sim.specs.Late.{LateAnswer};

    ghost Value = { LateAnswer };

    ghost view = { λ l. record { octets = l.octets.items; ms = l.ms; since = l.since } };
}

impl Late {
    /// These octets, so many ms behind a request that was received just now.
    pub(crate) fn new(octets: ArrayVec<u8, 261>, ms: u64) -> Late
        ensures { result ≡ record { octets = octets.items; ms = ms; since = None } }
    {
        Late {
            octets,
            ms,
            since: None,
        }
    }

    /// Whether so many ms have passed since.
    pub(crate) fn is_due(&self, now: u64) -> bool
        ensures { result ≡ has_passed now self.now.ms self.now.since }
    {
        match self.since {
            Some(since) => now.saturating_sub(since) >= self.ms,
            None => false,
        }
    }

    /// It waits from this moment on, if it didn't wait before.
    pub(crate) fn begin(&mut self, now: u64)
        ensures { self.new ≡ record self.old { since = or_else self.old.since (Some now) } }
    {
        if self.since.is_none() {
            self.since = Some(now);
        }
    }

    /// The octets.
    pub(crate) fn into_octets(self) -> ArrayVec<u8, 261>
        ensures { result.items ≡ self.octets }
    {
        let Late { octets, .. } = self;
        octets
    }
}

/// How late a line has the answer to a request go out. `None` if it doesn't speak of it.
fn delay_in(request: u64, cue: &Cue) -> Option<u64>
    ensures { result ≡ delay_in request cue.now }
{
    match cue {
        Cue::Delayed(number, ms) if *number == request => Some(*ms),
        _ => None,
    }
}

/// The same of all lines.
#[tactic(auto, using(crate::proofs::Delays::delay_here, crate::proofs::Delays::delay_next, crate::proofs::Delays::delay_end))]
pub(crate) fn delay_of(request: u64, cues: &[Cue]) -> Option<u64>
    ensures { result ≡ delay_of request cues.now }
{
    for cue in cues {
        if let Some(ms) = delay_in(request, cue) {
            return Some(ms);
        }
    }
    None
}
