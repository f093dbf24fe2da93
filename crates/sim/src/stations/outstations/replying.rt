//! The replies of the stations' applications to the commands that they accepted.
ghost use Rattle.std.specs.Prelude.{◌≡◌, IfOk, false, length};
ghost use Rattle.sim.specs.Progress.{next_step, none_replied};
ghost use Rattle.sim.specs.Replying.{IsNext, Replies, RepliesEach, advanced, manner_in};
ghost use Rattle.sim.specs.Replying.{manner_of};

use super::Outstations;
use crate::directive::Class;
use crate::stations::cue::Cue;
use crate::stations::replies::reply_to;
use link::{NoMemory, UserData};
use std::alloc::Global;

/// How far a station's replies are: all were given to so many commands, and to the next one the
/// confirmation, or none.
#[derive(Clone, Copy, PartialEq, Eq)]
pub(crate) struct ReplyProgress {
    commands: usize,
    is_confirmed: bool,
}

/// What is next among the replies of a station.
#[derive(Drop)]
enum NextReply {
    /// All is replied.
    Nothing,
    /// The command has no such reply.
    NoReply,
    /// This one.
    Reply(UserData),
}

/// How far the replies of so many stations are from the start.
pub(super) fn none_replied(alloc: Global, stations: usize) -> Result<Vec<ReplyProgress>, NoMemory>
    ensures { IfOk result (λ all. all.items ≡ none_replied stations) }
{
    let mut all = Vec::new(alloc);
    for _ in 0..stations {
        all.push(ReplyProgress::none()).map_err(|_| NoMemory)?;
    }
    Ok(all)
}

/// How a line has a station reply to commands: whether it refuses them. `None` if it says nothing
/// of that.
fn manner_in(station: usize, cue: &Cue) -> Option<bool>
    ensures { result ≡ manner_in station cue.now }
{
    match cue {
        Cue::Confirm(index) if *index == station => Some(false),
        Cue::Refuse(index) if *index == station => Some(true),
        _ => None,
    }
}

/// The same of all lines.
#[tactic(auto, using(crate::proofs::Replying::manner_here, crate::proofs::Replying::manner_next, crate::proofs::Replying::manner_end))]
fn manner_of(station: usize, cues: &[Cue]) -> Option<bool>
    ensures { result ≡ manner_of station cues.now }
{
    for cue in cues {
        if let Some(refuses) = manner_in(station, cue) {
            return Some(refuses);
        }
    }
    None
}

impl ReplyProgress {
    /// Nothing was replied to.
    pub(super) fn none() -> ReplyProgress
        ensures { result ≡ record { commands = 0; is_confirmed = false } }
    {
        ReplyProgress {
            commands: 0,
            is_confirmed: false,
        }
    }

    /// One reply further.
    fn step(&mut self)
        ensures { self.new ≡ next_step self.old }
    {
        if self.is_confirmed {
            self.commands = self.commands.saturating_add(1);
        }
        self.is_confirmed = !self.is_confirmed;
    }
}

impl Outstations {
    /// What is next among the replies of a station, which refuses commands or confirms them.
    fn next(&self, station: usize, refuses: bool) -> NextReply
        ensures { IsNext self.now station refuses result }
    {
        if station >= self.progress.len() || station >= self.stations.len() {
            return NextReply::Nothing;
        }
        let ReplyProgress {
            commands,
            is_confirmed,
        } = self.progress[station];
        let accepted = self.stations[station].accepted();
        if commands >= accepted.len() {
            return NextReply::Nothing;
        }
        let command = accepted[commands].as_slice();
        match reply_to(self.size, self.sizes, refuses, is_confirmed, command) {
            Some(reply) => NextReply::Reply(reply),
            None => NextReply::NoReply,
        }
    }

    /// A station is one reply further.
    fn advance(&mut self, station: usize)
        ensures { self.new ≡ advanced station self.old }
    {
        if station < self.progress.len() {
            self.progress[station].step();
        }
    }

    /// A station gives its next reply to the commands that it accepted, if the script has it reply,
    /// as a report of class 1. As long as it takes no report the reply waits.
    fn reply_next(&mut self, station: usize)
        ensures { Replies station self.old self.new }
    {
        let Some(refuses) = manner_of(station, self.cues.as_slice()) else {
            return;
        };
        match self.next(station, refuses) {
            NextReply::Nothing => {}
            NextReply::NoReply => self.advance(station),
            NextReply::Reply(reply) => {
                // If it finds no room, those behind it wait too, so that they keep the order of the
                // commands (docs/DECISIONS.md, "A reply waits for the one before it").
                if self.report(station, Class::One, reply.octets()) {
                    self.advance(station);
                }
            }
        }
    }

    /// Each station gives its next reply.
    #[tactic(auto, using(crate::proofs::Replying::replies_more))]
    pub(crate) fn reply_all(&mut self)
        ensures { RepliesEach (length self.old.stations) self.old self.new }
    {
        for station in 0..self.stations.len() {
            self.reply_next(station);
        }
    }
}
