//! What a control centre is to do, and how far it is with that.
ghost use Rattle.std.specs.Prelude.{◌≡◌, ◌==◌, ◌<◌, filter, length, not, option_map};
ghost use Rattle.centre.specs.Errands.{answer_in, due_of, ended_at, gathers, heard, heard_at};
ghost use Rattle.centre.specs.Errands.{lost, others, passed, reply_to, sent_off, turn_of, waited};

use crate::request::{GLOBAL, Request};
use std::marker::Model;

/// How long what was sent is waited for.
#[derive(Clone, Copy, Debug, PartialEq, Eq)]
pub enum Until {
    /// Not at all: the next one follows at once.
    Sent,
    /// Until it is confirmed.
    Confirmed,
    /// Until it is terminated, and so many ms at the most behind its confirmation, or behind what
    /// an interrogation brought.
    Terminated(u64),
}

/// A request, and how long it is waited for.
#[derive(Drop)]
pub struct Step {
    pub request: Request,
    pub until: Until,
}

/// How far the request is whose turn it is.
#[derive(Clone, Copy, Debug, PartialEq, Eq)]
enum Standing {
    Unsent,
    /// It went out at this moment, in ms.
    Sent(u64),
    /// It is confirmed, and this is when the latest of it came, in ms.
    Confirmed(u64),
}

/// Why a connection is lost.
#[derive(Clone, Copy, Debug, PartialEq, Eq)]
pub enum Loss {
    /// The other side ended it.
    Gone,
    /// It didn't take what was sent.
    Untaken,
    /// It is against IEC 60870-5-104, clause 5, or an answer of that clause didn't come in t1.
    Closed(session::Close),
}

/// What became of an errand.
#[derive(Clone, Copy, Debug, PartialEq, Eq)]
pub enum Outcome {
    /// The last request was confirmed.
    Confirmed,
    /// It was terminated, too.
    Terminated,
    /// A request was refused, by this cause octet.
    Refused(u8),
    /// No answer came in time.
    Silent,
    /// The connection is lost.
    Lost(Loss),
}

/// What an ASDU that came says to the request whose turn it is.
#[derive(Clone, Copy, Debug, PartialEq, Eq)]
enum Reply {
    Confirms,
    Terminates,
    Refuses,
}

/// What stands at the front of an ASDU.
#[derive(Clone, Copy)]
pub(crate) struct Answer {
    pub(crate) kind: u8,
    pub(crate) cause: u8,
    pub(crate) ca: u16,
    pub(crate) ioa: u32,
}

/// Requests to be sent one after another.
#[derive(Drop)]
pub struct Errand {
    steps: Vec<Step>,
    /// It goes on when they are through: a watch.
    stays: bool,
    /// How long a confirmation may take, in ms.
    wait: u64,
    /// Whose turn it is.
    at: usize,
    standing: Standing,
    /// The common addresses whose termination is still waited for, of a request to all.
    awaited: Vec<u16>,
    /// Those of which nothing came so far.
    silent: Vec<u16>,
    outcome: Option<Outcome>,
}

impl Model for Errand {
    ghost use Rattle.centre.specs.Errands.{Errand as AsErrand};

    ghost Value = { AsErrand };

    ghost view = { λ e. record {
      steps = e.steps.items;
      stays = e.stays;
      wait = e.wait;
      at = e.at;
      standing = e.standing;
      awaited = e.awaited.items;
      silent = e.silent.items;
      outcome = e.outcome;
    } };
}

/// What stands at the front of the octets of an ASDU in the sizes of IEC 60870-5-104.
pub(crate) fn answer_in(octets: &[u8]) -> Option<Answer>
    ensures { result ≡ answer_in octets.now }
{
    if octets.len() < 9 {
        return None;
    }
    Some(Answer {
        kind: octets[0],
        cause: octets[2],
        ca: u16::from(octets[4]) + 256 * u16::from(octets[5]),
        ioa: u32::from(octets[6]) + 256 * u32::from(octets[7]) + 65536 * u32::from(octets[8]),
    })
}

/// What an ASDU says to a request: nothing, unless it is of the same type and the same object.
fn reply_to(request: &Request, answer: Answer) -> Option<Reply>
    ensures { result ≡ reply_to request.now answer }
{
    let is_for = request.kind == answer.kind
        && request.ioa == answer.ioa
        && (request.ca == answer.ca || request.ca == GLOBAL);
    if !is_for {
        return None;
    }
    match answer.cause % 64 {
        44 | 45 | 46 | 47 => Some(Reply::Refuses),
        said if said != 10 && u16::from(said) != u16::from(request.cause) + 1 => None,
        _ if answer.cause / 64 % 2 == 1 => Some(Reply::Refuses),
        10 => Some(Reply::Terminates),
        _ => Some(Reply::Confirms),
    }
}

/// A station has answered: what is left of such a list without it, or without all of them.
fn drop_answered(stations: &mut Vec<u16>, ca: u16)
    ensures { stations.new.items ≡ others ca stations.old.items }
{
    if ca == GLOBAL {
        stations.clear();
    } else {
        drop_one(stations, ca);
    }
}

fn drop_one(stations: &mut Vec<u16>, ca: u16)
    ensures { stations.new.items ≡ filter (λ one. not (one == ca)) stations.old.items }
{
    stations.retain(|one| *one != ca);
}

/// Whether it was asked for by an interrogation, of objects or of counters.
fn gathers(answer: Answer) -> bool
    ensures { result ≡ gathers answer }
{
    answer.cause % 64 >= 20 && answer.cause % 64 <= 41
}

impl Errand {
    ghost use Rattle.std.specs.Prelude.{None};
    ghost use Rattle.centre.specs.declared.errand.Standing.TheVariants.{Unsent};

    /// One of these requests, in their order, before the first of them. A watch stays when they are
    /// through. Each confirmation may take so many ms. A request to all is through once each of the
    /// stations `awaited` has terminated it, and `silent` has the same ones.
    pub fn new(
        steps: Vec<Step>,
        stays: bool,
        wait: u64,
        awaited: Vec<u16>,
        silent: Vec<u16>,
    ) -> Errand
        ensures { result ≡ record {
          steps = steps.items;
          stays = stays;
          wait = wait;
          at = 0;
          standing = Unsent;
          awaited = awaited.items;
          silent = silent.items;
          outcome = None;
        } }
    {
        Errand {
            steps,
            stays,
            wait,
            at: 0,
            standing: Standing::Unsent,
            awaited,
            silent,
            outcome: None,
        }
    }

    /// The common addresses of which nothing has come, of those that a request to all waits for.
    pub fn silent(&self) -> &[u16]
        ensures { result.now ≡ self.now.silent }
    {
        self.silent.as_slice()
    }

    /// What became of it, once it is over.
    pub fn outcome(&self) -> Option<Outcome>
        ensures { result ≡ self.now.outcome }
    {
        self.outcome
    }

    /// The request that is to go out next, if any is.
    pub(crate) fn due(&self) -> Option<&Request>
        ensures { option_map (λ r. r.now) result ≡ due_of self.now }
    {
        match self.standing {
            Standing::Unsent => Some(&self.steps.get(self.at)?.request),
            Standing::Sent(_) | Standing::Confirmed(_) => None,
        }
    }

    /// It is the next one's turn. Behind the last one the errand has ended so, unless it stays.
    fn pass(&mut self, end: Outcome)
        requires { self.old.at < length self.old.steps }
        ensures { self.new ≡ passed end self.old }
    {
        self.at += 1;
        self.standing = Standing::Unsent;
        if !self.stays && self.at >= self.steps.len() {
            self.outcome = Some(end);
        }
    }

    /// The request went out.
    pub(crate) fn sent(&mut self, now: u64)
        ensures { self.new ≡ sent_off now self.old }
    {
        let Some(step) = self.steps.get(self.at) else {
            return;
        };
        match step.until {
            Until::Sent => self.pass(Outcome::Confirmed),
            Until::Confirmed | Until::Terminated(_) => self.standing = Standing::Sent(now),
        }
    }

    /// An ASDU came, with these octets.
    pub(crate) fn take(&mut self, octets: &[u8], now: u64)
        ensures { self.new ≡ heard now octets.now self.old }
    {
        let Some(answer) = answer_in(octets) else {
            return;
        };
        if self.outcome.is_none() {
            self.hear(answer, now);
        }
    }

    /// What came may be an answer to the request whose turn it is.
    fn hear(&mut self, answer: Answer, now: u64)
        ensures { self.new ≡ heard_at now answer (turn_of self.old) self.old }
    {
        let Some(step) = self.steps.get(self.at) else {
            return;
        };
        let reply = reply_to(&step.request, answer);
        match (self.standing, reply, step.until) {
            // One that comes before the request has gone out is none to it.
            (Standing::Unsent, _, _) => {}
            (_, Some(Reply::Refuses), _) => self.outcome = Some(Outcome::Refused(answer.cause)),
            (_, Some(Reply::Confirms), Until::Confirmed) => self.pass(Outcome::Confirmed),
            (_, Some(Reply::Confirms), Until::Terminated(_)) => {
                drop_answered(&mut self.silent, answer.ca);
                self.standing = Standing::Confirmed(now);
            }
            (_, Some(Reply::Terminates), Until::Terminated(_)) => self.end_at(answer.ca, now),
            // While what an interrogation asked for still comes its end is waited for anew.
            (Standing::Confirmed(_), None, _) if gathers(answer) => {
                self.standing = Standing::Confirmed(now);
            }
            (_, _, _) => {}
        }
    }

    /// A termination came from a station, or from all.
    fn end_at(&mut self, ca: u16, now: u64)
        requires { self.old.at < length self.old.steps }
        ensures { self.new ≡ ended_at now ca self.old }
    {
        drop_answered(&mut self.silent, ca);
        drop_answered(&mut self.awaited, ca);
        if self.awaited.is_empty() {
            self.pass(Outcome::Terminated);
        } else {
            self.standing = Standing::Confirmed(now);
        }
    }

    /// Time passes. A confirmation that doesn't come in time ends the errand; a termination that
    /// doesn't come is done without, but a station that gave nothing isn't.
    pub(crate) fn wait_on(&mut self, now: u64)
        ensures { self.new ≡ waited now self.old }
    {
        let Some(step) = self.steps.get(self.at) else {
            return;
        };
        match (self.standing, step.until) {
            (Standing::Sent(since), _) if now.saturating_sub(since) >= self.wait => {
                self.outcome = Some(Outcome::Silent);
            }
            (Standing::Confirmed(since), Until::Terminated(ms))
                if now.saturating_sub(since) >= ms => {
                if self.silent.is_empty() {
                    self.pass(Outcome::Confirmed);
                } else {
                    self.outcome = Some(Outcome::Silent);
                }
            }
            (_, _) => {}
        }
    }

    /// The connection is lost, unless it has ended before.
    pub(crate) fn lose(&mut self, why: Loss)
        ensures { self.new ≡ lost why self.old }
    {
        if self.outcome.is_none() {
            self.outcome = Some(Outcome::Lost(why));
        }
    }
}
