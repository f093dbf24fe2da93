//! The requests of an errand.
ghost use Rattle.std.specs.Prelude.{◌≡◌, ◌≤◌, IfOk, length, map};
ghost use Rattle.centre.specs.Plans.{IsErrandOf, addresses_for, command_step, order_steps, step_to};
ghost use Rattle.centre.specs.Plans.{awaited_of, tag_if};

use crate::errand::{Errand, Step, Until};
use crate::reading::{Manner, Order, Wish};
use crate::request::{ACTIVATION, DEACTIVATION, GLOBAL, Request};
use arrayvec::ArrayVec;
use std::alloc::{AllocError, Global};

/// How long a command's termination is waited for behind its confirmation, in ms.
// Many outstations give none.
const TERMINATION_MS: u64 = 1000;

/// The types of ASDUs that are to a station as a whole (IEC 60870-5-101, 7.2.1.5).
const INTERROGATION: u8 = 100;

const COUNTERS: u8 = 101;

const CLOCK: u8 = 103;

/// Station interrogation (7.2.6.22), and a general request of counters (7.2.6.23).
const STATION: u8 = 20;

const GENERAL: u8 = 5;

/// What is asked for beside the words.
#[derive(Clone, Copy)]
pub struct Terms<'a> {
    /// A command bears a time tag.
    pub is_tagged: bool,
    /// The time tag of this moment.
    pub tag: [u8; 7],
    /// How long a confirmation may take, in ms.
    pub wait: u64,
    /// The common addresses of the settings.
    pub addresses: &'a [u16],
}

/// The errand that is wished for.
pub fn errand_of(alloc: Global, wish: Wish, terms: Terms<'_>) -> Result<Errand, AllocError>
    ensures { IfOk result (IsErrandOf wish terms.entry) }
{
    let patient = Until::Terminated(terms.wait);
    let steps = match wish {
        Wish::Watch => { to_stations(alloc, INTERROGATION, &[STATION], None, terms, Until::Sent)? }
        Wish::Interrogate(ca) => {
            to_stations(alloc, INTERROGATION, &[STATION], ca, terms, patient)?
        }
        Wish::Counters(ca) => to_stations(alloc, COUNTERS, &[GENERAL], ca, terms, patient)?,
        Wish::Clock(ca) => to_stations(alloc, CLOCK, &terms.tag, ca, terms, Until::Confirmed)?,
        Wish::Command(order) => commands(alloc, order, terms)?,
    };
    let awaited = awaited_by(alloc, wish, terms)?;
    let silent = awaited_by(alloc, wish, terms)?;
    let stays = matches!(wish, Wish::Watch);
    Ok(Errand::new(steps, stays, terms.wait, awaited, silent))
}

/// The stations whose termination of a request to all is waited for.
fn awaited_by(alloc: Global, wish: Wish, terms: Terms<'_>) -> Result<Vec<u16>, AllocError>
    ensures { IfOk result (λ all. all.items ≡ awaited_of wish terms.entry) }
{
    match wish {
        Wish::Interrogate(Some(GLOBAL)) | Wish::Counters(Some(GLOBAL)) => {
            terms.addresses.to_vec(alloc)
        }
        _ => Ok(Vec::new(alloc)),
    }
}

/// One for each station that is asked.
fn to_stations(
    alloc: Global,
    kind: u8,
    content: &[u8],
    ca: Option<u16>,
    terms: Terms<'_>,
    until: Until,
) -> Result<Vec<Step>, AllocError>
    requires { length content.now ≤ 12 }
    ensures { IfOk result (λ steps. steps.items
        ≡ map (step_to kind content.now until) (addresses_for ca terms.entry.addresses.now)) }
{
    match ca {
        Some(ca) => to_each(alloc, kind, content, &[ca], until),
        None if terms.addresses.is_empty() => to_each(alloc, kind, content, &[GLOBAL], until),
        None => to_each(alloc, kind, content, terms.addresses, until),
    }
}

/// One for each common address.
fn to_each(
    alloc: Global,
    kind: u8,
    content: &[u8],
    addresses: &[u16],
    until: Until,
) -> Result<Vec<Step>, AllocError>
    requires { length content.now ≤ 12 }
    ensures { IfOk result (λ steps. steps.items
        ≡ map (step_to kind content.now until) addresses.now) }
{
    let mut steps = Vec::new(alloc);
    for ca in addresses {
        steps.push(to_one(kind, content, *ca, until))?;
    }
    Ok(steps)
}

/// One to a station as a whole.
fn to_one(kind: u8, content: &[u8], ca: u16, until: Until) -> Step
    requires { length content.now ≤ 12 }
    ensures { result ≡ step_to kind content.now until ca }
{
    let mut octets = ArrayVec::new();
    octets.try_extend_from_slice(content).unwrap();
    let request = Request {
        kind,
        cause: ACTIVATION,
        ca,
        ioa: 0,
        content: octets,
    };
    Step { request, until }
}

/// A command to one object.
fn command(order: Order, selects: bool, cause: u8, tag: Option<[u8; 7]>, until: Until) -> Step
    ensures { result ≡ command_step order selects cause tag until }
{
    let kind = order.value.kind();
    let request = Request {
        kind: if tag.is_some() { kind + 13 } else { kind },
        cause,
        ca: order.ca,
        ioa: order.ioa,
        content: order.value.content(selects, tag),
    };
    Step { request, until }
}

/// The commands of an order.
fn commands(alloc: Global, order: Order, terms: Terms<'_>) -> Result<Vec<Step>, AllocError>
    ensures { IfOk result (λ steps.
        steps.items ≡ order_steps order.manner order
        (tag_if terms.entry.is_tagged terms.entry.tag)) }
{
    let tag = if terms.is_tagged {
        Some(terms.tag)
    } else {
        None
    };
    let patient = Until::Terminated(TERMINATION_MS);
    let mut steps = Vec::new(alloc);
    match order.manner {
        Manner::Select => {
            steps.push(command(order, true, ACTIVATION, tag, Until::Confirmed))?;
        }
        Manner::Execute => steps.push(command(order, false, ACTIVATION, tag, patient))?,
        Manner::Operate => {
            steps.push(command(order, true, ACTIVATION, tag, Until::Confirmed))?;
            steps.push(command(order, false, ACTIVATION, tag, patient))?;
        }
        Manner::Deactivate => {
            steps.push(command(order, true, DEACTIVATION, tag, Until::Confirmed))?;
        }
    }
    Ok(steps)
}
