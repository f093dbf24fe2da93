//! What of the connection before it a start gives up.
ghost use Rattle.std.specs.Prelude.{◌≡◌, ◌++◌, IfOk, OnOk, length, option_map};
ghost use Rattle.state.specs.GivenUps as spec;

use asdu::{Sizes, head};
use command::Commands;
use gateway::Gateway;
use link::{Asked, Link, Master, Service};
use std::alloc::{AllocError, Global};

/// How far something of a connection had come.
#[derive(Clone, Copy, PartialEq, Eq)]
pub enum Stage {
    /// A command on the line, to which no answer of its station came.
    Unanswered,
    /// A command that was never put on the line.
    Waiting,
    /// A selection that stands.
    Selection,
    /// An own answer that wasn't sent.
    OwnAnswer,
}

/// What of a connection is given up, by the object that it names.
#[derive(Clone, Copy, PartialEq, Eq)]
pub struct GivenUp {
    pub stage: Stage,
    /// Its type octet.
    pub kind: u8,
    /// The common address.
    pub ca: u16,
    /// The object's address.
    pub object: u32,
}

/// Appends what an ASDU in these sizes names.
fn push_asdu(
    list: &mut Vec<GivenUp>,
    stage: Stage,
    sizes: Sizes,
    asdu: &[u8],
) -> Result<(), AllocError>
    ensures { OnOk result (list.new.items
        ≡ list.old.items ++ spec.of_asdu stage sizes asdu.now) }
{
    if let Some(head) = head(sizes, asdu) {
        list.push(GivenUp {
            stage,
            kind: head.kind,
            ca: head.ca,
            object: head.ioa,
        })?;
    }
    Ok(())
}

/// The command that a service is, if it is one.
fn command_of(service: &Service) -> Option<&[u8]>
    ensures { option_map (λ a. a.now) result ≡ spec.command_of service.now }
{
    match service {
        Service::Command(asdu) => Some(asdu.octets()),
        Service::Class1 | Service::Class2 => None,
    }
}

/// The command that a link holds, if it holds one.
fn held_command(link: &Link) -> Option<&[u8]>
    ensures { option_map (λ a. a.now) result ≡ spec.held_command link.now }
{
    match link {
        Link::Held(_, service, _) => command_of(service),
        Link::Down | Link::Available | Link::Next(_) => None,
    }
}

/// The command to this station whose answer is awaited, if there is one.
fn sent_command(line: &Master, station: usize) -> Option<&[u8]>
    ensures { option_map (λ a. a.now) result ≡ spec.sent_command line.now station }
{
    if line.turn() != station {
        return None;
    }
    match line.awaited() {
        Some(Asked::Counted(_, service)) => command_of(service),
        Some(Asked::Status | Asked::Reset) | None => None,
    }
}

/// Appends the command on the line of this station to which no answer came, if there is one.
fn push_unanswered(
    list: &mut Vec<GivenUp>,
    sizes: Sizes,
    line: &Master,
    station: usize,
    link: &Link,
) -> Result<(), AllocError>
    ensures { OnOk result (list.new.items ≡ list.old.items
        ++ spec.unanswered sizes (spec.unanswered_command line.now station link.now)) }
{
    if let Some(asdu) = sent_command(line, station) {
        return push_asdu(list, Stage::Unanswered, sizes, asdu);
    }
    match held_command(link) {
        Some(asdu) => push_asdu(list, Stage::Unanswered, sizes, asdu),
        None => Ok(()),
    }
}

/// Appends the commands on the line to which no answer came, station by station.
fn push_line(list: &mut Vec<GivenUp>, sizes: Sizes, line: &Master) -> Result<(), AllocError>
    ensures { OnOk result (list.new.items ≡ list.old.items
        ++ spec.unanswered_from sizes line.now 0 line.now.stations) }
{
    let mut left = line.stations();
    let mut station = 0;
    while let [state, more @ ..] = left {
        push_unanswered(list, sizes, line, station, &state.link)?;
        left = more;
        station += 1;
    }
    Ok(())
}

/// Appends the commands that were never put on the line, the oldest first.
fn push_waiting(list: &mut Vec<GivenUp>, commands: &Commands) -> Result<(), AllocError>
    ensures { OnOk result (list.new.items
        ≡ list.old.items ++ spec.waiting_in commands.now.waiting) }
{
    let mut place = 0;
    while let Some((_station, asdu)) = commands.waiting_at(place) {
        push_asdu(list, Stage::Waiting, Sizes::TCP, asdu)?;
        place += 1;
    }
    Ok(())
}

/// Appends the selections.
fn push_selections(list: &mut Vec<GivenUp>, commands: &Commands) -> Result<(), AllocError>
    ensures { OnOk result (list.new.items
        ≡ list.old.items ++ spec.selections_in commands.now.selections) }
{
    let mut place = 0;
    while let Some(selected) = commands.selection_at(place) {
        list.push(GivenUp {
            stage: Stage::Selection,
            kind: selected.kind,
            ca: selected.ca,
            object: selected.address,
        })?;
        place += 1;
    }
    Ok(())
}

/// Appends the own answers that weren't sent, the oldest first.
fn push_answers(list: &mut Vec<GivenUp>, commands: &Commands) -> Result<(), AllocError>
    ensures { OnOk result (list.new.items
        ≡ list.old.items ++ spec.answers_in commands.now.answers) }
{
    let mut place = 0;
    while let Some(asdu) = commands.own_answer_at(place) {
        push_asdu(list, Stage::OwnAnswer, Sizes::TCP, asdu)?;
        place += 1;
    }
    Ok(())
}

/// What a start of this gateway gives up, whose line has these sizes.
pub(crate) fn given_up_by(
    alloc: Global,
    sizes: Sizes,
    gateway: &Gateway,
) -> Result<Vec<GivenUp>, AllocError>
    ensures { IfOk result (λ list. list.items ≡ spec.given_up_by sizes gateway.now) }
{
    let mut list = Vec::new(alloc);
    let commands = gateway.commands();
    push_line(&mut list, sizes, gateway.line())?;
    push_waiting(&mut list, commands)?;
    push_selections(&mut list, commands)?;
    push_answers(&mut list, commands)?;
    Ok(list)
}
