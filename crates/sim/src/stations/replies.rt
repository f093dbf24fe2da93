//! What a station's application replies to a command (IEC 60870-5-101, 7.2.3 and 7.3.2).
ghost use Rattle.std.specs.Prelude.{◌≡◌, ◌≤◌, ◌<◌, IfSome, length, slice_set};
ghost use Rattle.asdu.specs.Reading.{value_of};
ghost use Rattle.link.specs.Requests.{FitsFrame};
ghost use Rattle.sim.specs.Directives.{longest_report};
ghost use Rattle.sim.specs.Replies.{IsCauseOfReply, IsReply, cause_by, confirmation_of};
ghost use Rattle.sim.specs.Replies.{is_command, is_interrogation, is_process_command};
ghost use Rattle.sim.specs.Replies.{is_select};
ghost use Rattle.sim.specs.Replies.{last_octet, qualifier, termination_of};

use arrayvec::ArrayVec;
use asdu::{Asdu, Sizes, is_plain_command, is_tagged_command, read};
use elements::TypeId;
use ft12::LinkSize;

/// Whether it is a single, double or step command or a set point.
fn is_process_command(kind: TypeId) -> bool
    ensures { result ≡ is_process_command kind }
{
    is_plain_command(kind) || is_tagged_command(kind)
}

fn is_interrogation(kind: TypeId) -> bool
    ensures { result ≡ is_interrogation kind }
{
    matches!(kind, TypeId::CIcNa1)
}

/// Whether a station replies to it.
fn is_command(kind: TypeId) -> bool
    ensures { result ≡ is_command kind }
{
    // An interrogation is confirmed and terminated, and the script says what is reported
    // (docs/DECISIONS.md, "An interrogation brings no data").
    is_process_command(kind) || is_interrogation(kind)
}

fn last_octet(octets: &[u8]) -> u8
    ensures { result ≡ last_octet octets.now }
{
    if octets.is_empty() {
        0
    } else {
        octets[octets.len() - 1]
    }
}

/// SCO, DCO, RCO or QOS: the last octet of its element.
fn qualifier(asdu: &Asdu) -> u8
    ensures { result ≡ qualifier (value_of asdu.now).infos }
{
    let mut objects = asdu.objects();
    match objects.next() {
        Some(object) => last_octet(object.element),
        None => 0,
    }
}

/// Whether it selects: S/E is 1.
fn is_select(asdu: &Asdu) -> bool
    ensures { result ≡ is_select (value_of asdu.now) }
{
    is_process_command(asdu.kind) && qualifier(asdu) >= 128
}

/// The octet of this cause, with P/N as it says, and with the test bit of the ASDU.
fn cause_by(asdu: &Asdu, cause: u8) -> u8
    requires { cause < 128 }
    ensures { result ≡ cause_by cause (value_of asdu.now) }
{
    if asdu.cause() >= 128 {
        128 + cause
    } else {
        cause
    }
}

/// The cause of the confirmation.
fn confirmation(refuses: bool, asdu: &Asdu) -> Option<u8>
    ensures { result ≡ confirmation_of refuses (value_of asdu.now) }
{
    let negative = if refuses { 64 } else { 0 };
    match asdu.cause() % 64 {
        6 => Some(cause_by(asdu, negative + 7)),
        8 => Some(cause_by(asdu, negative + 9)),
        _ => None,
    }
}

/// The cause of the termination.
fn termination(refuses: bool, asdu: &Asdu) -> Option<u8>
    ensures { result ≡ termination_of refuses (value_of asdu.now) }
{
    if refuses || asdu.cause() % 64 != 6 || is_select(asdu) {
        None
    } else {
        Some(cause_by(asdu, 10))
    }
}

/// The cause of the reply to a command, in these sizes: of the confirmation, or once that was given
/// of the termination. `None` says that there is no such reply.
fn cause_of_reply(sizes: Sizes, refuses: bool, is_confirmed: bool, command: &[u8]) -> Option<u8>
    ensures { IsCauseOfReply sizes refuses is_confirmed command.now result }
{
    let Ok(asdu) = read(sizes, command) else {
        return None;
    };
    if !is_command(asdu.kind) {
        return None;
    }
    if is_confirmed {
        termination(refuses, &asdu)
    } else {
        confirmation(refuses, &asdu)
    }
}

/// The most octets of a report: what a frame has room for.
fn longest_report(size: LinkSize) -> usize
    ensures { result ≡ longest_report size }
{
    match size {
        LinkSize::One => 253,
        LinkSize::Two => 252,
    }
}

/// The same octets with this cause.
fn with_cause(command: &[u8], cause: u8) -> link::UserData
    requires some { 3 ≤ length command.now }
    requires most { length command.now ≤ 253 }
    ensures { result ≡ slice_set command.now 2 cause }
{
    let mut octets: ArrayVec<u8, 253> = ArrayVec::try_from(command).unwrap();
    octets[2] = cause;
    link::UserData::new(octets.as_slice())
}

/// The reply to a command that came over this line: the confirmation, or once that was given the
/// termination. `None` says that there is no such reply.
pub(crate) fn reply_to(
    size: LinkSize,
    sizes: Sizes,
    refuses: bool,
    is_confirmed: bool,
    command: &[u8],
) -> Option<link::UserData>
    ensures reply { IsReply size sizes refuses is_confirmed command.now result }
    ensures fits { IfSome result (FitsFrame size) }
{
    let cause = cause_of_reply(sizes, refuses, is_confirmed, command);
    if command.len() < 3 || command.len() > longest_report(size) {
        return None;
    }
    Some(with_cause(command, cause?))
}
