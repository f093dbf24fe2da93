//! What the octets of a command with one object say, and its octets on the line.
ghost use Rattle.std.specs.Prelude.{◌≡◌, ◌+◌, ◌≤◌, ◌<◌, ◌++◌, length, slice_index};
ghost use Rattle.byteorder.specs.Endian.{little_bytes};
ghost use Rattle.arrayvec.specs.ArrayVec.{array_vec_len};
ghost use Rattle.asdu.specs.Sizes.{ca_len, ioa_len};
ghost use Rattle.asdu.specs.Asdu.{originator_octets};
ghost use Rattle.command.specs.Command.{command_at, element_at, element_octets, command_octets};
ghost use Rattle.command.specs.Command.{element_len, command_len, tag_len, is_tagged as has_tag};
ghost use Rattle.command.specs.Command.{line_kind as kind_on_line, is_set_point as set_point};
ghost use Rattle.command.specs.Command.{qualifier as qualifier_of, is_select as selects};
ghost use Rattle.command.specs.Command.{is_execute as executes, is_deactivation as deactivates};
ghost use Rattle.command.specs.Command.{is_permitted as permitted};
ghost use Rattle.command.specs.Command.{is_process_command as process_command};
ghost use Rattle.command.specs.Command.{is_command_type as command_type};
ghost use Rattle.command.specs.Command.{without_select as execute_of};
ghost use Rattle.command.specs.Selection.{target_of};
ghost use Rattle.command.specs.Octets.{answer};

use crate::act::OwnAnswer;
use arrayvec::ArrayVec;
use asdu::{CaSize, CauseSize, IoaSize, Sizes, head};

/// The element of a command (IEC 60870-5-101, 7.2.6). S/E is bit 7 of its last octet.
#[derive(Clone, Copy)]
pub(crate) enum CommandElement {
    /// SCO, DCO, RCO or QOI.
    Octet(u8),
    /// A value, low octet first, and its QOS.
    SetPoint(u8, u8, u8),
}

/// What a selection is of: type on the line, common address, and address of the object.
#[derive(Clone, Copy)]
pub(crate) struct Target {
    pub kind: u8,
    pub ca: u16,
    pub address: u32,
}

/// A command with one object.
#[derive(Clone, Copy, Default)]
pub(crate) struct Command {
    /// The type on the line, which has no time tag.
    pub kind: u8,
    /// The type that it came with.
    pub received: u8,
    /// The cause octet: bit 7 test, bit 6 P/N, bits 5 to 0 the cause.
    pub cause: u8,
    pub originator: u8,
    pub ca: u16,
    pub address: u32,
    pub element: CommandElement,
}

impl Default for CommandElement {
    fn default() -> CommandElement {
        CommandElement::Octet(0)
    }
}

impl CommandElement {
    /// The octet with S/E.
    pub(crate) fn qualifier(self) -> u8
        ensures { result ≡ qualifier_of self }
    {
        match self {
            CommandElement::Octet(octet) => octet,
            CommandElement::SetPoint(_, _, qos) => qos,
        }
    }

    /// The element with S/E 0.
    pub(crate) fn without_select(self) -> CommandElement
        ensures { result ≡ execute_of self }
    {
        match self {
            CommandElement::Octet(octet) => CommandElement::Octet(octet & 0x7F),
            CommandElement::SetPoint(low, high, qos) => CommandElement::SetPoint(
                low,
                high,
                qos & 0x7F,
            ),
        }
    }
}

/// Whether it is a type with S/E: 45 to 49.
pub(crate) fn is_process_command(kind: u8) -> bool
    ensures { result ≡ process_command kind }
{
    45 <= kind && kind <= 49
}

/// How far a type with a time tag lies above the same one without: 58 to 62 are 45 to 49 (IEC
/// 60870-5-104, 8).
const TAGGED_ABOVE: u8 = 13;

/// Whether it is a command with a time tag: 58 to 62.
pub(crate) fn is_tagged(kind: u8) -> bool
    ensures { result ≡ has_tag kind }
{
    58 <= kind && kind <= 62
}

/// The type of a command on the line, without a time tag.
pub(crate) fn line_kind(kind: u8) -> u8
    ensures { result ≡ kind_on_line kind }
{
    if is_tagged(kind) {
        kind - TAGGED_ABOVE
    } else {
        kind
    }
}

/// Whether it is a type that the control centre may send: 45 to 49, 58 to 62, and 100.
pub(crate) fn is_command_type(kind: u8) -> bool
    ensures { result ≡ command_type kind }
{
    is_process_command(line_kind(kind)) || kind == 100
}

fn is_set_point(kind: u8) -> bool
    ensures { result ≡ set_point kind }
{
    kind == 48 || kind == 49
}

/// How many octets the element of a type on the line has.
fn element_octets_of(kind: u8) -> usize
    ensures value { result ≡ element_len kind }
    ensures high { result ≤ 3 }
{
    if is_set_point(kind) { 3 } else { 1 }
}

/// How many octets a command of this type has as it comes, with one object.
pub(crate) fn command_octets_of(kind: u8) -> usize
    ensures value { result ≡ command_len kind }
    ensures low { 10 ≤ result }
    ensures high { result ≤ 19 }
{
    let tag = if is_tagged(kind) { 7 } else { 0 };
    9 + element_octets_of(line_kind(kind)) + tag
}

/// The element at the front of the octets.
fn read_element(kind: u8, octets: &[u8]) -> CommandElement
    requires { element_len kind ≤ length octets.now }
    ensures { result ≡ element_at kind octets.now }
{
    if is_set_point(kind) {
        CommandElement::SetPoint(octets[0], octets[1], octets[2])
    } else {
        CommandElement::Octet(octets[0])
    }
}

/// The one command that the octets from the control centre hold.
pub(crate) fn read_command(octets: &[u8]) -> Command
    requires long { 9 ≤ length octets.now }
    requires whole { length octets.now ≡ command_len (slice_index octets.now 0) }
    ensures { result ≡ command_at octets.now }
{
    let Some(head) = head(Sizes::TCP, octets) else {
        unreachable!();
    };
    let kind = line_kind(head.kind);
    Command {
        kind,
        received: head.kind,
        cause: head.cause,
        originator: head.originator,
        ca: head.ca,
        address: head.ioa,
        element: read_element(kind, &octets[9..]),
    }
}

impl Command {
    pub(crate) fn target(self) -> Target
        ensures { result ≡ target_of self }
    {
        Target {
            kind: self.kind,
            ca: self.ca,
            address: self.address,
        }
    }

    pub(crate) fn is_deactivation(self) -> bool
        ensures { result ≡ deactivates self }
    {
        self.cause & 0x3F == 8
    }

    pub(crate) fn is_select(self) -> bool
        ensures { result ≡ selects self }
    {
        !self.is_deactivation() && is_process_command(self.kind) && 128 <= self.element.qualifier()
    }

    pub(crate) fn is_execute(self) -> bool
        ensures { result ≡ executes self }
    {
        !self.is_deactivation() && is_process_command(self.kind) && self.element.qualifier() < 128
    }

    /// Whether it may operate: states 1 and 2 of double and step commands, interrogations 20 to 36.
    pub(crate) fn is_permitted(self) -> bool
        ensures { result ≡ permitted self }
    {
        let qualifier = self.element.qualifier();
        if self.kind == 46 || self.kind == 47 {
            let state = qualifier & 3;
            state == 1 || state == 2
        } else if self.kind == 100 {
            20 <= qualifier && qualifier <= 36
        } else {
            true
        }
    }
}

/// The octets of the command in these sizes, to this common address.
pub(crate) fn write_command(sizes: Sizes, ca: u16, command: Command) -> ArrayVec<u8, 12>
    ensures items { result.items ≡ command_octets sizes ca command }
    ensures some { 1 ≤ array_vec_len result }
{
    let mut out = ArrayVec::new();
    append(&mut out, &[command.kind, 1, command.cause]);
    append_originator(&mut out, sizes.cause, command.originator);
    append_ca(&mut out, sizes.ca, ca);
    append_address(&mut out, sizes.ioa, command.address);
    append_element(&mut out, command.element);
    out
}

fn append_originator<const N: usize>(out: &mut ArrayVec<u8, N>, size: CauseSize, originator: u8)
    requires { array_vec_len out.old + 1 ≤ N }
    ensures items { out.new.items ≡ out.old.items ++ originator_octets size originator }
    ensures few { array_vec_len out.new ≤ array_vec_len out.old + 1 }
{
    if size == CauseSize::Two {
        append(out, &[originator]);
    }
}

fn append_ca<const N: usize>(out: &mut ArrayVec<u8, N>, size: CaSize, ca: u16)
    requires { array_vec_len out.old + 2 ≤ N }
    ensures items { out.new.items ≡ out.old.items ++ little_bytes (ca_len size) ca }
    ensures few { array_vec_len out.new ≤ array_vec_len out.old + 2 }
{
    let [low, high] = ca.to_le_bytes();
    match size {
        CaSize::One => append(out, &[low]),
        CaSize::Two => append(out, &[low, high]),
    }
}

fn append_address<const N: usize>(out: &mut ArrayVec<u8, N>, size: IoaSize, address: u32)
    requires { array_vec_len out.old + 3 ≤ N }
    ensures items { out.new.items ≡ out.old.items ++ little_bytes (ioa_len size) address }
    ensures few { array_vec_len out.new ≤ array_vec_len out.old + 3 }
{
    let [low, middle, high, _] = address.to_le_bytes();
    match size {
        IoaSize::One => append(out, &[low]),
        IoaSize::Two => append(out, &[low, middle]),
        IoaSize::Three => append(out, &[low, middle, high]),
    }
}

fn append_element<const N: usize>(out: &mut ArrayVec<u8, N>, element: CommandElement)
    requires { array_vec_len out.old + 3 ≤ N }
    ensures { out.new.items ≡ out.old.items ++ element_octets element }
{
    match element {
        CommandElement::Octet(octet) => append(out, &[octet]),
        CommandElement::SetPoint(low, high, qos) => append(out, &[low, high, qos]),
    }
}

/// Appends octets that fit.
pub(crate) fn append<const N: usize>(out: &mut ArrayVec<u8, N>, octets: &[u8])
    requires { array_vec_len out.old + length octets.now ≤ N }
    ensures items { out.new.items ≡ out.old.items ++ octets.now }
    ensures len { array_vec_len out.new ≡ array_vec_len out.old + length octets.now }
{
    let Ok(()) = out.try_extend_from_slice(octets) else {
        unreachable!();
    };
}

/// The ASDU as an own answer: its test bit kept, P/N set, the new cause.
pub(crate) fn refuse(cause: u8, octets: &[u8]) -> OwnAnswer
    requires known { cause < 64 }
    requires long { 3 ≤ length octets.now }
    requires fits { length octets.now ≤ 249 }
    ensures items { result.items ≡ answer cause octets.now }
    ensures len { array_vec_len result ≡ length octets.now }
{
    let mut out = ArrayVec::new();
    append(&mut out, &octets[..2]);
    append(&mut out, &[octets[2] / 128 * 128 + 64 + cause]);
    append(&mut out, &octets[3..]);
    out
}
