//! The words for commands.
ghost use Rattle.std.specs.Prelude.{◌≡◌};
ghost use Rattle.std.specs.Fmt.{WritesOnOk};
ghost use Rattle.std.specs.Option.{option_copied};
ghost use Rattle.runlog.specs.OrderWords as spec;

use crate::fate::{CommandFate, Reason};
use crate::order::{Order, OrderKind, Value};
use command::Refusal;
use elements::{kind, type_name};
use std::fmt;

/// The standard's name of the type that an octet names, if this gateway carries the type.
fn name_of(octet: u8) -> Option<&'static str>
    ensures { option_copied result ≡ spec.name_of octet }
{
    kind(octet).and(type_name(octet))
}

/// Writes the name of the type that an octet names, or its number.
pub(crate) fn write_type<W: fmt::Write>(octet: u8, f: &mut fmt::Formatter<W>) -> fmt::Result
    ensures { WritesOnOk W.write_str_gives f.old result (spec.type_words octet) f.new }
{
    match name_of(octet) {
        Some(name) => f.write_str(name),
        None => write!(f, "type {octet}"),
    }
}

/// Writes the name of the type that an octet names, if that is known, behind a blank.
pub(crate) fn write_type_name<W: fmt::Write>(octet: u8, f: &mut fmt::Formatter<W>) -> fmt::Result
    ensures { WritesOnOk W.write_str_gives f.old result (spec.type_name octet) f.new }
{
    match name_of(octet) {
        Some(name) => write!(f, " {name}"),
        None => Ok(()),
    }
}

fn act_words(act: OrderKind) -> &'static str
    ensures { result.now ≡ spec.act_words act }
{
    match act {
        OrderKind::Select => " select",
        OrderKind::Execute => " execute",
        OrderKind::Activate => " activate",
        OrderKind::Deactivate => " deactivate",
        OrderKind::Other => "",
    }
}

fn write_value<W: fmt::Write>(value: Value, f: &mut fmt::Formatter<W>) -> fmt::Result
    ensures { WritesOnOk W.write_str_gives f.old result (spec.value_words value) f.new }
{
    match value {
        Value::Off => f.write_str(" off"),
        Value::On => f.write_str(" on"),
        Value::Lower => f.write_str(" lower"),
        Value::Higher => f.write_str(" higher"),
        Value::Number(number) => write!(f, " {number}"),
        Value::Below(number) => write!(f, " -{number}"),
        Value::Unknown => Ok(()),
    }
}

/// Writes what a line says of a command.
pub(crate) fn write_order<W: fmt::Write>(order: &Order, f: &mut fmt::Formatter<W>) -> fmt::Result
    ensures { WritesOnOk W.write_str_gives f.old result (spec.order_words order.now) f.new }
{
    let Order {
        kind,
        act,
        ca,
        object,
        value,
    } = *order;
    f.write_str("command ")?;
    write_type(kind, f)?;
    f.write_str(act_words(act))?;
    write!(f, " {ca}/{object}")?;
    write_value(value, f)
}

/// Writes by which rule a command is refused.
fn write_rule<W: fmt::Write>(rule: Refusal, f: &mut fmt::Formatter<W>) -> fmt::Result
    ensures { WritesOnOk W.write_str_gives f.old result (spec.rule_words rule) f.new }
{
    match rule {
        Refusal::TypeUnknown => f.write_str("type not known"),
        Refusal::CauseUnknown => f.write_str("cause not known"),
        Refusal::AddressUnknown => f.write_str("common address not known"),
        Refusal::ObjectUnknown => f.write_str("object not known"),
        Refusal::NotOneObject => f.write_str("not one object"),
        Refusal::NotPermitted => f.write_str("qualifier not permitted"),
        Refusal::TagOld(ms) => {
            let seconds = ms / 1000;
            write!(f, "time tag {seconds} s old")
        }
        Refusal::TagAhead(ms) => {
            let seconds = ms / 1000;
            write!(f, "time tag {seconds} s in the future")
        }
        Refusal::TagInvalid => f.write_str("time tag invalid"),
        Refusal::WallUnknown => f.write_str("time of day not known yet"),
        Refusal::NotSelected => f.write_str("not selected"),
        Refusal::NoPlace => f.write_str("no place"),
    }
}

/// Writes why a command doesn't go on to its station.
pub(crate) fn write_reason<W: fmt::Write>(reason: Reason, f: &mut fmt::Formatter<W>) -> fmt::Result
    ensures { WritesOnOk W.write_str_gives f.old result (spec.reason_words reason) f.new }
{
    match reason {
        Reason::Rule(rule) => write_rule(rule, f),
        Reason::Closed => f.write_str("its connection was closed"),
    }
}

/// Writes what became of a command at the station with this link address.
pub(crate) fn write_fate<W: fmt::Write>(
    fate: CommandFate,
    station: u16,
    f: &mut fmt::Formatter<W>,
) -> fmt::Result
    ensures { WritesOnOk W.write_str_gives f.old result (spec.fate_words fate station) f.new }
{
    match fate {
        CommandFate::Sent => write!(f, " sent to station {station}"),
        CommandFate::Confirmed => write!(f, " confirmed by station {station}"),
        CommandFate::Denied => write!(f, " refused by station {station}"),
        CommandFate::Terminated => write!(f, " terminated by station {station}"),
        CommandFate::Busy => write!(f, " not taken: station {station} is busy"),
        CommandFate::GivenUp => write!(f, " given up: no reply from station {station}"),
    }
}
