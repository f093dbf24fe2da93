//! What the words of a call ask for.
ghost use Rattle.std.specs.Prelude.{◌≡◌, ◌^◌, ◌<◌, ◌||◌, IfSome, is_some, option_map, true};
ghost use Rattle.centre.specs.Words.{IsNamedBy, is_order, is_question, manner_name};
ghost use Rattle.centre.specs.Words.{name_of};
ghost use Rattle.std.specs.Str.{bytes_eq};

use crate::request::Value;
use std::num::saturating_f64_to_i16;

/// How a command is given.
#[derive(Clone, Copy, Debug, PartialEq, Eq)]
pub enum Manner {
    Select,
    Execute,
    /// Select, and execute once that is confirmed.
    Operate,
    Deactivate,
}

/// A command to one object.
#[derive(Clone, Copy, Debug, PartialEq, Eq)]
pub struct Order {
    pub manner: Manner,
    pub ca: u16,
    /// Below 2 ^ 24.
    pub ioa: u32,
    pub value: Value,
}

/// What the words of a call ask for. A common address that isn't named stands for those of the
/// settings, or for all.
#[derive(Clone, Copy, Debug, PartialEq, Eq)]
pub enum Wish {
    /// Interrogates, and tells what passes until the connection ends.
    Watch,
    Interrogate(Option<u16>),
    /// Interrogates counters.
    Counters(Option<u16>),
    /// Sets clocks to this machine's UTC time.
    Clock(Option<u16>),
    Command(Order),
}

/// What words ask for: what is to be done, of whom, and a command's value. `None` says that they
/// are wrong.
pub fn read_wish(what: Option<&str>, target: Option<&str>, value: Option<&str>) -> Option<Wish>
    ensures { IfSome result (λ wish. IsNamedBy (option_map (λ w. w.now) what.entry) wish) }
{
    let Some(what) = what else {
        return Some(Wish::Watch);
    };
    if let Some(manner) = manner_of(what) {
        let (ca, ioa) = target_of(target?)?;
        let value = value_of(value?)?;
        return Some(Wish::Command(Order {
            manner,
            ca,
            ioa,
            value,
        }));
    }
    if value.is_some() {
        return None;
    }
    let ca = match target {
        Some(ca) => Some(ca.parse::<u16>().ok()?),
        None => None,
    };
    wish_for(what, ca)
}

/// Whether a word says what is to be done, so that it names no file.
pub fn is_wish_word(word: &str) -> bool
    ensures { result ≡ (is_question word.now || is_order word.now) }
{
    wish_for(word, None).is_some() || manner_of(word).is_some()
}

fn wish_for(what: &str, ca: Option<u16>) -> Option<Wish>
    ensures known { is_some result ≡ is_question what.now }
    ensures named { IfSome result (λ wish. bytes_eq what.now (name_of wish) ≡ true) }
{
    match what {
        "interrogate" => Some(Wish::Interrogate(ca)),
        "counters" => Some(Wish::Counters(ca)),
        "clock" => Some(Wish::Clock(ca)),
        _ => None,
    }
}

fn manner_of(word: &str) -> Option<Manner>
    ensures known { is_some result ≡ is_order word.now }
    ensures named { IfSome result (λ manner. bytes_eq word.now (manner_name manner) ≡ true) }
{
    match word {
        "select" => Some(Manner::Select),
        "execute" => Some(Manner::Execute),
        "operate" => Some(Manner::Operate),
        "deactivate" => Some(Manner::Deactivate),
        _ => None,
    }
}

/// A common address and an object address, as `1/100`.
fn target_of(text: &str) -> Option<(u16, u32)>
    ensures { IfSome result (λ target. target.1 < 2 ^ 24) }
{
    let (ca, ioa) = text.split_once('/')?;
    let ca = ca.parse::<u16>().ok()?;
    let ioa = ioa.parse::<u32>().ok()?;
    if ioa >= 16_777_216 {
        return None;
    }
    Some((ca, ioa))
}

fn value_of(text: &str) -> Option<Value> {
    match text {
        "on" => return Some(Value::Single(true)),
        "off" => return Some(Value::Single(false)),
        "double:on" => return Some(Value::Double(true)),
        "double:off" => return Some(Value::Double(false)),
        "up" => return Some(Value::Step(true)),
        "down" => return Some(Value::Step(false)),
        _ => {}
    }
    let (kind, number) = text.split_once(':')?;
    match kind {
        "normalized" => Some(Value::Normalised(normalised(number)?)),
        "scaled" => Some(Value::Scaled(number.parse::<i16>().ok()?.cast_unsigned())),
        "float" => Some(Value::Float(short_float(number)?)),
        _ => None,
    }
}

/// So many 32768ths, rounded, in two's complement: -1 to 1 - 1/32768.
fn normalised(text: &str) -> Option<u16> {
    let value = text.parse::<f64>().ok()?;
    if !(value >= -1.0 && value <= 1.0) {
        return None;
    }
    Some(saturating_f64_to_i16((value * 32768.0).round()).cast_unsigned())
}

/// The bits of a short float.
fn short_float(text: &str) -> Option<u32> {
    let value = text.parse::<f32>().ok()?;
    if !value.is_finite() {
        return None;
    }
    Some(value.to_bits())
}
