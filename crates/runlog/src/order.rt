//! What a line says of a command.
ghost use Rattle.std.specs.Prelude.{◌≡◌, ◌+◌, ◌≤◌, ◌<◌, length};
ghost use Rattle.asdu.specs.Sizes.{header_len, ioa_len};
ghost use Rattle.runlog.specs.Orders as spec;

use asdu::{CaSize, CauseSize, IoaSize, Sizes, head};

/// The common address of each station, to which an interrogation may go (IEC 60870-5-101, 7.2.4).
const GLOBAL: u16 = 65535;

/// What a command wants.
#[derive(Clone, Copy, PartialEq, Eq)]
pub enum OrderKind {
    /// The activation of types 45 to 49 with S/E 1.
    Select,
    /// That with S/E 0.
    Execute,
    /// An interrogation.
    Activate,
    /// The deactivation of one of these (cause 8, and 9 in its confirmation).
    Deactivate,
    /// That its type doesn't say.
    Other,
}

/// What stands in a place of a list that isn't used.
impl Default for OrderKind {
    fn default() -> OrderKind {
        OrderKind::Other
    }
}

/// The value of a command.
#[derive(Clone, Copy, PartialEq, Eq)]
pub enum Value {
    Off,
    On,
    Lower,
    Higher,
    /// That of a set point, a qualifier of interrogation, or a state that isn't permitted.
    Number(u16),
    /// A set point that is so far below 0.
    Below(u16),
    /// That its type doesn't say.
    Unknown,
}

/// What stands in a place of a list that isn't used.
impl Default for Value {
    fn default() -> Value {
        Value::Unknown
    }
}

/// What a line says of a command.
#[derive(Clone, Copy, PartialEq, Eq, Default)]
pub struct Order {
    /// Its type octet.
    pub kind: u8,
    pub act: OrderKind,
    /// Its common address.
    pub ca: u16,
    /// The address of its object.
    pub object: u32,
    pub value: Value,
}

/// The octet at this place, or 0 if there is none.
pub(crate) fn octet(octets: &[u8], place: usize) -> u8
    ensures { result ≡ spec.octet octets.now place }
{
    match octets.get(place) {
        Some(octet) => *octet,
        None => 0,
    }
}

/// How many octets stand before the element of the first object.
pub(crate) fn header_octets(sizes: Sizes) -> usize
    ensures value { result ≡ header_len sizes + ioa_len sizes.ioa }
    ensures few { result ≤ 9 }
{
    let cause = match sizes.cause {
        CauseSize::One => 1,
        CauseSize::Two => 2,
    };
    let ca = match sizes.ca {
        CaSize::One => 1,
        CaSize::Two => 2,
    };
    let ioa = match sizes.ioa {
        IoaSize::One => 1,
        IoaSize::Two => 2,
        IoaSize::Three => 3,
    };
    2 + cause + ca + ioa
}

/// The type without a time tag.
fn plain(kind: u8) -> u8
    ensures { result ≡ spec.plain kind }
{
    if 58 <= kind && kind <= 62 {
        kind - 13
    } else {
        kind
    }
}

fn is_set_point(kind: u8) -> bool
    ensures { result ≡ spec.is_set_point kind }
{
    kind == 48 || kind == 49
}

fn is_select(kind: u8, element: &[u8]) -> bool
    ensures { result ≡ spec.is_select kind element.now }
{
    if is_set_point(kind) {
        128 <= octet(element, 2)
    } else {
        128 <= octet(element, 0)
    }
}

fn act_of(kind: u8, cause: u8, element: &[u8]) -> OrderKind
    ensures { result ≡ spec.act_of kind cause element.now }
{
    if cause % 64 == 8 || cause % 64 == 9 {
        OrderKind::Deactivate
    } else if 45 <= kind && kind <= 49 {
        if is_select(kind, element) {
            OrderKind::Select
        } else {
            OrderKind::Execute
        }
    } else if kind == 100 {
        OrderKind::Activate
    } else {
        OrderKind::Other
    }
}

fn number_of(number: u16) -> Value
    ensures { result ≡ spec.number_of number }
{
    if number < 32768 {
        Value::Number(number)
    } else {
        Value::Below((65536 - u32::from(number)) as u16)
    }
}

fn double_of(state: u8) -> Value
    ensures { result ≡ spec.double_of state }
{
    match state {
        1 => Value::Off,
        2 => Value::On,
        _ => Value::Number(u16::from(state)),
    }
}

fn step_of(state: u8) -> Value
    ensures { result ≡ spec.step_of state }
{
    match state {
        1 => Value::Lower,
        2 => Value::Higher,
        _ => Value::Number(u16::from(state)),
    }
}

fn value_of(kind: u8, element: &[u8]) -> Value
    ensures { result ≡ spec.value_of kind element.now }
{
    let first = octet(element, 0);
    if kind == 45 {
        if first % 2 == 0 {
            Value::Off
        } else {
            Value::On
        }
    } else if kind == 46 {
        double_of(first % 4)
    } else if kind == 47 {
        step_of(first % 4)
    } else if is_set_point(kind) {
        number_of(u16::from(first) + 256 * u16::from(octet(element, 1)))
    } else if kind == 100 {
        Value::Number(u16::from(first))
    } else {
        Value::Unknown
    }
}

impl Order {
    /// That of an ASDU in these sizes, or none if it is too short for its addresses.
    pub fn read(sizes: Sizes, octets: &[u8]) -> Option<Order>
        ensures { result ≡ spec.order_of sizes octets.now }
    {
        let head = head(sizes, octets)?;
        let element = &octets[header_octets(sizes)..];
        let kind = plain(head.kind);
        Some(Order {
            kind: head.kind,
            act: act_of(kind, head.cause, element),
            ca: head.ca,
            object: head.ioa,
            value: value_of(kind, element),
        })
    }

    /// Whether this command, as it came, is the one that goes out to the line so: in the sizes of
    /// the line, without a time tag, and with the station's own common address.
    pub(crate) fn goes_out_as(&self, sent: Order) -> bool
        ensures { result ≡ spec.goes_out_as sent self.now }
    {
        let is_global = sent.kind == 100 && self.ca == GLOBAL;
        plain(self.kind) == sent.kind
            && (self.object == sent.object && (is_global || self.ca == sent.ca))
    }
}
