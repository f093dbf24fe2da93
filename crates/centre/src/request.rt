//! What a control centre asks for: ASDUs of the control direction with one object.
ghost use Rattle.std.specs.Prelude.{◌≡◌, ◌≤◌, length};
ghost use Rattle.centre.specs.Requests.{command_type, content_of, element_of, request_octets};

use arrayvec::ArrayVec;

/// Activation (IEC 60870-5-101, 7.2.3).
pub const ACTIVATION: u8 = 6;

/// Deactivation.
pub const DEACTIVATION: u8 = 8;

/// The common address of each station (IEC 60870-5-101, 7.2.4).
pub const GLOBAL: u16 = 65535;

/// An ASDU of the control direction with one object.
#[derive(Drop)]
pub struct Request {
    /// The type identification.
    pub kind: u8,
    /// The cause of transmission.
    pub cause: u8,
    /// The common address.
    pub ca: u16,
    /// The address of the object, below 2 ^ 24.
    pub ioa: u32,
    /// The octets of the element, and of the time tag behind it.
    pub content: ArrayVec<u8, 12>,
}

/// The value of a command.
#[derive(Clone, Copy, Debug, PartialEq, Eq)]
pub enum Value {
    /// A single command: on, or off.
    Single(bool),
    /// A double command: on, or off.
    Double(bool),
    /// A regulating step command: up, or down.
    Step(bool),
    /// A set point, normalised: so many 32768ths, in two's complement.
    Normalised(u16),
    /// A set point, scaled, in two's complement.
    Scaled(u16),
    /// A set point, short float, by its bits.
    Float(u32),
}

impl Request {
    /// Its octets in the sizes of IEC 60870-5-104.
    pub fn octets(&self) -> ArrayVec<u8, 249>
        ensures spelled { result.items ≡ request_octets self.now }
        ensures long { 9 ≤ length result.items }
        ensures short { length result.items ≤ 249 }
    {
        let mut octets = ArrayVec::new();
        octets
            .try_extend_from_slice(&[
                self.kind,
                1,
                self.cause,
                0,
                (self.ca % 256) as u8,
                (self.ca / 256) as u8,
                (self.ioa % 256) as u8,
                (self.ioa / 256 % 256) as u8,
                (self.ioa / 65536 % 256) as u8,
            ])
            .unwrap();
        octets.try_extend_from_slice(&self.content).unwrap();
        octets
    }
}

impl Value {
    /// The type of its command, without a time tag.
    pub fn kind(self) -> u8
        ensures { result ≡ command_type self }
    {
        match self {
            Value::Single(_) => 45,
            Value::Double(_) => 46,
            Value::Step(_) => 47,
            Value::Normalised(_) => 48,
            Value::Scaled(_) => 49,
            Value::Float(_) => 50,
        }
    }

    /// The octets of its element, with the bit that says select.
    fn element(self, selects: bool) -> ArrayVec<u8, 12>
        ensures value { result.items ≡ element_of selects self }
        ensures short { length result.items ≤ 5 }
    {
        let select = if selects { 128 } else { 0 };
        let mut octets = ArrayVec::new();
        match self {
            Value::Single(on) => octets.try_push(if on { 1 } else { 0 } + select).unwrap(),
            Value::Double(on) => octets.try_push(if on { 2 } else { 1 } + select).unwrap(),
            Value::Step(up) => octets.try_push(if up { 2 } else { 1 } + select).unwrap(),
            Value::Normalised(bits) | Value::Scaled(bits) => {
                let number = [(bits % 256) as u8, (bits / 256) as u8, select];
                octets.try_extend_from_slice(&number).unwrap();
            }
            Value::Float(bits) => {
                let number = [
                    (bits % 256) as u8,
                    (bits / 256 % 256) as u8,
                    (bits / 65536 % 256) as u8,
                    (bits / 16777216) as u8,
                    select,
                ];
                octets.try_extend_from_slice(&number).unwrap();
            }
        }
        octets
    }

    /// The octets of its element, and of a time tag behind it.
    pub fn content(self, selects: bool, tag: Option<[u8; 7]>) -> ArrayVec<u8, 12>
        ensures { result.items ≡ content_of selects self tag }
    {
        let mut content = self.element(selects);
        if let Some(tag) = tag {
            content.try_extend_from_slice(&tag).unwrap();
        }
        content
    }
}
