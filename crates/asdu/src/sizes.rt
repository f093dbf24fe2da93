//! The sizes of the numbers in an ASDU, which a line's settings choose (IEC 60870-5-101, 7.1) and
//! IEC 60870-5-104, 7.1, fixes.
ghost use Rattle.std.specs.Prelude.{◌≡◌, ◌≤◌, ◌<◌, ◌^◌, length};
ghost use Rattle.byteorder.specs.Endian.{little_number};
ghost use Rattle.asdu.specs.Sizes.{cause_len, ca_len, ioa_len, header_len};

use byteorder::{ByteOrder, LittleEndian};

/// The octets of the cause of transmission.
// No other number can be a size (docs/DECISIONS.md, "Sizes are enums").
#[derive(Clone, Copy, Debug, PartialEq, Eq)]
pub enum CauseSize {
    One,
    /// The second octet is the originator address.
    Two,
}

/// The octets of the common address.
#[derive(Clone, Copy, Debug, PartialEq, Eq)]
pub enum CaSize {
    One,
    Two,
}

/// The octets of an information object's address.
#[derive(Clone, Copy, Debug, PartialEq, Eq)]
pub enum IoaSize {
    One,
    Two,
    Three,
}

/// The sizes that a line or a connection uses.
#[derive(Clone, Copy, Debug, PartialEq, Eq)]
pub struct Sizes {
    /// Of the cause of transmission.
    pub cause: CauseSize,
    /// Of the common address.
    pub ca: CaSize,
    /// Of the information object addresses.
    pub ioa: IoaSize,
}

impl CauseSize {
    /// How many octets it has, with the originator.
    pub(crate) fn octets(self) -> usize
        ensures value { result ≡ cause_len self }
        ensures low { 1 ≤ result }
        ensures high { result ≤ 2 }
    {
        match self {
            CauseSize::One => 1,
            CauseSize::Two => 2,
        }
    }
}

impl CaSize {
    /// How many octets it has.
    pub(crate) fn octets(self) -> usize
        ensures value { result ≡ ca_len self }
        ensures low { 1 ≤ result }
        ensures high { result ≤ 2 }
    {
        match self {
            CaSize::One => 1,
            CaSize::Two => 2,
        }
    }

    /// The number of addresses.
    pub fn limit(self) -> u32
        ensures { result ≡ 256 ^ ca_len self }
    {
        match self {
            CaSize::One => 0x100,
            CaSize::Two => 0x1_0000,
        }
    }

    /// The address at the front of the octets, its low octet first.
    pub(crate) fn read(self, octets: &[u8]) -> u16
        requires { ca_len self ≤ length octets.now }
        ensures value { result ≡ little_number (ca_len self) octets.now }
        ensures fits { result < 256 ^ ca_len self }
    {
        match self {
            CaSize::One => u16::from(octets[0]),
            CaSize::Two => LittleEndian::read_u16(octets),
        }
    }
}

impl IoaSize {
    /// How many octets it has.
    pub(crate) fn octets(self) -> usize
        ensures value { result ≡ ioa_len self }
        ensures low { 1 ≤ result }
        ensures high { result ≤ 3 }
    {
        match self {
            IoaSize::One => 1,
            IoaSize::Two => 2,
            IoaSize::Three => 3,
        }
    }

    /// The number of addresses.
    pub fn limit(self) -> u32
        ensures { result ≡ 256 ^ ioa_len self }
    {
        match self {
            IoaSize::One => 0x100,
            IoaSize::Two => 0x1_0000,
            IoaSize::Three => 0x100_0000,
        }
    }

    /// The address at the front of the octets, its low octet first.
    pub(crate) fn read(self, octets: &[u8]) -> u32
        requires { ioa_len self ≤ length octets.now }
        ensures value { result ≡ little_number (ioa_len self) octets.now }
        ensures fits { result < 256 ^ ioa_len self }
        ensures small { result < 2 ^ 24 }
    {
        match self {
            IoaSize::One => u32::from(octets[0]),
            IoaSize::Two => u32::from(LittleEndian::read_u16(octets)),
            IoaSize::Three => LittleEndian::read_u24(octets),
        }
    }
}

impl Sizes {
    /// The sizes of IEC 60870-5-104.
    pub const TCP: Sizes = Sizes {
        cause: CauseSize::Two,
        ca: CaSize::Two,
        ioa: IoaSize::Three,
    };

    /// The octets before the first object.
    pub(crate) fn header(self) -> usize
        ensures value { result ≡ header_len self }
        ensures low { 4 ≤ result }
        ensures high { result ≤ 6 }
    {
        2 + self.cause.octets() + self.ca.octets()
    }
}
