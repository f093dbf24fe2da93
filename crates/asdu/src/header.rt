//! The header of an ASDU.

/// The header (the data unit identifier of IEC 60870-5-101, 7.1) and the first object address of an
/// ASDU, as its octets have them. Nothing is judged yet: the octets after them may be no ASDU.
#[derive(Clone, Copy, Debug, PartialEq, Eq)]
pub struct Head {
    /// The type identification.
    pub kind: u8,
    /// The variable structure qualifier: bit 7 SQ, bits 6 to 0 the number of objects.
    pub vsq: u8,
    /// The cause of transmission: bit 7 test, bit 6 P/N (negative), bits 5 to 0 the cause.
    pub cause: u8,
    /// The originator address, 0 if the cause has one octet.
    pub originator: u8,
    /// The common address.
    pub ca: u16,
    /// The address of the first information object.
    pub ioa: u32,
}
