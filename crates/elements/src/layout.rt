//! The layouts that information elements share. Numbers are low octet first (IEC 60870-5-4, 5).
ghost use Rattle.std.specs.Prelude.{◌≡◌, length};
ghost use Rattle.elements.specs.Layouts.{octet, IsOctet, short, IsShort, word, IsWord, long};
ghost use Rattle.elements.specs.Layouts.{IsLong};

use byteorder::{ByteOrder, LittleEndian};

/// Writes one octet.
pub(crate) fn put_octet(out: &mut [u8], value: u8)
    requires { length out.old ≡ 1 }
    ensures octets { out.new ≡ octet value }
    ensures known { IsOctet value }
{
    out[0] = value;
}

/// Writes 16 bits and a qualifier.
pub(crate) fn put_short(out: &mut [u8], value: i16, qualifier: u8)
    requires { length out.old ≡ 3 }
    ensures octets { out.new ≡ short value qualifier }
    ensures known { IsShort value qualifier }
{
    LittleEndian::write_i16(out, value);
    out[2] = qualifier;
}

/// Writes 32 bits and a qualifier.
pub(crate) fn put_word(out: &mut [u8], bits: u32, qualifier: u8)
    requires { length out.old ≡ 5 }
    ensures octets { out.new ≡ word bits qualifier }
    ensures known { IsWord bits qualifier }
{
    LittleEndian::write_u32(out, bits);
    out[4] = qualifier;
}

/// Writes 32 bits in two's complement and a qualifier.
pub(crate) fn put_long(out: &mut [u8], value: i32, qualifier: u8)
    requires { length out.old ≡ 5 }
    ensures octets { out.new ≡ long value qualifier }
    ensures known { IsLong value qualifier }
{
    LittleEndian::write_i32(out, value);
    out[4] = qualifier;
}
