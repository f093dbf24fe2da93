//! Parts of an octet.
ghost use Rattle.std.specs.Prelude.{◌≡◌, ◌<◌, ◌%◌};
ghost use Rattle.words.specs.Bits.{bit, flag};

/// One bit of an octet, 0 or 1. Bit 0 is the lowest.
pub(crate) fn bit(octet: u8, place: u32) -> u8
    requires { place < 8 }
    ensures { result ≡ bit place octet }
{
    (octet >> place) & 1
}

/// The cause in the cause octet: bits 5 to 0.
pub(crate) fn cause_in(octet: u8) -> u8
    ensures { result ≡ octet % 64 }
{
    octet & 0x3F
}

/// 1 if it is set.
pub(crate) fn flag(is_set: bool) -> u8
    ensures { result ≡ flag is_set }
{
    u8::from(is_set)
}
