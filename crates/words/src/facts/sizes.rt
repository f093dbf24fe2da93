//! The sizes of a line's addresses, as four digits.
ghost use Rattle.std.specs.Prelude.{◌≡◌};
ghost use Rattle.words.specs.Sizes.{link_size_of, cause_size_of, ca_size_of, ioa_size_of, sizes_of};

use asdu::{CaSize, CauseSize, IoaSize, Sizes};
use ft12::LinkSize;

/// How many octets the addresses of a line have, and the cause of its ASDUs.
#[derive(Clone, Copy, PartialEq, Eq)]
pub struct LineSizes {
    /// The link address.
    pub link: LinkSize,
    /// The cause, the common address and the object address.
    pub asdu: Sizes,
}

/// The sizes that four digits name: of the link address (1 or 2 octets), the cause (1 or 2), the
/// common address (1 or 2) and the object address (1 to 3), as `1112`. `None` if the text is
/// anything else.
pub fn read_sizes(text: &str) -> Option<LineSizes>
    ensures { result ≡ sizes_of text.now }
{
    match text.as_bytes() {
        [link, cause, ca, ioa] => Some(LineSizes {
            link: link_size(*link)?,
            asdu: Sizes {
                cause: cause_size(*cause)?,
                ca: ca_size(*ca)?,
                ioa: ioa_size(*ioa)?,
            },
        }),
        _ => None,
    }
}

fn link_size(digit: u8) -> Option<LinkSize>
    ensures { result ≡ link_size_of digit }
{
    match digit {
        b'1' => Some(LinkSize::One),
        b'2' => Some(LinkSize::Two),
        _ => None,
    }
}

fn cause_size(digit: u8) -> Option<CauseSize>
    ensures { result ≡ cause_size_of digit }
{
    match digit {
        b'1' => Some(CauseSize::One),
        b'2' => Some(CauseSize::Two),
        _ => None,
    }
}

fn ca_size(digit: u8) -> Option<CaSize>
    ensures { result ≡ ca_size_of digit }
{
    match digit {
        b'1' => Some(CaSize::One),
        b'2' => Some(CaSize::Two),
        _ => None,
    }
}

fn ioa_size(digit: u8) -> Option<IoaSize>
    ensures { result ≡ ioa_size_of digit }
{
    match digit {
        b'1' => Some(IoaSize::One),
        b'2' => Some(IoaSize::Two),
        b'3' => Some(IoaSize::Three),
        _ => None,
    }
}
