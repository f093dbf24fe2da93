//! Frames of the line, and what stands at the front of octets.

ghost use Rattle.std.specs.Prelude.{◌≡◌};

use arrayvec::ArrayVec;

/// How many octets a link address has (IEC 60870-5-101, 7.1): a setting of the line.
#[derive(Clone, Copy, Debug, PartialEq, Eq)]
pub enum LinkSize {
    /// Addresses from 0 to 255.
    One,
    /// Addresses from 0 to 65535, low octet first.
    Two,
}

/// A frame of the line (IEC 60870-5-1, 6.2.4.2; IEC 60870-5-2).
///
/// `c` is the control octet, `a` the link address. The values of a frame don't know the size of
/// addresses: `encode` asks that they fit it.
#[derive(Debug, PartialEq, Eq, Drop)]
pub enum Frame {
    /// The single character `E5`.
    Single,
    /// A frame of fixed length: `10 C A sum 16`.
    Fixed {
        c: u8,
        a: u16,
    },
    /// A frame of variable length: `68 L L 68 C A data sum 16`, in which L counts the octets from C
    /// to the last one of data. It has at most 253 octets of data, or 252 with two address octets.
    Data {
        c: u8,
        a: u16,
        body: ArrayVec<u8, 253>,
    },
}

/// Why octets begin no frame. The number is that of the refusal in printed results.
#[derive(Clone, Copy, Debug, PartialEq, Eq)]
pub enum Why {
    /// Place 0: neither `E5` nor `10` nor `68`.
    Start = 1,
    /// Place 2: the second length differs from the first.
    LengthsDiffer = 2,
    /// Place 3: the octet after the lengths isn't `68` again.
    SecondStart = 3,
    /// Place 1: the length has no room for the control octet and the address.
    LengthSmall = 4,
    /// The sum's place: not the sum, modulo 256, of the octets from the control octet on.
    Sum = 5,
    /// The last place: not `16`.
    End = 6,
}

/// What stands at the front of octets.
#[derive(Debug, PartialEq, Eq, Drop)]
pub enum Front {
    /// A frame, and how many octets it has. There may be more after it.
    Whole(Frame, usize),
    /// The beginning of a frame, or nothing.
    More,
    /// No frame and no beginning of one: the first wrong place, counted from 0, and what is wrong
    /// there.
    Never(usize, Why),
}

/// A frame whose data stand where they were read.
#[derive(Clone, Copy, Debug, PartialEq, Eq)]
pub enum FrameRef<'a> {
    /// The single character `E5`.
    Single,
    /// A frame of fixed length: control octet and address.
    Fixed { c: u8, a: u16 },
    /// A frame of variable length: control octet, address and data.
    Data { c: u8, a: u16, body: &'a [u8] },
}

/// What stands at the front of octets, with the data where they stand. As `Front`.
#[derive(Clone, Copy, Debug, PartialEq, Eq)]
pub enum FrontRef<'a> {
    /// A frame, and how many octets it has.
    Whole(FrameRef<'a>, usize),
    /// The beginning of a frame, or nothing.
    More,
    /// No frame and no beginning of one: the first wrong place, and what is wrong there.
    Never(usize, Why),
}

impl Frame {
    ghost use Rattle.std.specs.Prelude.{◌≡◌};
    ghost use Rattle.ft12.specs.Borrowed.{owned, FitsMemory};

    /// The same frame, with its data lent.
    pub fn lent(&self) -> FrameRef<'_>
        ensures frame { owned result ≡ self.now }
        ensures fits { FitsMemory result }
    {
        match self {
            Frame::Single => FrameRef::Single,
            Frame::Fixed { c, a } => FrameRef::Fixed { c: *c, a: *a },
            Frame::Data { c, a, body } => FrameRef::Data {
                c: *c,
                a: *a,
                body: body.as_slice(),
            },
        }
    }
}

impl FrameRef<'_> {
    ghost use Rattle.std.specs.Prelude.{◌≡◌};
    ghost use Rattle.ft12.specs.Borrowed.{owned, FitsMemory};

    /// The same frame with data of its own, which it copies. Asks for at most 253 octets of data.
    pub fn to_frame(self) -> Frame
        requires { FitsMemory self }
        ensures { result ≡ owned self.entry }
    {
        match self {
            FrameRef::Single => Frame::Single,
            FrameRef::Fixed { c, a } => Frame::Fixed { c, a },
            FrameRef::Data { c, a, body } => {
                let body = ArrayVec::try_from(body).unwrap();
                Frame::Data { c, a, body }
            }
        }
    }
}

impl LinkSize {
    ghost use Rattle.ft12.specs.Spelling.{address_len};

    /// How many octets an address has.
    pub(crate) const fn octets(self) -> usize
        ensures { result ≡ address_len self }
    {
        match self {
            LinkSize::One => 1,
            LinkSize::Two => 2,
        }
    }
}
