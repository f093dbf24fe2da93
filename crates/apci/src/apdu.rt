//! The values: APDUs, and what stands at the front of octets.

ghost use Rattle.std.specs.Prelude.{◌≡◌};

use arrayvec::ArrayVec;

/// What a U format says (IEC 60870-5-104, 5.2 and 5.3). Each has an activation and its
/// confirmation.
#[derive(Clone, Copy, Debug, PartialEq, Eq)]
pub enum Uf {
    /// STARTDT act: data transfer is to start.
    StartAct,
    /// STARTDT con.
    StartCon,
    /// STOPDT act: data transfer is to stop.
    StopAct,
    /// STOPDT con.
    StopCon,
    /// TESTFR act: the connection is tested.
    TestAct,
    /// TESTFR con.
    TestCon,
}

/// An application protocol data unit.
///
/// It has octets if its counters are below 32768 and its ASDU has 9 to 249 octets (`Fits`).
#[derive(Debug, PartialEq, Eq, Drop)]
pub enum Apdu {
    /// I format, numbered information transfer: send and receive sequence number, and an ASDU.
    I {
        /// N(S), the send sequence number.
        ns: u16,
        /// N(R), the receive sequence number.
        nr: u16,
        /// The octets of the ASDU.
        asdu: ArrayVec<u8, 249>,
    },
    /// S format, numbered supervisory function: it acknowledges.
    S {
        /// N(R), the receive sequence number.
        nr: u16,
    },
    /// U format, unnumbered control function.
    U(Uf),
}

/// An APDU whose ASDU stands where it was read.
#[derive(Clone, Copy, Debug, PartialEq, Eq)]
pub enum ApduRef<'a> {
    /// I format, with the octets of its ASDU.
    I { ns: u16, nr: u16, asdu: &'a [u8] },
    /// S format.
    S { nr: u16 },
    /// U format.
    U(Uf),
}

/// An APDU that has no ASDU, so that it has six octets.
///
/// It has octets if its counter is below 32768.
#[derive(Clone, Copy, Debug, PartialEq, Eq)]
pub enum Short {
    /// S format.
    S {
        /// N(R), the receive sequence number.
        nr: u16,
    },
    /// U format.
    U(Uf),
}

/// Why octets begin no APDU. The numbers are those that the program prints.
#[derive(Clone, Copy, Debug, PartialEq, Eq)]
pub enum Why {
    /// The first octet isn't the start octet `68`.
    Start = 1,
    /// The length isn't 4 to 253.
    Length = 2,
    /// No format has this control octet.
    Control = 3,
    /// An S or U format has a length other than 4.
    NotFour = 4,
    /// An I format has a length below 13, which leaves no room for an ASDU.
    Short = 5,
}

/// What stands at the front of octets.
#[derive(Debug, PartialEq, Eq, Drop)]
pub enum Front {
    /// An APDU, and how many octets it has.
    Whole(Apdu, usize),
    /// The beginning of an APDU, or no octet.
    More,
    /// No APDU and no beginning of one: a wrong place, counted from 0, and what is wrong there.
    Never(usize, Why),
}

/// What stands at the front of octets, with an ASDU where it stands.
#[derive(Clone, Copy, Debug, PartialEq, Eq)]
pub enum FrontRef<'a> {
    /// An APDU, and how many octets it has.
    Whole(ApduRef<'a>, usize),
    /// The beginning of an APDU, or no octet.
    More,
    /// No APDU and no beginning of one: a wrong place, counted from 0, and what is wrong there.
    Never(usize, Why),
}

impl Apdu {
    ghost use Rattle.apci.specs.Borrowed.{owned};

    /// The same APDU with its ASDU lent.
    pub fn as_ref(&self) -> ApduRef<'_>
        ensures { owned result ≡ self.now }
    {
        match self {
            Apdu::I { ns, nr, asdu } => ApduRef::I {
                ns: *ns,
                nr: *nr,
                asdu: asdu.as_slice(),
            },
            Apdu::S { nr } => ApduRef::S { nr: *nr },
            Apdu::U(function) => ApduRef::U(*function),
        }
    }
}

impl Short {
    ghost use Rattle.apci.specs.Short.{apdu_of};

    /// The same APDU as one that may have an ASDU.
    pub fn to_apdu(self) -> Apdu
        ensures { result ≡ apdu_of self }
    {
        match self {
            Short::S { nr } => Apdu::S { nr },
            Short::U(function) => Apdu::U(function),
        }
    }
}

impl ApduRef<'_> {
    ghost use Rattle.apci.specs.Borrowed.{owned, FitsMemory};

    /// The same APDU with a copy of its ASDU.
    pub fn to_apdu(self) -> Apdu
        requires { FitsMemory self }
        ensures { result ≡ owned self.entry }
    {
        match self {
            ApduRef::I { ns, nr, asdu } => {
                let asdu = ArrayVec::try_from(asdu).unwrap();
                Apdu::I { ns, nr, asdu }
            }
            ApduRef::S { nr } => Apdu::S { nr },
            ApduRef::U(function) => Apdu::U(function),
        }
    }
}
