//! APDUs to octets.

ghost use Rattle.std.specs.Prelude.{◌≡◌, ◌^◌, ◌<◌, ◌≤◌, length, take};
ghost use Rattle.apci.specs.Spelling.{counter, spelling, Fits};
ghost use Rattle.apci.specs.Short.{apdu_of};

use crate::apdu::{Apdu, Short};
use arrayvec::ArrayVec;
use byteorder::{ByteOrder, LittleEndian};

/// The octet that begins each APDU.
pub(crate) const START: u8 = 0x68;

/// The most octets that an APDU has.
const LONGEST: usize = 255;

/// N(S) or N(R) in two octets.
pub(crate) fn counter_octets(n: u16) -> [u8; 2]
    requires { n < 2 ^ 15 }
    ensures { result ≡ counter n }
{
    // Bit 0 of the low octet belongs to the format, so the number begins at bit 1 (IEC
    // 60870-5-104, 5).
    let mut octets = [0; 2];
    LittleEndian::write_u16(&mut octets, n * 2);
    octets
}

impl Short {
    /// Its six octets. It asks for a counter below 32768.
    pub fn to_octets(self) -> [u8; 6]
        requires { Fits (apdu_of self) }
        ensures { result ≡ spelling (apdu_of self) }
    {
        match self {
            Short::S { nr } => {
                let nr = counter_octets(nr);
                [START, 4, 0x01, 0x00, nr[0], nr[1]]
            }
            Short::U(function) => [START, 4, function.octet(), 0x00, 0x00, 0x00],
        }
    }
}

/// Writes an APDU in I format at the front of the octets, and says how many it has: 15 to 255. It
/// asks for counters below 32768 and an ASDU of 9 to 249 octets.
pub fn write_information(octets: &mut [u8; LONGEST], ns: u16, nr: u16, asdu: &[u8]) -> usize
    requires counters { (ns < 2 ^ 15) × (nr < 2 ^ 15) }
    requires long { 9 ≤ length asdu.now }
    requires short { length asdu.now ≤ 249 }
    ensures spelled { take result octets.new
        ≡ spelling (Apdu.I ns nr (record { items = asdu.now })) }
    ensures fits { Fits (Apdu.I ns nr (record { items = asdu.now })) }
    ensures within { result ≤ 255 }
{
    let sent = counter_octets(ns);
    let received = counter_octets(nr);
    let control = [
        START,
        (4 + asdu.len()) as u8,
        sent[0],
        sent[1],
        received[0],
        received[1],
    ];
    let len = 6 + asdu.len();
    octets[..6].copy_from_slice(&control);
    octets[6..len].copy_from_slice(asdu);
    len
}

/// The octets of an APDU, at most 255. It asks for counters below 32768 and an ASDU of 9 to 249
/// octets.
pub fn encode(apdu: &Apdu) -> ArrayVec<u8, LONGEST>
    requires { Fits apdu.now }
    ensures { result.items ≡ spelling apdu.now }
{
    match apdu {
        Apdu::I { ns, nr, asdu } => {
            let mut octets = [0; LONGEST];
            let len = write_information(&mut octets, *ns, *nr, asdu);
            ArrayVec::try_from(&octets[..len]).unwrap()
        }
        Apdu::S { nr } => copied(&Short::S { nr: *nr }.to_octets()),
        Apdu::U(function) => copied(&Short::U(*function).to_octets()),
    }
}

/// A copy of the six octets of a short APDU.
fn copied(octets: &[u8; 6]) -> ArrayVec<u8, LONGEST>
    ensures { result.items ≡ octets.now }
{
    let mut out = ArrayVec::new();
    out.try_extend_from_slice(octets).unwrap();
    out
}
