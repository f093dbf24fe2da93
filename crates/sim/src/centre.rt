//! The control centre's end of the connection.
ghost use Rattle.std.specs.Prelude.{◌≡◌, ◌+◌, ◌<◌, ◌≤◌, ◌^◌, length, IfSome};
ghost use Rattle.sim.specs.Centres.{shut, opened, first_control, is_data, after_sending};
ghost use Rattle.sim.specs.Centres.{after_receiving, start_apdu, acknowledging_apdu, data_apdu};

use apci::{Apdu, Uf, encode};
use arrayvec::ArrayVec;

/// What the control centre knows of its connection, and of its frames on it.
#[derive(Clone, Copy, PartialEq, Eq)]
pub struct Centre {
    pub is_open: bool,
    /// It has sent STARTDT act.
    pub is_started: bool,
    /// How many I frames it sent.
    pub sent: u64,
    /// How many I frames came.
    pub received: u64,
    /// How many of them it acknowledged.
    pub acknowledged: u64,
}

/// How many numbers N(S) and N(R) have.
const NUMBERS: u64 = 32768;

/// The first of the four control octets of an APDU, or 0.
fn first_control(octets: &[u8]) -> u8
    ensures { result ≡ first_control octets.now }
{
    if octets.len() > 2 { octets[2] } else { 0 }
}

/// Whether an APDU is in I format.
pub(crate) fn is_data(octets: &[u8]) -> bool
    ensures { result ≡ is_data octets.now }
{
    first_control(octets) % 2 == 0
}

impl Centre {
    /// Without a connection.
    pub(crate) const fn shut() -> Centre
        ensures { result ≡ shut }
    {
        Centre {
            is_open: false,
            is_started: false,
            sent: 0,
            received: 0,
            acknowledged: 0,
        }
    }

    /// With a new connection.
    pub(crate) const fn opened() -> Centre
        ensures { result ≡ opened }
    {
        Centre {
            is_open: true,
            is_started: false,
            sent: 0,
            received: 0,
            acknowledged: 0,
        }
    }

    /// After an APDU has gone to the gateway.
    pub(crate) fn after_sending(self, octets: &[u8]) -> Centre
        requires { self.sent + 1 < 2 ^ 64 }
        ensures { result ≡ after_sending octets.now self }
    {
        if first_control(octets) == 0x07 {
            Centre {
                is_started: true,
                ..self
            }
        } else if is_data(octets) {
            Centre {
                sent: self.sent + 1,
                // Its N(R) is for all that came.
                acknowledged: self.received,
                ..self
            }
        } else {
            Centre {
                acknowledged: self.received,
                ..self
            }
        }
    }

    /// After an APDU has come from the gateway, unless more frames came than can be counted.
    pub(crate) fn after_receiving(self, octets: &[u8]) -> Option<Centre>
        ensures { IfSome result (λ centre. centre ≡ after_receiving octets.now self) }
    {
        if is_data(octets) {
            Some(Centre {
                // A number that stopped growing would name another frame (docs/DECISIONS.md, "The
                // 2^64th request").
                received: self.received.checked_add(1)?,
                ..self
            })
        } else {
            Some(self)
        }
    }

    /// An S frame that acknowledges all that came.
    pub(crate) fn acknowledgement(self) -> ArrayVec<u8, 255>
        ensures { result.items ≡ acknowledging_apdu self }
    {
        encode(&Apdu::S {
            nr: (self.received % NUMBERS) as u16,
        })
    }

    /// An I frame with the next N(S) that acknowledges all that came.
    pub(crate) fn data(self, asdu: &[u8]) -> ArrayVec<u8, 255>
        requires least { 9 ≤ length asdu.now }
        requires most { length asdu.now ≤ 249 }
        ensures { result.items ≡ data_apdu self asdu.now }
    {
        encode(&Apdu::I {
            ns: (self.sent % NUMBERS) as u16,
            nr: (self.received % NUMBERS) as u16,
            asdu: ArrayVec::try_from(asdu).unwrap(),
        })
    }
}

/// STARTDT act.
pub(crate) fn start() -> ArrayVec<u8, 255>
    ensures { result.items ≡ start_apdu }
{
    encode(&Apdu::U(Uf::StartAct))
}
