//! The sum CRC-32 of octets, which shows that a text has rotted.
ghost use Rattle.std.specs.Prelude.{◌≡◌, bit_xor};
ghost use Rattle.statetext.specs.Sum.{divided, remainder_after};

/// The sum of the octets that were added.
#[derive(Clone, Copy)]
pub struct Sum {
    remainder: u32,
}

impl Sum {
    /// The sum of no octets.
    pub fn new() -> Sum
        ensures { result.remainder ≡ 0xffffffff }
    {
        Sum {
            remainder: 0xffff_ffff,
        }
    }

    /// Adds octets behind those that were added.
    pub fn add(&mut self, octets: &[u8])
        ensures { self.new.remainder ≡ remainder_after self.old.remainder octets.now }
    {
        let mut remainder = self.remainder;
        for octet in octets {
            remainder = divided(divided(remainder ^ u32::from(*octet)));
        }
        self.remainder = remainder;
    }

    pub fn value(&self) -> u32
        ensures { result ≡ bit_xor self.now.remainder 0xffffffff }
    {
        self.remainder ^ 0xffff_ffff
    }
}

/// The remainders of the division of four bits with 28 bits of 0 behind them.
const REMAINDERS: [u32; 16] = [
    0x0000_0000,
    0x1db7_1064,
    0x3b6e_20c8,
    0x26d9_30ac,
    0x76dc_4190,
    0x6b6b_51f4,
    0x4db2_6158,
    0x5005_713c,
    0xedb8_8320,
    0xf00f_9344,
    0xd6d6_a3e8,
    0xcb61_b38c,
    0x9b64_c2b0,
    0x86d3_d2d4,
    0xa00a_e278,
    0xbdbd_f21c,
];

/// Four bits of the division.
fn divided(remainder: u32) -> u32
    ensures { result ≡ divided remainder }
{
    REMAINDERS[(remainder % 16) as usize] ^ (remainder / 16)
}
