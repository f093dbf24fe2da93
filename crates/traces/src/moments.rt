//! Moments, spelled once for all that is printed at them.
ghost use Rattle.std.specs.Prelude.{◌≡◌, ◌<◌, ◌≤◌, ◌++◌, length, drop, take};
ghost use Rattle.std.specs.Fmt.{decimal};

use std::marker::Model;

/// A moment in milliseconds, with its decimal digits. What a gateway puts out in one step bears one
/// moment, so that it is spelled for the first of these actions alone.
#[derive(Drop)]
pub struct Moment {
    number: u64,
    /// As many octets as the longest number has digits, of which the digits are the last, and as
    /// many behind them, which mean nothing: they are copied with the digits, so that a copy has
    /// always the same length.
    row: [u8; 40],
    /// Where the digits begin.
    start: usize,
}

impl Model for Moment {
    ghost use Rattle.std.specs.Prelude.{ℕ};
    ghost use Rattle.traces.specs.Moments.{IsSpelled};

    ghost Value = { ℕ };

    ghost view = { λ m. m.number };

    ghost invariant = { λ m. IsSpelled m.number m.row m.start };
}

impl Moment {
    /// This moment.
    pub fn new(number: u64) -> Moment
        ensures { result ≡ number }
    {
        let mut row = [0u8; 40];
        let start = spell(number, &mut row);
        Moment { number, row, start }
    }

    /// It is this moment from now on. It is spelled anew if it was another.
    pub fn renew(&mut self, number: u64)
        ensures { self.new ≡ number }
    {
        if self.number != number {
            self.number = number;
            self.start = spell(number, &mut self.row);
        }
    }

    /// The milliseconds.
    pub fn number(&self) -> u64
        ensures { result ≡ self.now }
    {
        self.number
    }

    /// The milliseconds in decimal.
    pub fn digits(&self) -> &[u8]
        ensures digits { result.now ≡ decimal self.now }
        ensures most { length result.now ≤ 20 }
    {
        &self.row[self.start..MOST_DIGITS]
    }

    /// The milliseconds in decimal at the front of octets, and how many digits these are.
    #[inline(always)]
    pub(crate) fn spelled(&self) -> ([u8; 20], usize)
        ensures digits { take result.1 result.0 ≡ decimal self.now }
        ensures places { length result.0 ≡ 20 }
        ensures most { result.1 ≤ 20 }
    {
        let mut octets = [0u8; 20];
        octets.copy_from_slice(&self.row[self.start..self.start + MOST_DIGITS]);
        (octets, MOST_DIGITS - self.start)
    }
}

/// The most digits of a number.
const MOST_DIGITS: usize = 20;

/// Spells a number in decimal at the end of the first half of a row, and answers where its digits
/// begin.
fn spell(number: u64, row: &mut [u8; 40]) -> usize
    ensures place { result < 20 }
    ensures digits { drop result row.new ≡ decimal number ++ drop 20 row.new }
{
    let mut left = number;
    let mut start = MOST_DIGITS;
    'digits: while left >= 10 {
        start -= 1;
        row[start] = b'0' + (left % 10) as u8;
        left /= 10;
    }
    start -= 1;
    row[start] = b'0' + left as u8;
    start
}
