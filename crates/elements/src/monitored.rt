//! The elements of monitor types.
ghost use Rattle.std.specs.Prelude.{[], ◌∷◌, slice_index, refl};
ghost use Rattle.std.proofs.Common.{ap};
ghost use Rattle.elements.specs.Layouts.{octet, IsOctet, short, short_at, IsShort, word, word_at};
ghost use Rattle.elements.specs.Layouts.{IsWord, long, long_at, IsLong};
ghost use Rattle.elements.specs.OctetLemmas.{octet_again, two_octets, short_read, short_again};
ghost use Rattle.elements.specs.OctetLemmas.{word_read, word_again, long_read, long_again};

use crate::Element;
use crate::layout::{put_long, put_octet, put_short, put_word};
use byteorder::{ByteOrder, LittleEndian};

/// SIQ, single point information with quality (IEC 60870-5-101, 7.2.6.1): the point in bit 0, BL in
/// bit 4, SB in bit 5, NT in bit 6, IV in bit 7.
#[derive(Clone, Copy, Debug, PartialEq, Eq)]
pub struct Siq(pub u8);

impl Element for Siq {
    ghost octets_of = { λ v. octet v.0 };

    ghost value_of = { λ xs. record { 0 = slice_index xs 0 } };

    ghost IsValue = { λ v. IsOctet v.0 };

    ghost SIZE = { 1 };

    const SIZE: usize = 1;

    fn put(&self, out: &mut [u8]) {
        put_octet(out, self.0);
    }

    fn get(octets: &[u8]) -> Self {
        Siq(octets[0])
    }

    ghost reads_back = { λ v _. refl };

    ghost writes_back = { λ xs n _. octet_again xs n };
}

/// DIQ, double point information with quality (IEC 60870-5-101, 7.2.6.2): the point in bits 1 to 0,
/// quality as in `Siq`.
#[derive(Clone, Copy, Debug, PartialEq, Eq)]
pub struct Diq(pub u8);

impl Element for Diq {
    ghost octets_of = { λ v. octet v.0 };

    ghost value_of = { λ xs. record { 0 = slice_index xs 0 } };

    ghost IsValue = { λ v. IsOctet v.0 };

    ghost SIZE = { 1 };

    const SIZE: usize = 1;

    fn put(&self, out: &mut [u8]) {
        put_octet(out, self.0);
    }

    fn get(octets: &[u8]) -> Self {
        Diq(octets[0])
    }

    ghost reads_back = { λ v _. refl };

    ghost writes_back = { λ xs n _. octet_again xs n };
}

/// VTI, a step position, with quality (IEC 60870-5-101, 7.2.6.5 and 7.2.6.3).
#[derive(Clone, Copy, Debug, PartialEq, Eq)]
pub struct Vti {
    /// The position in bits 6 to 0, in two's complement; bit 7 says that the equipment is in a
    /// transient state.
    pub vti: u8,
    /// QDS: OV in bit 0, BL in bit 4, SB in bit 5, NT in bit 6, IV in bit 7.
    pub quality: u8,
}

impl Element for Vti {
    ghost octets_of = { λ v. v.vti ∷ v.quality ∷ [] };

    ghost value_of = { λ xs. record { vti = slice_index xs 0; quality = slice_index xs 1 } };

    ghost IsValue = { λ v. IsOctet v.vti × IsOctet v.quality };

    ghost SIZE = { 2 };

    const SIZE: usize = 2;

    fn put(&self, out: &mut [u8]) {
        put_octet(&mut out[..1], self.vti);
        put_octet(&mut out[1..], self.quality);
    }

    fn get(octets: &[u8]) -> Self {
        Vti {
            vti: octets[0],
            quality: octets[1],
        }
    }

    ghost reads_back = { λ v _. refl };

    ghost writes_back = { λ xs n _. two_octets xs n };
}

/// BSI, a bitstring of 32 bits, with quality (IEC 60870-5-101, 7.2.6.13). A short float (7.2.6.8)
/// is carried as its bits.
#[derive(Clone, Copy, Debug, PartialEq, Eq)]
pub struct Bsi {
    pub bits: u32,
    /// QDS, as in `Vti`.
    pub quality: u8,
}

impl Element for Bsi {
    ghost octets_of = { λ v. word v.bits v.quality };

    ghost value_of = { λ xs. record { bits = word_at xs; quality = slice_index xs 4 } };

    ghost IsValue = { λ v. IsWord v.bits v.quality };

    ghost SIZE = { 5 };

    const SIZE: usize = 5;

    fn put(&self, out: &mut [u8]) {
        put_word(out, self.bits, self.quality);
    }

    fn get(octets: &[u8]) -> Self {
        Bsi {
            bits: LittleEndian::read_u32(octets),
            quality: octets[4],
        }
    }

    ghost reads_back = { λ v h.
        ap (λ x. record { bits = x; quality = v.quality }) (word_read v.bits v.quality h) };

    ghost writes_back = { λ xs n all. word_again xs n all };
}

/// NVA, a normalised value, with quality (IEC 60870-5-101, 7.2.6.6).
#[derive(Clone, Copy, Debug, PartialEq, Eq)]
pub struct Nva {
    /// In units of 1/32768.
    pub value: i16,
    /// QDS, as in `Vti`.
    pub quality: u8,
}

impl Element for Nva {
    ghost octets_of = { λ v. short v.value v.quality };

    ghost value_of = { λ xs. record { value = short_at xs; quality = slice_index xs 2 } };

    ghost IsValue = { λ v. IsShort v.value v.quality };

    ghost SIZE = { 3 };

    const SIZE: usize = 3;

    fn put(&self, out: &mut [u8]) {
        put_short(out, self.value, self.quality);
    }

    fn get(octets: &[u8]) -> Self {
        Nva {
            value: LittleEndian::read_i16(octets),
            quality: octets[2],
        }
    }

    ghost reads_back = { λ v h.
        ap (λ x. record { value = x; quality = v.quality }) (short_read v.value v.quality h) };

    ghost writes_back = { λ xs n all. short_again xs n all };
}

/// SVA, a scaled value, with quality (IEC 60870-5-101, 7.2.6.7).
#[derive(Clone, Copy, Debug, PartialEq, Eq)]
pub struct Sva {
    pub value: i16,
    /// QDS, as in `Vti`.
    pub quality: u8,
}

impl Element for Sva {
    ghost octets_of = { λ v. short v.value v.quality };

    ghost value_of = { λ xs. record { value = short_at xs; quality = slice_index xs 2 } };

    ghost IsValue = { λ v. IsShort v.value v.quality };

    ghost SIZE = { 3 };

    const SIZE: usize = 3;

    fn put(&self, out: &mut [u8]) {
        put_short(out, self.value, self.quality);
    }

    fn get(octets: &[u8]) -> Self {
        Sva {
            value: LittleEndian::read_i16(octets),
            quality: octets[2],
        }
    }

    ghost reads_back = { λ v h.
        ap (λ x. record { value = x; quality = v.quality }) (short_read v.value v.quality h) };

    ghost writes_back = { λ xs n all. short_again xs n all };
}

/// BCR, a binary counter reading (IEC 60870-5-101, 7.2.6.9).
#[derive(Clone, Copy, Debug, PartialEq, Eq)]
pub struct Bcr {
    /// The counter.
    pub reading: i32,
    /// The sequence number in bits 4 to 0, CY in bit 5, CA in bit 6, IV in bit 7.
    pub sequence: u8,
}

impl Element for Bcr {
    ghost octets_of = { λ v. long v.reading v.sequence };

    ghost value_of = { λ xs. record { reading = long_at xs; sequence = slice_index xs 4 } };

    ghost IsValue = { λ v. IsLong v.reading v.sequence };

    ghost SIZE = { 5 };

    const SIZE: usize = 5;

    fn put(&self, out: &mut [u8]) {
        put_long(out, self.reading, self.sequence);
    }

    fn get(octets: &[u8]) -> Self {
        Bcr {
            reading: LittleEndian::read_i32(octets),
            sequence: octets[4],
        }
    }

    ghost reads_back = { λ v h.
        ap (λ x.
        record { reading = x; sequence = v.sequence }) (long_read v.reading v.sequence h) };

    ghost writes_back = { λ xs n all. long_again xs n all };
}

/// COI, a cause of initialisation (IEC 60870-5-101, 7.2.6.21): the cause in bits 6 to 0; bit 7 says
/// that parameters were changed.
#[derive(Clone, Copy, Debug, PartialEq, Eq)]
pub struct Coi(pub u8);

impl Element for Coi {
    ghost octets_of = { λ v. octet v.0 };

    ghost value_of = { λ xs. record { 0 = slice_index xs 0 } };

    ghost IsValue = { λ v. IsOctet v.0 };

    ghost SIZE = { 1 };

    const SIZE: usize = 1;

    fn put(&self, out: &mut [u8]) {
        put_octet(out, self.0);
    }

    fn get(octets: &[u8]) -> Self {
        Coi(octets[0])
    }

    ghost reads_back = { λ v _. refl };

    ghost writes_back = { λ xs n _. octet_again xs n };
}
