//! The elements of command types. S/E is bit 7 of the qualifier: 1 select, 0 execute.
ghost use Rattle.std.specs.Prelude.{[], ◌∷◌, slice_index, refl};
ghost use Rattle.std.proofs.Common.{ap};
ghost use Rattle.elements.specs.Layouts.{octet, IsOctet, short, short_at, IsShort};
ghost use Rattle.elements.specs.OctetLemmas.{octet_again, short_read, short_again};

use crate::Element;
use crate::layout::{put_octet, put_short};
use byteorder::{ByteOrder, LittleEndian};

/// SCO, a single command (IEC 60870-5-101, 7.2.6.15): the state in bit 0, QU in bits 6 to 2, S/E in
/// bit 7.
#[derive(Clone, Copy, Debug, PartialEq, Eq)]
pub struct Sco(pub u8);

impl Element for Sco {
    ghost octets_of = { λ v. octet v.0 };

    ghost value_of = { λ xs. record { 0 = slice_index xs 0 } };

    ghost IsValue = { λ v. IsOctet v.0 };

    ghost SIZE = { 1 };

    const SIZE: usize = 1;

    fn put(&self, out: &mut [u8]) {
        put_octet(out, self.0);
    }

    fn get(octets: &[u8]) -> Self {
        Sco(octets[0])
    }

    ghost reads_back = { λ v _. refl };

    ghost writes_back = { λ xs n _. octet_again xs n };
}

/// DCO, a double command (IEC 60870-5-101, 7.2.6.16): the state in bits 1 to 0, of which 0 and 3
/// aren't permitted, QU in bits 6 to 2, S/E in bit 7.
#[derive(Clone, Copy, Debug, PartialEq, Eq)]
pub struct Dco(pub u8);

impl Element for Dco {
    ghost octets_of = { λ v. octet v.0 };

    ghost value_of = { λ xs. record { 0 = slice_index xs 0 } };

    ghost IsValue = { λ v. IsOctet v.0 };

    ghost SIZE = { 1 };

    const SIZE: usize = 1;

    fn put(&self, out: &mut [u8]) {
        put_octet(out, self.0);
    }

    fn get(octets: &[u8]) -> Self {
        Dco(octets[0])
    }

    ghost reads_back = { λ v _. refl };

    ghost writes_back = { λ xs n _. octet_again xs n };
}

/// RCO, a regulating step command (IEC 60870-5-101, 7.2.6.17): the step in bits 1 to 0, of which 0
/// and 3 aren't permitted, QU in bits 6 to 2, S/E in bit 7.
#[derive(Clone, Copy, Debug, PartialEq, Eq)]
pub struct Rco(pub u8);

impl Element for Rco {
    ghost octets_of = { λ v. octet v.0 };

    ghost value_of = { λ xs. record { 0 = slice_index xs 0 } };

    ghost IsValue = { λ v. IsOctet v.0 };

    ghost SIZE = { 1 };

    const SIZE: usize = 1;

    fn put(&self, out: &mut [u8]) {
        put_octet(out, self.0);
    }

    fn get(octets: &[u8]) -> Self {
        Rco(octets[0])
    }

    ghost reads_back = { λ v _. refl };

    ghost writes_back = { λ xs n _. octet_again xs n };
}

/// A set point, normalised (NVA, IEC 60870-5-101, 7.2.6.6), with its qualifier.
#[derive(Clone, Copy, Debug, PartialEq, Eq)]
pub struct SeNva {
    /// In units of 1/32768.
    pub value: i16,
    /// QOS (7.2.6.39): QL in bits 6 to 0, S/E in bit 7.
    pub qualifier: u8,
}

impl Element for SeNva {
    ghost octets_of = { λ v. short v.value v.qualifier };

    ghost value_of = { λ xs. record { value = short_at xs; qualifier = slice_index xs 2 } };

    ghost IsValue = { λ v. IsShort v.value v.qualifier };

    ghost SIZE = { 3 };

    const SIZE: usize = 3;

    fn put(&self, out: &mut [u8]) {
        put_short(out, self.value, self.qualifier);
    }

    fn get(octets: &[u8]) -> Self {
        SeNva {
            value: LittleEndian::read_i16(octets),
            qualifier: octets[2],
        }
    }

    ghost reads_back = { λ v h.
        ap (λ x.
        record { value = x; qualifier = v.qualifier }) (short_read v.value v.qualifier h) };

    ghost writes_back = { λ xs n all. short_again xs n all };
}

/// A set point, scaled (SVA, IEC 60870-5-101, 7.2.6.7), with its qualifier.
#[derive(Clone, Copy, Debug, PartialEq, Eq)]
pub struct SeSva {
    pub value: i16,
    /// QOS, as in `SeNva`.
    pub qualifier: u8,
}

impl Element for SeSva {
    ghost octets_of = { λ v. short v.value v.qualifier };

    ghost value_of = { λ xs. record { value = short_at xs; qualifier = slice_index xs 2 } };

    ghost IsValue = { λ v. IsShort v.value v.qualifier };

    ghost SIZE = { 3 };

    const SIZE: usize = 3;

    fn put(&self, out: &mut [u8]) {
        put_short(out, self.value, self.qualifier);
    }

    fn get(octets: &[u8]) -> Self {
        SeSva {
            value: LittleEndian::read_i16(octets),
            qualifier: octets[2],
        }
    }

    ghost reads_back = { λ v h.
        ap (λ x.
        record { value = x; qualifier = v.qualifier }) (short_read v.value v.qualifier h) };

    ghost writes_back = { λ xs n all. short_again xs n all };
}

/// QOI, a qualifier of interrogation (IEC 60870-5-101, 7.2.6.22): 20 the station, 21 to 36 groups 1
/// to 16.
#[derive(Clone, Copy, Debug, PartialEq, Eq)]
pub struct Qoi(pub u8);

impl Element for Qoi {
    ghost octets_of = { λ v. octet v.0 };

    ghost value_of = { λ xs. record { 0 = slice_index xs 0 } };

    ghost IsValue = { λ v. IsOctet v.0 };

    ghost SIZE = { 1 };

    const SIZE: usize = 1;

    fn put(&self, out: &mut [u8]) {
        put_octet(out, self.0);
    }

    fn get(octets: &[u8]) -> Self {
        Qoi(octets[0])
    }

    ghost reads_back = { λ v _. refl };

    ghost writes_back = { λ xs n _. octet_again xs n };
}
