//! The types of ASDU: the table of types, as code. `specs/Types.antt` has it as definitions.
ghost use Rattle.std.specs.Prelude.{◌≡◌, ◌≢◌, ◌<◌, ◌≤◌, length, IfSome, IfNone};
ghost use Rattle.elements.specs.Types.{row, type_of, value_shown, seven_bits as seven_bits_of};
ghost use Rattle.elements.specs.declared.types.TypeId.{TypeId};

use crate::{Bcr, Bsi, Coi, Dco, Diq, Element, Nva, Qoi, Rco, Sco, SeNva, SeSva, Siq, Sva, Vti};

/// A type of ASDU, by the standard's mnemonic (IEC 60870-5-101, 7.2.1 and 7.3): those that this
/// gateway carries.
#[derive(Clone, Copy, Debug, PartialEq, Eq)]
pub enum TypeId {
    /// Single point.
    MSpNa1,
    /// Double point.
    MDpNa1,
    /// Step position.
    MStNa1,
    /// Bitstring of 32 bits.
    MBoNa1,
    /// Measured value, normalised.
    MMeNa1,
    /// Measured value, scaled.
    MMeNb1,
    /// Measured value, short float, carried as 32 bits.
    MMeNc1,
    /// Integrated total.
    MItNa1,
    /// Single point with tag.
    MSpTb1,
    /// Double point with tag.
    MDpTb1,
    /// Step position with tag.
    MStTb1,
    /// Bitstring of 32 bits with tag.
    MBoTb1,
    /// Measured value, normalised, with tag.
    MMeTd1,
    /// Measured value, scaled, with tag.
    MMeTe1,
    /// Measured value, short float, with tag.
    MMeTf1,
    /// Integrated total with tag.
    MItTb1,
    /// End of initialisation.
    MEiNa1,
    /// Single command.
    CScNa1,
    /// Double command.
    CDcNa1,
    /// Regulating step command.
    CRcNa1,
    /// Set point, normalised.
    CSeNa1,
    /// Set point, scaled.
    CSeNb1,
    /// Interrogation.
    CIcNa1,
    /// Single command with tag.
    CScTa1,
    /// Double command with tag.
    CDcTa1,
    /// Regulating step command with tag.
    CRcTa1,
    /// Set point, normalised, with tag.
    CSeTa1,
    /// Set point, scaled, with tag.
    CSeTb1,
}

/// The type that an octet names, if it is known.
#[tactic(auto, unfolding(crate::specs::Types::type_of))]
pub fn kind(octet: u8) -> Option<TypeId>
    ensures value { result ≡ type_of octet }
    ensures some { IfSome result (λ t. (row t).code ≡ octet) }
    ensures none { IfNone result ((t : TypeId) → (row t).code ≢ octet) }
{
    Some(match octet {
        1 => TypeId::MSpNa1,
        3 => TypeId::MDpNa1,
        5 => TypeId::MStNa1,
        7 => TypeId::MBoNa1,
        9 => TypeId::MMeNa1,
        11 => TypeId::MMeNb1,
        13 => TypeId::MMeNc1,
        15 => TypeId::MItNa1,
        30 => TypeId::MSpTb1,
        31 => TypeId::MDpTb1,
        32 => TypeId::MStTb1,
        33 => TypeId::MBoTb1,
        34 => TypeId::MMeTd1,
        35 => TypeId::MMeTe1,
        36 => TypeId::MMeTf1,
        37 => TypeId::MItTb1,
        70 => TypeId::MEiNa1,
        45 => TypeId::CScNa1,
        46 => TypeId::CDcNa1,
        47 => TypeId::CRcNa1,
        48 => TypeId::CSeNa1,
        49 => TypeId::CSeNb1,
        100 => TypeId::CIcNa1,
        58 => TypeId::CScTa1,
        59 => TypeId::CDcTa1,
        60 => TypeId::CRcTa1,
        61 => TypeId::CSeTa1,
        62 => TypeId::CSeTb1,
        // Types with the short tag CP24Time2a are among them: IEC 60870-5-104 doesn't use it.
        _ => return None,
    })
}

impl TypeId {
    /// How many octets its element has, without a tag.
    pub fn size(self) -> usize
        ensures value { result ≡ (row self).size }
        ensures low { 1 ≤ result }
        ensures high { result ≤ 5 }
    {
        match self {
            TypeId::MSpNa1 | TypeId::MSpTb1 => Siq::SIZE,
            TypeId::MDpNa1 | TypeId::MDpTb1 => Diq::SIZE,
            TypeId::MStNa1 | TypeId::MStTb1 => Vti::SIZE,
            TypeId::MBoNa1 | TypeId::MMeNc1 | TypeId::MBoTb1 | TypeId::MMeTf1 => Bsi::SIZE,
            TypeId::MMeNa1 | TypeId::MMeTd1 => Nva::SIZE,
            TypeId::MMeNb1 | TypeId::MMeTe1 => Sva::SIZE,
            TypeId::MItNa1 | TypeId::MItTb1 => Bcr::SIZE,
            TypeId::MEiNa1 => Coi::SIZE,
            TypeId::CScNa1 | TypeId::CScTa1 => Sco::SIZE,
            TypeId::CDcNa1 | TypeId::CDcTa1 => Dco::SIZE,
            TypeId::CRcNa1 | TypeId::CRcTa1 => Rco::SIZE,
            TypeId::CSeNa1 | TypeId::CSeTa1 => SeNva::SIZE,
            TypeId::CSeNb1 | TypeId::CSeTb1 => SeSva::SIZE,
            TypeId::CIcNa1 => Qoi::SIZE,
        }
    }

    /// Whether a time tag of seven octets follows each element.
    pub fn tagged(self) -> bool
        ensures { result ≡ (row self).tagged }
    {
        matches!(
            self,
            TypeId::MSpTb1
                | TypeId::MDpTb1
                | TypeId::MStTb1
                | TypeId::MBoTb1
                | TypeId::MMeTd1
                | TypeId::MMeTe1
                | TypeId::MMeTf1
                | TypeId::MItTb1
                | TypeId::CScTa1
                | TypeId::CDcTa1
                | TypeId::CRcTa1
                | TypeId::CSeTa1
                | TypeId::CSeTb1
        )
    }

    /// Whether it goes in monitor direction, from a station; the others are commands.
    pub fn monitor(self) -> bool
        ensures { result ≡ (row self).monitor }
    {
        match self {
            TypeId::CScNa1
            | TypeId::CDcNa1
            | TypeId::CRcNa1
            | TypeId::CSeNa1
            | TypeId::CSeNb1
            | TypeId::CIcNa1
            | TypeId::CScTa1
            | TypeId::CDcTa1
            | TypeId::CRcTa1
            | TypeId::CSeTa1
            | TypeId::CSeTb1 => false,
            _ => true,
        }
    }

    /// The value that the octets of an element show: a point's or command's state, a position, a
    /// number (normalised values in units of 1/32768), the bits of a bitstring or short float as an
    /// unsigned number, or a qualifier.
    pub fn value(self, octets: &[u8]) -> i64
        requires { length octets.now ≡ (row self).size }
        ensures { result ≡ value_shown self octets.now }
    {
        match self {
            TypeId::MSpNa1 | TypeId::MSpTb1 => i64::from(Siq::get(octets).0 & 1),
            TypeId::MDpNa1 | TypeId::MDpTb1 => i64::from(Diq::get(octets).0 & 3),
            TypeId::MStNa1 | TypeId::MStTb1 => seven_bits(Vti::get(octets).vti & 0x7F),
            // A short float too: as bits it isn't rounded, and no NaN is lost (docs/DECISIONS.md,
            // "Short floats as bits").
            TypeId::MBoNa1 | TypeId::MMeNc1 | TypeId::MBoTb1 | TypeId::MMeTf1 => i64::from(
                Bsi::get(octets).bits,
            ),
            TypeId::MMeNa1 | TypeId::MMeTd1 => i64::from(Nva::get(octets).value),
            TypeId::MMeNb1 | TypeId::MMeTe1 => i64::from(Sva::get(octets).value),
            TypeId::MItNa1 | TypeId::MItTb1 => i64::from(Bcr::get(octets).reading),
            TypeId::MEiNa1 => i64::from(Coi::get(octets).0 & 0x7F),
            TypeId::CScNa1 | TypeId::CScTa1 => i64::from(Sco::get(octets).0 & 1),
            TypeId::CDcNa1 | TypeId::CDcTa1 => i64::from(Dco::get(octets).0 & 3),
            TypeId::CRcNa1 | TypeId::CRcTa1 => i64::from(Rco::get(octets).0 & 3),
            TypeId::CSeNa1 | TypeId::CSeTa1 => i64::from(SeNva::get(octets).value),
            TypeId::CSeNb1 | TypeId::CSeTb1 => i64::from(SeSva::get(octets).value),
            TypeId::CIcNa1 => i64::from(Qoi::get(octets).0),
        }
    }
}

/// A number of 7 bits in two's complement.
fn seven_bits(bits: u8) -> i64
    requires { bits < 128 }
    ensures { result ≡ seven_bits_of bits }
{
    // Bit 6 is the sign: the octet's bit 7 says that the position is in transit.
    let value = i64::from(bits);
    if bits < 64 { value } else { value - 128 }
}
