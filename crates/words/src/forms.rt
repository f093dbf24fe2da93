//! Which element a type of ASDU has.
ghost use Rattle.std.specs.Prelude.{◌≡◌};
ghost use Rattle.elements.specs.Types.{row};
ghost use Rattle.words.specs.Values.{form_of as form_of_type, form_size};

use elements::TypeId;

/// An information element (IEC 60870-5-101, 7.2.6).
#[derive(Clone, Copy)]
pub(crate) enum ElementForm {
    /// SIQ.
    Single,
    /// DIQ.
    Double,
    /// VTI with QDS.
    Step,
    /// BSI with QDS.
    Bits,
    /// NVA with QDS.
    Normalised,
    /// SVA with QDS.
    Scaled,
    /// R32-IEEE STD 754 with QDS.
    Float,
    /// BCR.
    Counter,
    /// COI.
    Initialised,
    /// SCO.
    SingleCommand,
    /// DCO.
    DoubleCommand,
    /// RCO.
    StepCommand,
    /// NVA with QOS.
    NormalisedSetPoint,
    /// SVA with QOS.
    ScaledSetPoint,
    /// QOI.
    Interrogation,
}

/// The element that a type has.
pub(crate) fn form_of(kind: TypeId) -> ElementForm
    ensures form { result ≡ form_of_type kind }
    ensures size { form_size result ≡ (row kind).size }
{
    match kind {
        TypeId::MSpNa1 | TypeId::MSpTb1 => ElementForm::Single,
        TypeId::MDpNa1 | TypeId::MDpTb1 => ElementForm::Double,
        TypeId::MStNa1 | TypeId::MStTb1 => ElementForm::Step,
        TypeId::MBoNa1 | TypeId::MBoTb1 => ElementForm::Bits,
        TypeId::MMeNa1 | TypeId::MMeTd1 => ElementForm::Normalised,
        TypeId::MMeNb1 | TypeId::MMeTe1 => ElementForm::Scaled,
        TypeId::MMeNc1 | TypeId::MMeTf1 => ElementForm::Float,
        TypeId::MItNa1 | TypeId::MItTb1 => ElementForm::Counter,
        TypeId::MEiNa1 => ElementForm::Initialised,
        TypeId::CScNa1 | TypeId::CScTa1 => ElementForm::SingleCommand,
        TypeId::CDcNa1 | TypeId::CDcTa1 => ElementForm::DoubleCommand,
        TypeId::CRcNa1 | TypeId::CRcTa1 => ElementForm::StepCommand,
        TypeId::CSeNa1 | TypeId::CSeTa1 => ElementForm::NormalisedSetPoint,
        TypeId::CSeNb1 | TypeId::CSeTb1 => ElementForm::ScaledSetPoint,
        TypeId::CIcNa1 => ElementForm::Interrogation,
    }
}
