//! Information objects in words.
ghost use Rattle.std.specs.Prelude.{◌≡◌, ◌++◌, length, OnOk, string_bytes};
ghost use Rattle.elements.specs.Types.{row};
ghost use Rattle.asdu.specs.Objects.{info_of};
ghost use Rattle.words.specs.Units.{object_words};
ghost use Rattle.words.specs.Values.{form_size, value_words, words_of};

use crate::commands::{
    push_double_command, push_interrogation, push_normalised_set_point, push_scaled_set_point,
    push_single_command, push_step_command,
};
use crate::forms::{ElementForm, form_of};
use crate::monitored::{
    push_bits, push_counter, push_double, push_float, push_initialised, push_normalised,
    push_scaled, push_single, push_step,
};
use crate::tags::push_tag;
use asdu::Object;
use elements::TypeId;
use std::alloc::{AllocError, Global};

/// Appends an object of a type: its address, its value, and its time tag.
#[tactic(auto, unfolding(crate::specs::Units::object_words))]
pub(crate) fn push_object(
    alloc: Global,
    line: &mut String,
    kind: TypeId,
    object: &Object<'_>,
) -> Result<(), AllocError>
    requires { length object.now.element.now ≡ (row kind).size }
    ensures { OnOk result (string_bytes line.new
        ≡ string_bytes line.old ++ object_words kind (info_of object.now)) }
{
    write!(line, "{}", object.address)?;
    line.push_str(" = ")?;
    push_value(alloc, line, kind, object.element)?;
    push_tag(line, object.tag)
}

/// Appends the value that the octets of an element show.
#[tactic(auto, unfolding(crate::specs::Values::value_words))]
fn push_value(
    alloc: Global,
    line: &mut String,
    kind: TypeId,
    octets: &[u8],
) -> Result<(), AllocError>
    requires { length octets.now ≡ (row kind).size }
    ensures { OnOk result (string_bytes line.new
        ≡ string_bytes line.old ++ value_words kind octets.now) }
{
    push_form(alloc, line, form_of(kind), kind.value(octets), octets)
}

/// Appends an element with this value, of these octets.
#[tactic(auto, unfolding(crate::specs::Values::words_of))]
fn push_form(
    alloc: Global,
    line: &mut String,
    form: ElementForm,
    value: i64,
    octets: &[u8],
) -> Result<(), AllocError>
    requires { length octets.now ≡ form_size form }
    ensures { OnOk result (string_bytes line.new
        ≡ string_bytes line.old ++ words_of form value octets.now) }
{
    match form {
        ElementForm::Single => push_single(line, octets),
        ElementForm::Double => push_double(line, octets),
        ElementForm::Step => push_step(line, value, octets),
        ElementForm::Bits => push_bits(alloc, line, octets),
        ElementForm::Normalised => push_normalised(line, octets),
        ElementForm::Scaled => push_scaled(line, value, octets),
        ElementForm::Float => push_float(line, octets),
        ElementForm::Counter => push_counter(line, value, octets),
        ElementForm::Initialised => push_initialised(line, octets),
        ElementForm::SingleCommand => push_single_command(line, octets),
        ElementForm::DoubleCommand => push_double_command(line, octets),
        ElementForm::StepCommand => push_step_command(line, octets),
        ElementForm::NormalisedSetPoint => push_normalised_set_point(line, octets),
        ElementForm::ScaledSetPoint => push_scaled_set_point(line, value, octets),
        ElementForm::Interrogation => push_interrogation(line, octets),
    }
}
