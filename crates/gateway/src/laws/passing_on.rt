//! What is passed on of what stations say.
ghost use Rattle.std.specs.Prelude.{◌≡◌, ◌∷◌, [], false, List};
ghost use Rattle.elements.specs.Types.{row};
ghost use Rattle.elements.specs.declared.types.TypeId.{TypeId};
ghost use Rattle.asdu.specs.InformationObjects.{InformationObject};
ghost use Rattle.gateway.specs.Counting.{is_answer_type, is_answer_code};
ghost use Rattle.gateway.specs.Works.{is_command_by};

/// A station's report is an answer to a command exactly if its objects are of type 45 to 49 or 100:
/// single, double and step commands, set points and interrogations. So the answer to each command
/// that goes to a station is passed on or counted as one (`what_is_due_is_given`), and it is never
/// skipped. What can't be read is none.
pub fn answers_have_the_types_of_commands()
    ensures types { (t : TypeId) → is_answer_type t ≡ is_answer_code (row t).code }
    ensures reports { (o : InformationObject) (objects : List InformationObject) →
        is_command_by (o ∷ objects) ≡ is_answer_code (row o.kind).code }
    ensures none { is_command_by [] ≡ false }
{}
