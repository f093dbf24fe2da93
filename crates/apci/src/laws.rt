//! What holds of APDUs and their octets.

ghost use Rattle.std.specs.Prelude.{◌≡◌, ℕ, List, [], ◌++◌};
ghost use Rattle.apci.specs.declared.apdu.Apdu.{Apdu};
ghost use Rattle.apci.specs.declared.apdu.Front.{Front};
ghost use Rattle.apci.specs.declared.assembling.Received.{Received};
ghost use Rattle.apci.specs.Spelling.{Fits, IsApdu, spelling};
ghost use Rattle.apci.specs.Assembly.{Assembly, Receives, IsReceivedWhole};
ghost use Rattle.apci.specs.Reading.{IsFront};
ghost use Rattle.std.specs.List.{AllByRecursion};
ghost use Rattle.apci.specs.Examples.{IsSpelledSo, IsRefusedSo, spelling_examples};
ghost use Rattle.apci.specs.Examples.{refusal_examples};

/// No spelling begins another, and no two APDUs have the same.
pub fn no_spelling_begins_another()
    ensures { (a b : Apdu) (x rest : List ℕ) → IsApdu a x → IsApdu b (x ++ rest) →
        (a ≡ b) × (rest ≡ []) }
{}

/// Octets have one front.
pub fn one_front()
    ensures { (x : List ℕ) (a b : Front) → IsFront x a → IsFront x b → a ≡ b }
{}

/// Octets that begin with the spellings of two APDUs begin with one APDU, and go on alike.
pub fn spellings_cancel()
    ensures { (a b : Apdu) (x y : List ℕ) → spelling a ++ x ≡ spelling b ++ y → (a ≡ b) × (x ≡ y) }
{}

/// An assembler that is fed the octets of an APDU, with anything behind them, receives that APDU,
/// takes its octets and no more, and listens on: so it receives the APDUs of a stream one after
/// another.
pub fn apdus_are_received_one_after_another()
    ensures { (a : Apdu) (more : List ℕ) (n : ℕ) (arrived : Received) (after : Assembly) →
        Fits a → Receives [] (spelling a ++ more) n arrived after →
        IsReceivedWhole a n arrived after }
{}

/// APDUs worked by hand from the standard have these octets, and octets that begin none are refused
/// for this.
pub fn worked_examples_hold()
    ensures spellings { AllByRecursion IsSpelledSo spelling_examples }
    ensures refusals { AllByRecursion IsRefusedSo refusal_examples }
{}
