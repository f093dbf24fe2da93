//! What holds of all frames and all octets. These functions do nothing: their clauses are the laws.

ghost use Rattle.std.specs.Prelude.{◌≡◌, ◌<◌, ℕ, Option, List, [], ◌++◌, length};
ghost use Rattle.std.specs.List.{AllByRecursion};
ghost use Rattle.ft12.specs.declared.frame.LinkSize.{LinkSize};
ghost use Rattle.ft12.specs.declared.frame.Frame.{Frame};
ghost use Rattle.ft12.specs.declared.frame.Why.{Why};
ghost use Rattle.ft12.specs.declared.frame.Front.{Front};
ghost use Rattle.ft12.specs.declared.assembling.Received.{Received};
ghost use Rattle.ft12.specs.Assembly.{Receives, IsReceivedWhole};
ghost use Rattle.ft12.specs.Fronts.{front_of};
ghost use Rattle.ft12.specs.Examples.{IsSpelledSo, IsRefusedSo, spelling_examples};
ghost use Rattle.ft12.specs.Examples.{refusal_examples};
ghost use Rattle.ft12.specs.Spelling.{IsLineFrame, Fits, spelling};
ghost use Rattle.ft12.specs.Spoiling.{spoilt};
ghost use Rattle.ft12.specs.Reading.{IsFront};
ghost use Rattle.ft12.specs.declared.frame.Front.TheVariants.{Whole, More, Never};

/// No spelling begins another, and no two frames have the same.
pub fn no_spelling_begins_another()
    ensures { (size : LinkSize) (f g : Frame) (x rest : List ℕ) → IsLineFrame size f x →
        IsLineFrame size g (x ++ rest) → (f ≡ g) × (rest ≡ []) }
{}

/// If the same octets begin with two spellings, it is one frame, with one rest after it.
pub fn spellings_cancel()
    ensures { (size : LinkSize) (f g : Frame) (x y : List ℕ) →
        spelling size f ++ x ≡ spelling size g ++ y → (f ≡ g) × (x ≡ y) }
{}

/// Octets have one front: no two answers are right.
pub fn one_front()
    ensures { (size : LinkSize) (octets : List ℕ) (one other : Front) → IsFront size octets one →
        IsFront size octets other → one ≡ other }
{}

/// The computed front is the front of the octets, and the only one. Once it is a frame or a refusal
/// it stays so, whatever octets come; a spelling is read back.
pub fn front_is_computed()
    // Of any numbers: no frame goes on with one above 255, so the crates above needn't carry that
    // all numbers are octets (docs/DECISIONS.md, "The computed front").
    ensures right { (size : LinkSize) (octets : List ℕ) →
        IsFront size octets (front_of size octets) }
    ensures only { (size : LinkSize) (octets : List ℕ) (front : Front) → IsFront size octets front →
        front ≡ front_of size octets }
    ensures nothing { (size : LinkSize) → front_of size [] ≡ More }
    ensures whole { (size : LinkSize) (octets more : List ℕ) (frame : Frame) (n : ℕ) →
        front_of size octets ≡ Whole frame n → front_of size (octets ++ more) ≡ Whole frame n }
    ensures never { (size : LinkSize) (octets more : List ℕ) (place : ℕ) (why : Why) →
        front_of size octets ≡ Never place why → front_of size (octets ++ more) ≡ Never place why }
    ensures spelled { (size : LinkSize) (frame : Frame) (more : List ℕ) → Fits size frame →
        front_of size (spelling size frame ++ more) ≡ Whole frame (length (spelling size frame)) }
{}

/// A frame with one octet changed in all eight bits, at any place, and with any octets after it,
/// has no frame at its front, and begins none.
pub fn spoilt_lines_are_no_lines()
    ensures front { (size : LinkSize) (f g : Frame) (x rest : List ℕ) (place n : ℕ) →
        IsLineFrame size f x → place < length x →
        IsFront size (spoilt place x ++ rest) (Whole g n) → ⊥ }
    ensures beginning { (size : LinkSize) (f g : Frame) (x rest : List ℕ) (place : ℕ) →
        IsLineFrame size f x → place < length x →
        IsLineFrame size g (spoilt place x ++ rest) → ⊥ }
    ensures neither { (size : LinkSize) (f g : Frame) (x rest more : List ℕ) (place : ℕ) →
        IsLineFrame size f x → place < length x →
        spoilt place x ++ rest ≡ spelling size g ++ more → ⊥ }
{}

/// An assembler that is fed the octets of a frame, with anything behind them, receives that frame,
/// takes its octets and no more, and listens on: so it receives the frames of a stream one after
/// another.
pub fn frames_are_received_one_after_another()
    ensures { (size : LinkSize) (frame : Frame) (more : List ℕ) (n : ℕ) (arrived : Received)
        (after : Option (List ℕ)) → Fits size frame →
        Receives size [] (spelling size frame ++ more) n arrived after →
        IsReceivedWhole size frame n arrived after }
{}

/// Frames worked by hand from the standard have these octets and are read back from them, and
/// octets that begin no frame are refused at these places, not before.
pub fn worked_examples_hold()
    ensures spellings { AllByRecursion IsSpelledSo spelling_examples }
    ensures refusals { AllByRecursion IsRefusedSo refusal_examples }
{}
