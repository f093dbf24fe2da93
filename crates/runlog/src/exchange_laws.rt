//! Laws of what a station answers, as the run log reads and counts it.
ghost use Rattle.std.specs.Prelude.{◌≡◌, ℕ, ◌+◌, ◌≤◌, Bool, List, ◌++◌, length, Some, None};
ghost use Rattle.ft12.specs.Fronts.{front_of};
ghost use Rattle.ft12.specs.Spelling.{spelling};
ghost use Rattle.ft12.specs.declared.frame.Frame.{Frame};
ghost use Rattle.ft12.specs.declared.frame.Front.TheVariants as front;
ghost use Rattle.ft12.specs.declared.frame.LinkSize.{LinkSize};
ghost use Rattle.ft12.specs.declared.frame.Why.{Why};
ghost use Rattle.link.specs.Answers.{answer_of};
ghost use Rattle.link.specs.Requests.{request_frame};
ghost use Rattle.link.specs.declared.service.Asked.{Asked as Request};
ghost use Rattle.link.specs.declared.service.Asked.TheVariants.{Counted};
ghost use Rattle.link.specs.declared.service.Service.{Service};
ghost use Rattle.link.specs.declared.service.Service.TheVariants.{Command};
ghost use Rattle.runlog.specs.Answering.{awaited_for};
ghost use Rattle.runlog.specs.Exchange.{RequestWatch, answer_in, awaited_of, received, user_data};
ghost use Rattle.runlog.specs.declared.exchange.AwaitedAnswer.TheVariants.{Nothing};

/// An answer is awaited of each request. A command is read as it went out. What comes is joined in
/// any pieces, up to as many octets as a frame can have (261), and what stands in the place of an
/// answer is told by all of it. Once a whole frame stands at its front, that is what the link
/// procedures make of it as an answer to this very request.
pub fn answers_are_read_as_of_their_request()
    ensures awaited { (size : LinkSize) (address : ℕ) (request : Request) →
        awaited_of (spelling size (request_frame address request)) ≡ awaited_for request }
    ensures command { (size : LinkSize) (address : ℕ) (fcb : Bool) (asdu : List ℕ) →
        user_data size (spelling size (request_frame address (Counted fcb (Command asdu))))
        ≡ asdu }
    ensures pieces { (size : LinkSize) (now before : ℕ) (e : RequestWatch)
        (first second : List ℕ) → received size second now (received size first before e)
        ≡ received size (first ++ second) now e }
    ensures joined { (size : LinkSize) (now : ℕ) (e : RequestWatch) (octets : List ℕ) →
        length e.octets + length octets ≤ 261 →
        (received size octets now e).octets ≡ e.octets ++ octets }
    ensures answer { (size : LinkSize) (station : ℕ) (fcb : Bool) (service : Service)
        (frame : Frame) (n : ℕ) (e : RequestWatch) → e.awaited ≡ awaited_for (Counted fcb service) →
        front_of size e.octets ≡ front.Whole frame n →
        answer_in size station e ≡ Some (answer_of station (Counted fcb service) frame) }
    ensures not_yet { (size : LinkSize) (station : ℕ) (e : RequestWatch) →
        front_of size e.octets ≡ front.More → answer_in size station e ≡ None }
    ensures none { (size : LinkSize) (station place : ℕ) (why : Why) (e : RequestWatch) →
        (e.awaited ≡ Nothing → ⊥) → front_of size e.octets ≡ front.Never place why →
        answer_in size station e ≡ Some None }
    ensures nothing { (size : LinkSize) (station : ℕ) (e : RequestWatch) →
        e.awaited ≡ Nothing → answer_in size station e ≡ None }
{}
