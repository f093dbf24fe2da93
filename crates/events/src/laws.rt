//! What a queue keeps after every list of calls.

ghost use Rattle.std.specs.Prelude.{◌≡◌, ◌-◌, ◌≤◌, ◌∷◌, ◌++◌, [], ℕ, List, length};
ghost use Rattle.events.specs.Queue.{Queue, kept, free_places, acknowledged};
ghost use Rattle.events.specs.Carried.{carried};
ghost use Rattle.events.specs.Restored.{marked};
ghost use Rattle.events.specs.Runs.{Call, AreMade, KeepsAll};

/// After every list of calls that could be made the queue keeps what was pushed and isn't
/// acknowledged, each piece once and in its order. The oldest are those that were sent since the
/// latest rewind.
pub fn pieces_are_kept_in_order()
    ensures { (places : ℕ) (calls : List Call) → AreMade places calls → KeepsAll places calls }
{}

/// A queue that goes on with another number of places keeps each piece in its order, sent or not.
/// All go out again, and a place is free for each that isn't taken, also if the pieces are more
/// than the places. So it is once some went out and were acknowledged.
pub fn pieces_outlive_other_places()
    ensures pieces { (places : ℕ) (q : Queue) → kept (carried places q) ≡ kept q }
    ensures unsent { (places : ℕ) (q : Queue) → (carried places q).unsent ≡ kept q }
    ensures free { (places n : ℕ) (q : Queue) → n ≤ length (kept q) →
        free_places (acknowledged n (marked n (carried places q)))
        ≡ places - (length (kept q) - n) }
{}
