//! Laws of the calls to a stream of the system.
ghost use Rattle.std.specs.Prelude.{◌≡◌, ◌≢◌, ◌⊎◌, ◌↔◌, ℕ, ◌+◌, ◌≤◌, List, [], ◌∷◌, ◌++◌, length};
ghost use Rattle.std.specs.Prelude.{Bool, true, false, Some, Result};
ghost use Rattle.std.specs.declared.io.Error.{Error};
ghost use Rattle.live.specs.CallSums.{IsHandedOn, IsReadEmpty, brought_in};
ghost use Rattle.live.specs.Streams.{DropsWaiting, SystemCall};
ghost use Rattle.live.specs.Streams.{Waits, WritesAll, WritesInTwo, took};

/// A write counts as taken exactly if the stream took all its octets, once and in their order: in
/// one call, and in two. A part of a write isn't the whole. Each write in two is tried: the stream
/// is handed all octets, and then, if it lets calls wait, what the first call left.
pub fn a_write_is_taken_where_all_its_octets_are()
    ensures once { (old new : List SystemCall) (octets : List ℕ) (is_taken : Bool) →
        WritesAll (Some old) octets is_taken (Some new) → 1 ≤ length octets →
        (is_taken ≡ true) ↔ (took new ≡ took old ++ octets) }
    ensures front { (old new : List SystemCall) (octets : List ℕ) (is_taken : Bool) →
        WritesInTwo (Some old) octets is_taken (Some new) →
        (is_taken ≡ true) ↔ (took new ≡ took old ++ octets) }
    ensures tried { (old new : List SystemCall) (octets : List ℕ) (is_taken : Bool) →
        WritesInTwo (Some old) octets is_taken (Some new) →
        (first : Result ℕ Error) × IsHandedOn octets first old new }
{}

/// What waits is dropped, however many buffers it fills: it is read until a read brings none, or 64
/// times. All octets that were read so are counted. A stream that can't be set not to wait isn't
/// read.
pub fn what_waits_is_dropped_to_its_end()
    ensures empty { (old new : List SystemCall) (count : ℕ) →
        DropsWaiting (Some old) count (Some new) →
        (new ≡ Waits false false ∷ old) ⊎ IsReadEmpty old new }
    ensures counted { (old new : List SystemCall) (count : ℕ) →
        DropsWaiting (Some old) count (Some new) → brought_in new ≡ brought_in old + count }
{}
