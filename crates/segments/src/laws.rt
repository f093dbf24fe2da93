//! What holds of both files over a crash.
ghost use Rattle.std.specs.Prelude.{◌≡◌, ◌⊎◌, ◌+◌, ◌-◌, ◌^◌, ◌<◌, ◌≤◌, ℕ, List, [], ◌∷◌, ◌++◌};
ghost use Rattle.std.specs.Prelude.{None, codes, drop, false, length, take, true};
ghost use Rattle.std.specs.List.{concat};
ghost use Rattle.segments.specs.Crash.{HasNoOther, IsShut, IsTextIfOpen};
ghost use Rattle.segments.specs.Crashes.{AreBoth, AreOlder, AreShutOr, IsThatOf, StaysBacked};
ghost use Rattle.segments.specs.Crashes.{Survives, damage_behind, lines_behind, log_text};
ghost use Rattle.segments.specs.Room.{damage_in, is_sealed, log_in};
ghost use Rattle.statetext.specs.Sealed.{AreLines, AreWrites, end_in, mark_of, sealed_text};
ghost use Rattle.segments.specs.Head.{Fits, head_for, head_of, whole_text};
ghost use Rattle.segments.specs.Starts.{BeginsNewer, IsAbove, IsBacked, IsFoundIn, IsNewest};
ghost use Rattle.segments.specs.Starts.{IsNext};
ghost use Rattle.segments.specs.declared.head.SegmentHead.{SegmentHead};
ghost use Rattle.sqlite_disk.specs.Disk.{Holds};
ghost use Rattle.statetext.specs.Sum.{sum_of};

use sqlite_disk::Disk;

/// Over any crash a start finds the segment that took lines, and no other: what a crash may leave
/// of its file ([`crate::Segment::survives`]) has the segment whole, and if each segment that it
/// may leave in the other file is older, what [`crate::Start::open`] promises of the newest one
/// speaks of this one. The lines that the start reads behind the checkpoint begin with all that was
/// synced. If a crash leaves each octet old or new, these are all, or the lines of the write that
/// wasn't synced follow, whole.
pub fn a_start_finds_what_was_synced<D: Disk>()
    ensures whole { (mine : D) (number : ℕ) (body : List ℕ) (writes : List (List ℕ))
        (c : List ℕ) → Survives (D.Disk.may_leave mine) number body writes →
        D.Disk.may_leave mine c → IsFoundIn c (head_for number body) body }
    ensures newest { (mine spare : D) (number : ℕ) (body : List ℕ) (writes : List (List ℕ))
        (c d newest other : List ℕ) (head : SegmentHead) (text : List ℕ) →
        Survives (D.Disk.may_leave mine) number body writes →
        AreOlder (D.Disk.may_leave spare) number → D.Disk.may_leave mine c →
        D.Disk.may_leave spare d → AreBoth c d newest other → IsNewest newest other → Fits head →
        IsFoundIn newest head text → IsThatOf c number body newest head text }
    ensures synced { (mine : D) (number : ℕ) (body : List ℕ) (writes : List (List ℕ))
        (c : List ℕ) → Survives (D.Disk.may_leave mine) number body writes →
        D.Disk.may_leave mine c →
        (more : List ℕ) × (lines_behind body c ≡ concat writes ++ more) }
    ensures no_other { (mine : D) (number : ℕ) (body : List ℕ) (writes : List (List ℕ))
        (late c : List ℕ) → Survives (D.Disk.may_leave mine) number body writes →
        AreLines late →
        HasNoOther (D.Disk.may_leave mine) (log_text number body (writes ++ late ∷ [])) →
        D.Disk.may_leave mine c → (lines_behind body c ≡ concat writes)
        ⊎ (lines_behind body c ≡ concat writes ++ late) }
{}

/// What a crash leaves of a write that wasn't synced is no damage, if it leaves each octet old,
/// which is 0, or new, also of the seal.
pub fn a_torn_write_is_no_damage<D: Disk>()
    ensures { (mine : D) (number : ℕ) (body : List ℕ) (writes : List (List ℕ)) (late c : List ℕ) →
        Survives (D.Disk.may_leave mine) number body writes → AreLines late →
        HasNoOther (D.Disk.may_leave mine) (log_text number body (writes ++ late ∷ [])) →
        D.Disk.may_leave mine c → damage_behind body c ≡ None }
{}

/// What is read of a log bears its seals: the text behind the checkpoint begins with writes whose
/// lines are those that are read, each with the seal of its own place and lines. No write that
/// follows is passed over unseen: if no damage is told, no seal of another place stands behind
/// them, so none of a later write.
pub fn what_is_read_of_a_log_bears_its_seals()
    ensures writes { (begins : ℕ) (file : List ℕ) → is_sealed file ≡ true →
        (writes : List (List ℕ)) × (rest : List ℕ) × AreWrites writes ×
        (drop begins file ≡ sealed_text (take 87 file) writes ++ rest) ×
        (log_in begins file ≡ concat writes) }
    ensures none { (begins : ℕ) (file before behind : List ℕ) (place : ℕ) → begins ≤ length file →
        length file < 2 ^ 64 → is_sealed file ≡ true → damage_in begins file ≡ None →
        place < 2 ^ 64 → drop (end_in (take 87 file) (drop begins file)) (drop begins file)
        ≡ before ++ mark_of place ++ behind →
        place ≡ end_in (take 87 file) (drop begins file) }
{}

/// What the other file may have while the next segment is begun there: nothing but older segments,
/// from the one that stood there to the moment at which the new one stands whole. A segment that
/// took lines is older than the next. A file that is shut has none, and one that couldn't be shut
/// has those that it had. When the last octet was written, or that failed, it has the new segment,
/// or none.
pub fn the_other_file_has_older_segments<D: Disk>()
    ensures survived { (spare : D) (number next : ℕ) (body : List ℕ) (writes : List (List ℕ)) →
        Survives (D.Disk.may_leave spare) number body writes → number < next →
        AreOlder (D.Disk.may_leave spare) next }
    ensures shut { (spare : D) (number : ℕ) → IsShut (D.Disk.may_leave spare) →
        AreOlder (D.Disk.may_leave spare) number }
    ensures unshut { (old new : D) (number : ℕ) →
        AreShutOr (D.Disk.may_leave new) (D.Disk.may_leave old) →
        AreOlder (D.Disk.may_leave old) number → AreOlder (D.Disk.may_leave new) number }
    ensures finished { (spare : D) (number : ℕ) (body c : List ℕ) (head : SegmentHead)
        (text : List ℕ) → Fits (head_for number body) → Fits head →
        IsTextIfOpen (D.Disk.may_leave spare) (whole_text number body) →
        D.Disk.may_leave spare c → IsFoundIn c head text →
        IsThatOf c number body c head text }
{}

/// A file is written over only if the other one has a segment that is as new: its checkpoint has
/// the length and the sum that its first line says, and its number isn't lower.
pub fn no_file_is_written_over_but_beside_one_as_new()
    ensures { (newest other : List ℕ) (head : SegmentHead) (text : List ℕ) → Fits head →
        IsFoundIn other head text → IsBacked newest other →
        (own : SegmentHead) × (body : List ℕ) × Fits own × Holds newest 0 (head_of own) ×
        (0 < length body → Holds newest 87 body) × (length body ≡ own.octets) ×
        (sum_of body ≡ own.sum) × (head.number ≤ own.number) }
{}

/// No crash takes the newest segment while the other file is written over. That is begun only if
/// whatever a crash leaves of the newest file has a segment as new as the other file's: its
/// checkpoint has the length and the sum that its first line says, and its number isn't lower.
pub fn no_crash_takes_both_files<D: Disk>()
    ensures { (newest other : D) (c : List ℕ) (head : SegmentHead) (text : List ℕ) → Fits head →
        IsFoundIn (D.Disk.seen other) head text →
        StaysBacked (D.Disk.may_leave newest) (D.Disk.seen other) → D.Disk.may_leave newest c →
        (own : SegmentHead) × (body : List ℕ) × Fits own × Holds c 0 (head_of own) ×
        (0 < length body → Holds c 87 body) × (length body ≡ own.octets) ×
        (sum_of body ≡ own.sum) × (head.number ≤ own.number) }
{}

/// The number of the next segment is its own. It is above the number of each first line that stands
/// in one of the files, until the 64 bits of a number are used up: so the newest segment is never
/// one of two. And none is left out: the number before it stands there, unless it is the first, 2.
pub fn the_next_number_is_new()
    ensures above { (number : ℕ) (file : List ℕ) (head : SegmentHead) → IsAbove number file →
        Fits head → Holds file 0 (head_of head) → head.number < 2 ^ 64 - 1 →
        head.number < number }
    ensures next { (number : ℕ) (newest other : List ℕ) → IsNext number newest other →
        2 < number → (head : SegmentHead) × Fits head
        × (Holds newest 0 (head_of head) ⊎ Holds other 0 (head_of head))
        × (number ≤ head.number + 1) }
{}

/// Only a newer segment is in the way of the next log. If it is told that the other file may not be
/// written over, or that a file isn't below a number, the first line of such a segment stands
/// there. So no log is held up by a file that is shut, by an older segment, or by none.
pub fn only_a_newer_segment_is_in_the_way()
    ensures { (number : ℕ) (file : List ℕ) → BeginsNewer number file →
        (head : SegmentHead) × Fits head × Holds file 0 (head_of head) × (number < head.number) }
{}

/// The first line of a segment, by literal numbers: states that older versions wrote are read.
pub fn first_lines_by_example()
    ensures older { head_of (record { number = 1; octets = 0; sum = 0; is_sealed = false }) ≡ codes
        "telegate state 1 rules 1 segment 0000000000000001 octets 0000000000000000 sum 00000000"
        ++ 10 ∷ [] }
    ensures sealed { head_of (record {
      number = 258;
      octets = 4660;
      sum = 3735928559;
      is_sealed = true;
    }) ≡ codes
        "telegate state 1 rules 2 segment 0000000000000102 octets 0000000000001234 sum deadbeef"
        ++ 10 ∷ [] }
{}
