//! What the sum of octets shows, and what a line of numbers is read from.
ghost use Rattle.std.specs.Prelude.{◌≡◌, ◌≢◌, ℕ, ◌<◌, List, [], ◌∷◌, ◌++◌, Some, codes};
ghost use Rattle.std.specs.List.{AllByRecursion};
ghost use Rattle.statetext.specs.Sum.{sum_of};
ghost use Rattle.statetext.specs.Text.{line_in, text_of_numbers};

/// No sum hides an octet that has rotted: wherever it stands, and whatever stands before and behind
/// it, octets that differ in it alone have other sums.
pub fn no_sum_hides_a_rotten_octet()
    ensures { (front behind : List ℕ) (octet rotten : ℕ) →
        AllByRecursion (λ c. c < 256) front → AllByRecursion (λ c. c < 256) behind →
        octet < 256 → rotten < 256 → rotten ≢ octet →
        sum_of (front ++ rotten ∷ behind) ≢ sum_of (front ++ octet ∷ behind) }
{}

/// The sum is the CRC-32 of ISO 3309, by the value that is known of the nine digits from 1 on, and
/// that of no octets: states that older versions wrote have their sums.
pub fn sums_by_example()
    ensures digits { sum_of (codes "123456789") ≡ 0xcbf43926 }
    ensures none { sum_of [] ≡ 0 }
{}

/// A line of numbers has one text: what is read as one is what is put for them, octet by octet. (A
/// line that begins with an `x`, 120, is one of octets.) So no other spelling of a number is read.
pub fn a_line_of_numbers_has_one_text()
    ensures { (text numbers : List ℕ) → line_in text ≡ Some numbers →
        ((rest : List ℕ) → text ≡ 120 ∷ rest → ⊥) → text ≡ text_of_numbers numbers }
{}
