//! What the standard says of types, elements and time tags, each law called for its contract.
ghost use Rattle.std.specs.Prelude.{◌≡◌, ◌≢◌, ◌⊎◌, ◌≤◌, ◌<◌, ◌+◌, ◌*◌, ℕ, List, [], ◌∷◌};
ghost use Rattle.std.specs.Prelude.{slice_index};
ghost use Rattle.std.specs.List.{AllByRecursion};
ghost use Rattle.jiff_core.specs.Calendar.{weekday_number};
ghost use Rattle.elements.specs.declared.tag.Verdict.TheVariants.{Good, MarkedInvalid, OutOfRange};
ghost use Rattle.elements.specs.declared.tag.Verdict.TheVariants.{NoSuchDay, WrongWeekday};
ghost use Rattle.elements.specs.Moments.{Moment, Exists, tag_of, instant};
ghost use Rattle.elements.specs.Moments.{Names, IsOverRange, IsWithinRange, month_days, days};
ghost use Rattle.elements.specs.Standard.{IsJudgedSo, tag_examples};
ghost use Rattle.elements.specs.TimeTag.{verdict_of};

/// Time tags worked by hand: days and their milliseconds since 1970-01-01.
pub fn worked_examples_hold()
    ensures { AllByRecursion IsJudgedSo tag_examples }
{}

/// The tag of each moment of the years 2000 to 2099 is good, with the day of the week or without,
/// and its instant is that moment's. No tag is good that is marked invalid (IV, bit 7 of the octet
/// of the minute).
pub fn tags_of_moments_are_good()
    ensures good { (m : Moment) → Exists m → verdict_of (tag_of m) ≡ Good (instant m) }
    ensures marked { (octets : List ℕ) (instant : ℕ) → 128 ≤ slice_index octets 2 →
        verdict_of octets ≡ Good instant → ⊥ }
{}

/// What a tag is worth, by the numbers that stand in its bits, for each of the tags that there are.
/// First comes a number over its range, whatever the mark of invalidity and the day of the week.
/// Then a day that the month of that year doesn't have, then another day's name in the week. If
/// none of these applies, the mark of invalidity (IV, bit 7 of the octet of the minute) decides.
pub fn faults_are_told_apart()
    ensures range { (octets : List ℕ) (m : Moment) → Names m octets → IsOverRange m →
        verdict_of octets ≡ OutOfRange }
    ensures day { (octets : List ℕ) (m : Moment) → Names m octets → IsWithinRange m →
        month_days m < m.day → verdict_of octets ≡ NoSuchDay }
    ensures weekday { (octets : List ℕ) (m : Moment) → Names m octets → IsWithinRange m →
        m.day ≤ month_days m → m.weekday ≢ 0 → m.weekday ≢ weekday_number (days m) + 1 →
        verdict_of octets ≡ WrongWeekday }
    ensures marked { (octets : List ℕ) (m : Moment) → Names m octets → IsWithinRange m →
        m.day ≤ month_days m → (m.weekday ≡ 0) ⊎ (m.weekday ≡ weekday_number (days m) + 1) →
        128 ≤ slice_index octets 2 → verdict_of octets ≡ MarkedInvalid }
    ensures good { (octets : List ℕ) (m : Moment) → Names m octets → IsWithinRange m →
        m.day ≤ month_days m → (m.weekday ≡ 0) ⊎ (m.weekday ≡ weekday_number (days m) + 1) →
        slice_index octets 2 < 128 → verdict_of octets ≡ Good (instant m) }
{}
