//! How old a command with a time tag is.
ghost use Rattle.std.specs.Prelude.{◌≡◌, ◌<◌, ◌≤◌, ◌+◌, ◌%◌, ◌++◌, ℕ, true, false, List, Some};
ghost use Rattle.std.specs.Prelude.{None};
ghost use Rattle.elements.specs.TimeTag.{verdict_of};
ghost use Rattle.elements.specs.declared.tag.Verdict.TheVariants.{Good};
ghost use Rattle.command.specs.Numbers.{Numbers, command_with};
ghost use Rattle.command.specs.Standard.{not_fresh};
ghost use Rattle.delivery.specs.Ages.{CalendarTime, IsOfCalendar, since_1970, tag_octets};

use command::rules_hold_for_all_numbers;
use elements::tags_of_moments_are_good;

/// A command with a time tag is as old as the moment that its tag names, whatever moment of the
/// years 2000 to 2099 that is (IEC 60870-5-101, 7.2.6.18; IEC 60870-5-104, 8). It isn't refused for
/// its age if the wall clock shows at most `max_age_ms` more or less. As an activation it is
/// refused if the clock shows more than that, or less, and if the clock isn't known (profile).
pub fn tags_are_as_old_as_the_moment_that_they_name()
    ensures instant { (t : CalendarTime) → IsOfCalendar t →
        verdict_of (tag_octets t) ≡ Good (since_1970 t) }
    ensures fresh { (max_age_ms clock kind : ℕ) (n : Numbers) (element : List ℕ)
        (t : CalendarTime) → IsOfCalendar t → clock ≤ since_1970 t + max_age_ms →
        since_1970 t ≤ clock + max_age_ms →
        (not_fresh max_age_ms (Some clock) (command_with kind n (element ++ tag_octets t))).applies
        ≡ false }
    ensures old { (max_age_ms clock kind : ℕ) (n : Numbers) (element : List ℕ)
        (t : CalendarTime) → IsOfCalendar t → 58 ≤ kind → kind ≤ 62 → n.cause % 64 ≡ 6 →
        since_1970 t + max_age_ms < clock →
        (not_fresh max_age_ms (Some clock) (command_with kind n (element ++ tag_octets t))).applies
        ≡ true }
    ensures ahead { (max_age_ms clock kind : ℕ) (n : Numbers) (element : List ℕ)
        (t : CalendarTime) → IsOfCalendar t → 58 ≤ kind → kind ≤ 62 → n.cause % 64 ≡ 6 →
        clock + max_age_ms < since_1970 t →
        (not_fresh max_age_ms (Some clock) (command_with kind n (element ++ tag_octets t))).applies
        ≡ true }
    ensures no_clock { (max_age_ms kind : ℕ) (n : Numbers) (rest : List ℕ) → 58 ≤ kind →
        kind ≤ 62 → n.cause % 64 ≡ 6 →
        (not_fresh max_age_ms None (command_with kind n rest)).applies ≡ true }
{
    rules_hold_for_all_numbers();
    tags_of_moments_are_good();
}
