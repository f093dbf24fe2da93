//! What the lines of a record say, by worked examples: literal texts.
ghost use Rattle.std.specs.Prelude.{◌≡◌, ◌++◌, ◌∷◌, [], codes, true, false, Some, None};
ghost use Rattle.record.specs.Examples.{line};
ghost use Rattle.record.specs.Lines.{event_lines, first_difference, first_state, is_action};
ghost use Rattle.record.specs.Lines.{is_cut, leaves_out, record_lines, whole_lines};

/// Which lines of a record are whole, which log an action, which were cut short and which say that
/// lines are left out; the lines of its events; its first line that isn't the run's; and the state
/// that its first lines say (docs/TEXTS.md has them in words).
pub fn record_lines_by_example()
    ensures lines { (whole_lines (line (codes "1 T") ++ codes "1 > S 10") ≡ codes "1 T" ∷ [])
        × (whole_lines [] ≡ []) }
    ensures kinds { (is_action (codes "1 > S 1049") ≡ true) × (is_action (codes "1 S 1049") ≡ false)
        × (is_action (codes "1 > S 10!") ≡ false) × (is_action [] ≡ false)
        × (is_cut (codes "1 > S 10!") ≡ true) × (is_cut (codes "1 > S 10") ≡ false)
        × (leaves_out (codes "# left out: 7 lines") ≡ true)
        × (leaves_out (codes "1 > S 10") ≡ false) }
    ensures events { event_lines (whole_lines (line (codes "0 W 5") ++ line (codes "0 > S 1049")
        ++ line (codes "10 S 10!") ++ line (codes "10 S E5") ++ codes "10 > S"))
        ≡ codes "0 W 5" ∷ [] ∷ [] ∷ codes "10 S E5" ∷ [] }
    ensures state { (first_state (codes "# state: 7 2" ∷ codes "# state: x1F" ∷ codes "7 T"
        ∷ codes "# state: 9" ∷ []) ≡ codes "7 2" ++ 10 ∷ codes "x1F" ++ 10 ∷ [])
        × (record_lines (line (codes "# state: 7 2") ++ line (codes "7 T")
        ++ line (codes "# state: 9")) ≡ codes "!" ∷ codes "7 T" ∷ codes "# state: 9" ∷ []) }
    ensures differences { (first_difference 1 (codes "1 T" ∷ codes "2 T" ∷ [])
        (codes "1 T" ∷ codes "3 T" ∷ []) ≡ Some 2)
        × (first_difference 1 (codes "1 T" ∷ []) (codes "1 T" ∷ codes "3 T" ∷ []) ≡ None)
        × (first_difference 1 (codes "1 T" ∷ codes "2 T" ∷ []) (codes "1 T" ∷ []) ≡ Some 2)
        × (first_difference 1 (codes "1 T" ∷ codes "2!" ∷ codes "2 T" ∷ [])
        (codes "1 T" ∷ codes "2 T" ∷ []) ≡ None) }
{}
