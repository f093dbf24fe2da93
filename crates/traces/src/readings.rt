//! What lines of a trace log, by worked examples: literal texts.
ghost use Rattle.std.specs.Prelude.{◌≡◌, ◌++◌, ◌∷◌, [], codes, true, false, Some, None};
ghost use Rattle.traces.specs.Event.{line, opening, received, cut, tick, wall};
ghost use Rattle.traces.specs.Trace.{first_wrong, is_skipped, lines_of, logged};

/// What each line of a trace logs, the edges of its numbers, what no line logs, and the first wrong
/// line of a text (docs/TEXTS.md has them in words).
pub fn trace_lines_by_example()
    ensures events { (logged (codes "10 S E500") ≡ Some (line 10 (229 ∷ 0 ∷ [])))
        × (logged (codes "40 R 680b") ≡ Some (received 40 (104 ∷ 11 ∷ [])))
        × (logged (codes "30 O") ≡ Some (opening 30)) × (logged (codes "50 C") ≡ Some (cut 50))
        × (logged (codes "060 T") ≡ Some (tick 60))
        × (logged (codes "45 W 1709") ≡ Some (wall 45 1709)) }
    ensures numbers { (logged (codes "999999999999999 T") ≡ Some (tick 999999999999999))
        × (logged (codes " T") ≡ None)
        × (logged (codes "x T") ≡ None) × (logged (codes "+1 T") ≡ None)
        × (logged (codes "1 W 999999999999999") ≡ Some (wall 1 999999999999999))
        × (logged (codes "1 W ") ≡ None) }
    ensures fields { (logged (codes "10 t") ≡ None) × (logged (codes "10  T") ≡ None)
        × (logged (codes "10 T ") ≡ None) × (logged (codes "10 S") ≡ None)
        × (logged (codes "10 T 00") ≡ None) × (logged (codes "10 O 00") ≡ None)
        × (logged (codes "10 > S 00") ≡ None) }
    ensures octets { (logged (codes "10 S 0") ≡ None) × (logged (codes "10 S ") ≡ None) }
    ensures skipped { (is_skipped [] ≡ true) × (is_skipped (codes "# 10 T") ≡ true)
        × (is_skipped (codes " # 10 T") ≡ false) × (logged (codes "# 10 T") ≡ None) }
    ensures texts { (first_wrong 1 (lines_of (codes "10 T" ++ 10 ∷ [])) ≡ None)
        × (first_wrong 1 (lines_of (codes "10 T" ++ 10 ∷ 10 ∷ codes "# 1" ++ 10 ∷ codes "x"))
        ≡ Some 4)
        × (first_wrong 1 (lines_of (codes "10 T" ++ 13 ∷ 10 ∷ [])) ≡ Some 1)
        × (first_wrong 1 (lines_of []) ≡ None) }
{}
