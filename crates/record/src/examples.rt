//! Records by worked examples: literal texts.
ghost use Rattle.std.specs.Prelude.{◌≡◌, ◌++◌, ◌∷◌, [], codes};
ghost use Rattle.gateway.specs.Log.{Came, Went, Opened, CutOff, Ticked, WallIs, Closed, GapOut};
ghost use Rattle.session.specs.declared.kinds.Close.TheVariants.{Stopped};
ghost use Rattle.record.specs.Examples.{line};
ghost use Rattle.record.specs.Written.{log_in};

/// What a text logs (docs/TEXTS.md has its lines in words), the newest first: the lines of events
/// and of actions, in their order; and nothing if a line is none, or lacks its line feed.
pub fn texts_are_read_by_example()
    ensures events { (log_in (line (codes "0 W 1709") ++ line (codes "30 O") ++ line (codes "50 C")
        ++ line (codes "60 T"))
        ≡ Came 60 Ticked ∷ Came 50 CutOff ∷ Came 30 Opened ∷ Came 0 (WallIs 1709) ∷ []) }
    // What octets stand in hexadecimal `traces` says.
    ensures actions { (log_in (line (codes "20 T") ++ line (codes "20 > X 4")
        ++ line (codes "30 > G 1 2"))
        ≡ Went 30 (GapOut 0 2) ∷ Went 20 (Closed Stopped) ∷ Came 20 Ticked ∷ []) }
    ensures none { (log_in [] ≡ []) × (log_in (line (codes "5 T") ++ codes "6 T") ≡ [])
        × (log_in (line (codes "5 T") ++ line (codes "six")) ≡ []) }
{}
