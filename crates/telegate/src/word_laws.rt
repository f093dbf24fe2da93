//! What words ask for that are any paths.
ghost use Rattle.std.specs.Prelude.{◌≡◌, ◌∷◌, ◌==◌, [], List, codes, true, false, Some, None};
ghost use Rattle.clap.specs.Words.{Row, Text};
ghost use Rattle.telegate.specs.Examples.{AskCheck, AskReplay, AskSim, AskState, AskStatus};
ghost use Rattle.telegate.specs.Examples.{AskStations, AskTwo};
ghost use Rattle.telegate.specs.declared.command_line.CommandRequest.TheVariants.{Audit, Capture};

/// Each path from the root (`/`, 47) is taken as it stands: whatever it is, it is the file, the
/// directory or the place that its word says, and the second one never stands for the first. The
/// settings beside a directory may be left out, and so may a site.
pub fn paths_are_taken_as_they_stand()
    ensures states { (a b : Text) → AskState (codes "state" ∷ (47 ∷ a) ∷ []) (47 ∷ a) None false
        × AskState (codes "state" ∷ (47 ∷ a) ∷ (47 ∷ b) ∷ codes "--reports" ∷ []) (47 ∷ a)
        (Some (47 ∷ b)) true }
    ensures files { (a b : Text) →
        AskTwo (codes "audit" ∷ (47 ∷ a) ∷ (47 ∷ b) ∷ []) Audit (47 ∷ a) (47 ∷ b)
        × AskTwo (codes "capture" ∷ (47 ∷ a) ∷ (47 ∷ b) ∷ []) Capture (47 ∷ a) (47 ∷ b)
        × AskStations (codes "stations" ∷ (47 ∷ a) ∷ (47 ∷ b) ∷ []) (47 ∷ a) (47 ∷ b) false }
    ensures checks { (a b : Text) →
        AskCheck (codes "check" ∷ (47 ∷ a) ∷ []) (47 ∷ a) None false false
        × AskCheck (codes "check" ∷ codes "--site" ∷ (47 ∷ b) ∷ (47 ∷ a) ∷ codes "--live" ∷ [])
        (47 ∷ a) (Some (47 ∷ b)) true false }
    ensures sims { (a b : Text) →
        AskSim (codes "sim" ∷ (47 ∷ a) ∷ (47 ∷ b) ∷ []) (47 ∷ a) (47 ∷ b) false false }
    ensures replays { (a b : Text) →
        AskReplay (codes "replay" ∷ (47 ∷ a) ∷ (47 ∷ b) ∷ codes "--counts" ∷ [])
        (47 ∷ a) (47 ∷ b) false true false false }
    ensures statuses { (a : Text) →
        AskStatus (codes "status" ∷ (47 ∷ a) ∷ codes "--json" ∷ []) (47 ∷ a) true }
{}
