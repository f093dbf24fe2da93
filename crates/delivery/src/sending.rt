//! In which order frames and actions go out.
ghost use Rattle.std.specs.Prelude.{◌≡◌, ◌∷◌, ◌++◌, ◌≤◌, ℕ, List};
ghost use Rattle.session.specs.declared.kinds.Close.{Close};
ghost use Rattle.session.specs.declared.kinds.Close.TheVariants.{Timeout};
ghost use Rattle.gateway.specs.Config.{Settings};
ghost use Rattle.gateway.specs.Log.{Log, Went, LineOut, TcpOut, Closed, GapOut};
ghost use Rattle.gateway.specs.Setups.{setup_of};
ghost use Rattle.gateway.specs.Traffic.{IsFaithful};
ghost use Rattle.delivery.specs.Octets.{AreActions};

use gateway::steps_keep_their_order;

/// A step puts out at most one request to the line, and at most one close. Behind a close nothing
/// goes to TCP. A gap is told before the request, and before a close by t1; and each close comes
/// before the request (profile).
pub fn each_step_asks_and_closes_once()
    ensures requests { (c : Settings) (newer actions older : Log) (now at : ℕ)
        (second first : List ℕ) → IsFaithful (setup_of c)
        (newer ++ Went now (LineOut second) ∷ (actions ++ Went at (LineOut first) ∷ older)) →
        AreActions actions → ⊥ }
    ensures closes { (c : Settings) (newer actions older : Log) (now at : ℕ)
        (second first : Close) → IsFaithful (setup_of c)
        (newer ++ Went now (Closed second) ∷ (actions ++ Went at (Closed first) ∷ older)) →
        AreActions actions → ⊥ }
    ensures octets { (c : Settings) (newer actions older : Log) (now at : ℕ) (octets : List ℕ)
        (cause : Close) → IsFaithful (setup_of c)
        (newer ++ Went now (TcpOut octets) ∷ (actions ++ Went at (Closed cause) ∷ older)) →
        AreActions actions → ⊥ }
    ensures closed { (c : Settings) (newer actions older : Log) (now at : ℕ) (cause : Close)
        (octets : List ℕ) → IsFaithful (setup_of c)
        (newer ++ Went now (Closed cause) ∷ (actions ++ Went at (LineOut octets) ∷ older)) →
        AreActions actions → ⊥ }
    ensures told { (c : Settings) (newer actions older : Log) (now at station session : ℕ)
        (octets : List ℕ) → IsFaithful (setup_of c)
        (newer ++ Went now (GapOut station session)
        ∷ (actions ++ Went at (LineOut octets) ∷ older)) → AreActions actions → ⊥ }
    ensures late { (c : Settings) (newer actions older : Log) (now at station session : ℕ) →
        IsFaithful (setup_of c) (newer ++ Went now (GapOut station session)
        ∷ (actions ++ Went at (Closed Timeout) ∷ older)) → AreActions actions → ⊥ }
{
    steps_keep_their_order();
}
