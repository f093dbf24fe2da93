//! What a primary station makes of ACD and DFC.
ghost use Rattle.std.specs.Prelude.{◌≡◌, ◌==◌, ◌/◌, ◌%◌, ◌++◌, ◌∷◌, ℕ, Bool, false, List, Option};
ghost use Rattle.std.specs.Prelude.{Some};
ghost use Rattle.ft12.specs.Fronts.{front_of};
ghost use Rattle.link.specs.Exchanges.{Exchanges, Sending};
ghost use Rattle.link.specs.Flags.{Heeds, flags_at, link_at};
ghost use Rattle.link.specs.Procedure.{LinkSettings, is_held};
ghost use Rattle.link.specs.Turns.{CommandsWaiting, station_at};
ghost use Rattle.link.specs.Primary.{Primary, sending};
ghost use Rattle.link.specs.Matching.{Matches};

/// A primary keeps of each station the flags of its latest answer, and heeds them: a poll of class
/// 1 that is no repeat goes out only with ACD set, one of class 2 only with ACD clear, and a
/// command for the first time only with DFC clear.
pub fn flags_are_heeded()
    ensures acd { (settings : LinkSettings) (addresses : List ℕ) (p : Primary) (e : Exchanges)
        (station : ℕ) → Matches settings addresses p e →
        (station_at p.stations station).acd
        ≡ (flags_at (front_of settings.size) addresses station e).acd }
    ensures dfc { (settings : LinkSettings) (addresses : List ℕ) (p : Primary) (e : Exchanges)
        (station : ℕ) → Matches settings addresses p e →
        (station_at p.stations station).dfc
        ≡ (flags_at (front_of settings.size) addresses station e).dfc }
    ensures heeds { (settings : LinkSettings) (addresses : List ℕ) (p : Primary) (e : Exchanges)
        (may_poll : Bool) (waiting : CommandsWaiting) (s : Sending) →
        Matches settings addresses p e → sending p may_poll waiting ≡ Some s →
        is_held (link_at settings (front_of settings.size) addresses s.station e) ≡ false →
        Heeds (flags_at (front_of settings.size) addresses s.station e) s.request }
{}
