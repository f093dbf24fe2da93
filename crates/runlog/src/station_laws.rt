//! Laws of what is logged of the stations, and of how each of them stands.
ghost use Rattle.std.specs.Prelude.{◌≡◌, ℕ, ◌+◌, ◌^◌, ◌<◌, ◌≤◌, List, ◌∷◌, ◌++◌, length};
ghost use Rattle.std.specs.Prelude.{None, map, ◌≢◌, ◌⊎◌, if◌then◌else◌};
ghost use Rattle.gateway.specs.Config.{Settings};
ghost use Rattle.gateway.specs.Log.{GapOut, LineOut};
ghost use Rattle.runlog.specs.Passing.{Passed, Went, passed, watched};
ghost use Rattle.runlog.specs.Watching.{Watching, new_watching};
ghost use Rattle.runlog.specs.Ends.{is_away};
ghost use Rattle.runlog.specs.Standings.{IsNoRequest};
ghost use Rattle.runlog.specs.Standings.{after, missed, seat, seat_of, stands};
ghost use Rattle.runlog.specs.Stations.{asked, gap, new_station, standing_of, station_asked};
ghost use Rattle.runlog.specs.declared.note.Note.TheVariants as note;
ghost use Rattle.runlog.specs.declared.stations.Asking.{Asking};
ghost use Rattle.runlog.specs.declared.stations.LinkKnown.TheVariants as known;
ghost use Rattle.runlog.specs.declared.stations.StationLogged.TheVariants as logged;
ghost use Rattle.runlog.specs.declared.stations.StationWatch.{StationWatch};

/// Each station has a watch, at its place in the settings, whatever passes, and counts of its own
/// there. What goes out to the line while that is there, and a gap, are noted in these watches;
/// nothing else changes one. While the line is away nothing is logged of a station but a gap.
pub fn each_station_has_its_own_watch()
    ensures request { (octets : List ℕ) (now : ℕ) (w : Watching) → (
      (passed (Went now (LineOut octets)) w).0.stations,
      (passed (Went now (LineOut octets)) w).1,
    ) ≡ (if is_away w.line.presence then (w.stations, None)
        else asked w.link octets now w.stations) }
    ensures gap { (station session now : ℕ) (w : Watching) → (
      (passed (Went now (GapOut station session)) w).0.stations,
      (passed (Went now (GapOut station session)) w).1,
    ) ≡ gap station now w.stations }
    ensures nothing { (p : Passed) (w : Watching) → IsNoRequest p →
        (passed p w).0.stations ≡ w.stations }
    ensures places { (c : Settings) (ps : List Passed) →
        map seat (watched (new_watching c) ps).stations
        ≡ map (seat_of (c.line.retries + 1)) c.stations }
    ensures counts { (c : Settings) (ps : List Passed) →
        map (λ t. t.address) (watched (new_watching c) ps).traffic
        ≡ map (λ s. s.address) c.stations }
    ensures size { (c : Settings) (ps : List Passed) →
        (watched (new_watching c) ps).link ≡ c.line.link }
{}

/// A station doesn't answer if the latest request has gone out to it more often than a station that
/// is there lets it: a service with one frame count bit, or the question for the status. Else it is
/// up once it has answered a service, down if its link went down since, and asked before either.
/// Since when it stands so is the moment of the request that made it stand so. Gaps are counted one
/// by one.
pub fn a_station_stands_as_its_requests_say()
    ensures standing { (tries address : ℕ) (requests : List (ℕ × Asking)) →
        length requests < 2 ^ 64 →
        standing_of (after (new_station tries address) requests)
        ≡ stands tries requests }
    ensures since { (w : StationWatch) (asking : Asking) (now : ℕ) →
        (standing_of (station_asked asking now w).0 ≡ standing_of w → ⊥) →
        (station_asked asking now w).0.since ≡ now }
    ensures still { (w : StationWatch) (asking : Asking) (now : ℕ) →
        standing_of (station_asked asking now w).0 ≡ standing_of w →
        (station_asked asking now w).0.since ≡ w.since }
    ensures gaps { (tries address : ℕ) (requests : List (ℕ × Asking)) →
        length requests < 2 ^ 64 →
        (after (new_station tries address) requests).gaps ≡ missed requests }
    ensures address { (w : StationWatch) (requests : List (ℕ × Asking)) →
        (after w requests).address ≡ w.address }
{}
