//! What the lines of a state mean.
ghost use Rattle.std.specs.Prelude.{◌≡◌, ◌≢◌, ◌+◌, ℕ, Bool, List, [], ◌∷◌, ◌++◌};
ghost use Rattle.std.specs.Prelude.{codes, false, length, true};
ghost use Rattle.std.specs.Fmt.{decimal};
ghost use Rattle.link.specs.Carried.{awaits_command};
ghost use Rattle.link.specs.Primary.{Primary};
ghost use Rattle.link.specs.declared.turn.StationState.{StationState};
ghost use Rattle.state.specs.declared.start.Beginning.{Beginning};
ghost use Rattle.state.specs.declared.start.Beginning.TheVariants as beginnings;
ghost use Rattle.state.specs.StationLines.{line, link_left, link_words, station_line};
ghost use Rattle.state.specs.StationLines.{station_lines};
ghost use Rattle.state.specs.StateText.{beginning_lines};

/// The first lines say how a run would begin, whatever was found: that another process has the
/// state, that the directory is marked, and what is made of the state, each in its own line. Of a
/// state that goes on, the next lines say the rest.
pub fn the_first_lines_say_how_a_run_begins()
    ensures anew { beginning_lines false false beginnings.Anew ≡ line (codes "state: begins anew") }
    ensures aside { beginning_lines false false beginnings.PutAside
        ≡ line (codes "state can't be read: put aside") }
    ensures stale { beginning_lines false false beginnings.LinksReset
        ≡ line (codes "state is stale: each link is reset") }
    ensures goes_on { beginning_lines false false beginnings.GoesOn ≡ [] }
    ensures marked { (beginning : Beginning) → beginning_lines false true beginning
        ≡ line (codes "the directory is marked as stale")
        ++ beginning_lines false false beginning }
    ensures held { (is_stale : Bool) (beginning : Beginning) →
        beginning_lines true is_stale beginning
        ≡ line (codes "state in use by another process")
        ++ beginning_lines false is_stale beginning }
{}

/// Each station has a line of its own, in their order, whatever is on the line: its address, its
/// link, its session, and whether a start gives up a command to it, or a reset leaves a gap.
pub fn each_station_has_its_line()
    ensures lines { (p : Primary) (before behind : List StationState) (s : StationState) →
        station_lines p 0 (before ++ s ∷ behind) ≡ station_lines p 0 before
        ++ station_line p (length before) s ++ station_lines p (length before + 1) behind }
    ensures plain { (p : Primary) (station : ℕ) (s : StationState) →
        awaits_command p station ≡ false → s.session.has_gap ≡ false → station_line p station s
        ≡ line (codes "station " ++ decimal s.address ++ link_words (link_left p station s)
        ++ codes ", session " ++ decimal s.session.number) }
    ensures given_up { (p : Primary) (station : ℕ) (s : StationState) →
        awaits_command p station ≡ true → s.session.has_gap ≡ false → station_line p station s
        ≡ line (codes "station " ++ decimal s.address ++ link_words (link_left p station s)
        ++ codes ", given up at a start, session " ++ decimal s.session.number) }
    ensures gap { (p : Primary) (station : ℕ) (s : StationState) →
        awaits_command p station ≡ false → s.session.has_gap ≡ true → station_line p station s
        ≡ line (codes "station " ++ decimal s.address ++ link_words (link_left p station s)
        ++ codes ", session " ++ decimal s.session.number ++ codes ", gap if it is reset") }
    ensures both { (p : Primary) (station : ℕ) (s : StationState) →
        awaits_command p station ≡ true → s.session.has_gap ≡ true → station_line p station s
        ≡ line (codes "station " ++ decimal s.address ++ link_words (link_left p station s)
        ++ codes ", given up at a start, session " ++ decimal s.session.number
        ++ codes ", gap if it is reset") }
{}
