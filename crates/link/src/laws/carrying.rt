//! What giving up the link to a station does to the line.
ghost use Rattle.std.specs.Prelude.{◌≡◌, ◌≢◌, ◌<◌, ℕ, Bool, true, false, List, length, slice_get};
ghost use Rattle.std.specs.Prelude.{Some, None, min};
ghost use Rattle.ft12.specs.declared.frame.Front.{Front};
ghost use Rattle.ft12.specs.declared.frame.LinkSize.{LinkSize};
ghost use Rattle.ft12.specs.Fronts.{front_of};
ghost use Rattle.link.specs.Exchanges.{Exchanges, given_up_at, reports_of_exchanges};
ghost use Rattle.link.specs.Gaps.{exchanges_at, gaps_at};
ghost use Rattle.link.specs.Marks.{latest_given_up};
ghost use Rattle.link.specs.Procedure.{LinkSettings, Down, Held};
ghost use Rattle.link.specs.Procedure.{Silence, Never, short_silence};
ghost use Rattle.link.specs.Turns.{StationState, station_at};
ghost use Rattle.link.specs.Answers.{Service, Command, Counted};
ghost use Rattle.link.specs.Primary.{Primary, Outstanding};
ghost use Rattle.link.specs.Leave.{is_polling};
ghost use Rattle.link.specs.Matching.{IsAllowed, Matches};
ghost use Rattle.link.specs.Carried.{awaits_command, station_given_up, given_up};
ghost use Rattle.link.specs.Carried.{gap_marked, released, station_carried, seated, reseated};
ghost use Rattle.link.specs.Carried.{bit_of, service_of, without_commands, awaits_command_in};
ghost use Rattle.link.specs.Carried.{commands_given_up, doubted};
ghost use Rattle.link.specs.declared.seat.ResumedStation.{ResumedStation};

/// A station whose link is given up awaits no command any more, and keeps all else; every other
/// station stays as it was, and awaits what it awaited. No poll is begun by it. A station awaits a
/// command that it holds, or that is out to it, whatever the command is.
pub fn giving_up_is_for_one_station()
    ensures done { (p : Primary) (k : ℕ) → k < length p.stations →
        awaits_command (given_up k p) k ≡ false }
    ensures itself { (p : Primary) (k : ℕ) → k < length p.stations →
        station_at (given_up k p).stations k ≡ station_given_up (station_at p.stations k) }
    ensures others { (p : Primary) (k j : ℕ) → j ≢ k →
        station_at (given_up k p).stations j ≡ station_at p.stations j }
    ensures awaited { (p : Primary) (k j : ℕ) → j ≢ k →
        awaits_command (given_up k p) j ≡ awaits_command p j }
    ensures held { (p : Primary) (k : ℕ) (fcb : Bool) (asdu : List ℕ)
        (silence : Silence) →
        (station_at p.stations k).link ≡ Held fcb (Command asdu) silence →
        awaits_command p k ≡ true }
    ensures out { (p : Primary) (o : Outstanding) (fcb : Bool) (asdu : List ℕ) →
        p.outstanding ≡ Some o → o.request ≡ Counted fcb (Command asdu) →
        awaits_command p p.turn ≡ true }
    ensures number { (p : Primary) (k : ℕ) → length (given_up k p).stations ≡ length p.stations }
    ensures polls { (p : Primary) (k : ℕ) →
        is_polling (given_up k p) ≡ true → is_polling p ≡ true }
{}

/// A station that goes on keeps its frame count bit. So it is when an exchange is broken off whose
/// request was one that may be sent, and when the station goes on with other settings. It goes on
/// in the seat that has its place, and in no other. It also keeps the service that has no answer,
/// which is sent again with that bit, and what its latest answer showed by ACD and DFC. How often
/// that service went unanswered counts on, up to the number of repeats that is set now.
pub fn frame_count_bits_go_on()
    ensures released { (p : Primary) (k : ℕ) → p.turn < length p.stations →
        IsAllowed p.stations p.turn p.outstanding →
        bit_of (station_at (released p).stations k).link ≡ bit_of (station_at p.stations k).link }
    ensures carried { (retries address : ℕ) (s : StationState) →
        bit_of (station_carried retries address s).link ≡ bit_of s.link }
    ensures seats { (settings : LinkSettings) (seats : List ResumedStation) (p : Primary) (i : ℕ)
        (seat : ResumedStation) → slice_get seats i ≡ Some seat →
        station_at (reseated settings seats p).stations i
        ≡ seated settings.retries seat.address p.stations seat.before }
    ensures number { (p : Primary) → length (released p).stations ≡ length p.stations }
    ensures service { (retries address : ℕ) (s : StationState) →
        service_of (station_carried retries address s).link ≡ service_of s.link }
    ensures missed { (retries address : ℕ) (silence : Silence) (s : StationState) (fcb : Bool)
        (service : Service) → s.link ≡ Held fcb service silence →
        (station_carried retries address s).link
        ≡ Held fcb service (short_silence (min retries silence.missed) Never) }
    ensures broken_off { (p : Primary) (o : Outstanding) (fcb : Bool) (service : Service) →
        p.turn < length p.stations → p.outstanding ≡ Some o → o.request ≡ Counted fcb service →
        service_of (station_at (released p).stations p.turn).link ≡ Some (Counted fcb service) }
    ensures flags { (retries address : ℕ) (s : StationState) →
        ((station_carried retries address s).acd ≡ s.acd)
        × ((station_carried retries address s).dfc ≡ s.dfc) }
    ensures released_flags { (p : Primary) (k : ℕ) →
        ((station_at (released p).stations k).acd ≡ (station_at p.stations k).acd)
        × ((station_at (released p).stations k).dfc ≡ (station_at p.stations k).dfc) }
{}

/// At new settings each seat has one station, with the address that is set for it, in the order of
/// the seats. One that wasn't there before begins with its link down, without flags and without a
/// session.
pub fn seats_have_their_addresses()
    ensures number { (settings : LinkSettings) (seats : List ResumedStation) (p : Primary) →
        length (reseated settings seats p).stations ≡ length seats }
    ensures address { (settings : LinkSettings) (seats : List ResumedStation) (p : Primary) (i : ℕ)
        (seat : ResumedStation) → slice_get seats i ≡ Some seat →
        (station_at (reseated settings seats p).stations i).address ≡ seat.address }
    ensures new { (settings : LinkSettings) (seats : List ResumedStation) (p : Primary) (i : ℕ)
        (seat : ResumedStation) → slice_get seats i ≡ Some seat → seat.before ≡ None →
        station_at (reseated settings seats p).stations i ≡ record {
          address = seat.address;
          link = Down;
          acd = false;
          dfc = false;
          session = record { number = 0; has_gap = false };
          unsure = false;
        } }
{}

/// What is known of a station's session outlives a restart. When its link is given up, an exchange
/// is broken off, or it goes on with other settings, two things are kept until the next reset is
/// answered: its session's number, and that its last report may be lost. So a gap is reported then.
/// When it is marked, the station's own session has a gap. Nothing else of the station changes, and
/// no other station.
pub fn sessions_go_on()
    ensures given_up { (p : Primary) (k j : ℕ) →
        (station_at (given_up k p).stations j).session ≡ (station_at p.stations j).session }
    ensures released { (p : Primary) (j : ℕ) →
        (station_at (released p).stations j).session ≡ (station_at p.stations j).session }
    ensures carried { (retries address : ℕ) (s : StationState) →
        (station_carried retries address s).session ≡ s.session }
    ensures marked { (p : Primary) (k : ℕ) → k < length p.stations →
        (station_at (gap_marked k p).stations k).session
        ≡ record (station_at p.stations k).session { has_gap = true } }
    ensures alone { (p : Primary) (k : ℕ) → k < length p.stations →
        station_at (gap_marked k p).stations k ≡ record (station_at p.stations k) {
          session = (station_at (gap_marked k p).stations k).session;
        } }
    ensures others { (p : Primary) (k j : ℕ) → j ≢ k →
        station_at (gap_marked k p).stations j ≡ station_at p.stations j }
{}

/// If a primary matches the exchanges of its line, it still matches them after giving up. By them a
/// station awaits a command exactly if the machine says so. The link that is given up is the link
/// of the exchanges that are marked, at one station and at all that await a command. The reports of
/// the exchanges stay what they were. So do the sessions of a station that ended with a gap.
pub fn giving_up_is_logged()
    ensures awaits { (settings : LinkSettings) (addresses : List ℕ) (p : Primary) (e : Exchanges)
        (k : ℕ) → Matches settings addresses p e →
        awaits_command p k ≡ awaits_command_in settings (front_of settings.size) addresses k e }
    ensures one { (settings : LinkSettings) (addresses : List ℕ) (p : Primary) (e : Exchanges)
        (k : ℕ) → k < length p.stations → Matches settings addresses p e →
        Matches settings addresses (given_up k p) (given_up_at k e) }
    ensures all { (settings : LinkSettings) (addresses : List ℕ) (p : Primary) (e : Exchanges) →
        Matches settings addresses p e →
        Matches settings addresses (without_commands p)
        (commands_given_up settings (front_of settings.size) addresses e) }
    ensures doubted { (settings : LinkSettings) (addresses : List ℕ) (p : Primary)
        (e : Exchanges) → Matches settings addresses p e →
        Matches settings addresses (doubted p) e }
    ensures reports { (settings : LinkSettings) (size : LinkSize) (addresses : List ℕ)
        (address : ℕ → ℕ) (e : Exchanges) →
        reports_of_exchanges (front_of size) address
        (commands_given_up settings (front_of size) addresses e)
        ≡ reports_of_exchanges (front_of size) address e }
    ensures gaps { (settings : LinkSettings) (size : LinkSize) (addresses : List ℕ)
        (e : Exchanges) (station : ℕ) →
        gaps_at (front_of size) addresses station
        (commands_given_up settings (front_of size) addresses e)
        ≡ gaps_at (front_of size) addresses station e }
{}

/// The mark of a link that was given up stands behind the latest exchange with its station, and
/// behind no other.
pub fn the_latest_exchange_is_marked()
    // A mark, and no exchange of its own: nothing goes out when a link is given up
    // (docs/DECISIONS.md, "A mark for a link given up").
    ensures itself { (front : List ℕ → Front) (k : ℕ) (e : Exchanges) →
        exchanges_at front k (given_up_at k e) ≡ latest_given_up (exchanges_at front k e) }
    ensures others { (front : List ℕ → Front) (k j : ℕ) (e : Exchanges) → j ≢ k →
        exchanges_at front j (given_up_at k e) ≡ exchanges_at front j e }
{}
