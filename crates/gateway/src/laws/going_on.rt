//! What becomes of each station when a gateway goes on with other settings.
ghost use Rattle.std.specs.Prelude.{◌≡◌, ◌<◌, ℕ, [], Bool, true, Some, None, length};
ghost use Rattle.std.specs.Prelude.{slice_get};
ghost use Rattle.link.specs.Procedure.{is_up};
ghost use Rattle.link.specs.Turns.{station_at};
ghost use Rattle.link.specs.Carried.{released, station_carried};
ghost use Rattle.gateway.specs.declared.settings.StationSettings.{StationSettings};
ghost use Rattle.gateway.specs.Config.{Settings};
ghost use Rattle.gateway.specs.State.{State};
ghost use Rattle.gateway.specs.Carried.{place_of, start_of, station_new, station_started};
ghost use Rattle.gateway.specs.Carried.{carried};
ghost use Rattle.gateway.specs.Unchanged.{MayGoOn};

use link::{
    frame_count_bits_go_on, giving_up_is_for_one_station, restarts_change_no_link,
    seats_have_their_addresses,
};

/// Each station of the new settings is the one that had its link address before, whatever places
/// they have: it goes on, or its link is down, as the table says of it, and of no other. If it goes
/// on it has the link that it had (so its frame count bit, by `frame_count_bits_go_on`), what its
/// latest answer showed and its session. One that wasn't there is new, and its session has a gap,
/// which its first answered reset reports. For it may have been a station earlier, and have left in
/// the middle of a poll, so that a report of it was lost.
pub fn stations_go_on_by_their_addresses()
    ensures known { (goes_on : Bool) (before now : Settings) (s : State) (i k : ℕ)
        (station : StationSettings) →
        slice_get now.stations i ≡ Some station →
        place_of station.address before.stations ≡ Some k →
        k < length s.serial.line.stations →
        station_at (carried goes_on before now s).serial.line.stations i
        ≡ station_carried now.line.retries station.address
        (station_started (start_of goes_on before now k)
        (station_at (released s.serial.line).stations k)) }
    ensures other { (goes_on : Bool) (before now : Settings) (s : State) (i : ℕ)
        (station : StationSettings) →
        slice_get now.stations i ≡ Some station →
        place_of station.address before.stations ≡ None →
        station_at (carried goes_on before now s).serial.line.stations i
        ≡ station_new station.address }
{
    giving_up_is_for_one_station();
    restarts_change_no_link();
    frame_count_bits_go_on();
    seats_have_their_addresses();
}

/// No link is up when a gateway goes on with other settings, but that of a station which is set as
/// it was, in a state that is trusted. Each other link is reset before its next service: that of a
/// new station, that of one whose common address or guard has changed, each if numbers have other
/// sizes, and each if a state is stale. So no frame count bit is carried into a link whose station
/// may have taken another one, and no held service into another station.
pub fn no_link_goes_on_but_of_a_station_as_it_was()
    ensures { (goes_on : Bool) (before now : Settings) (s : State) (i : ℕ)
        (station : StationSettings) →
        length s.serial.line.stations ≡ length before.stations →
        slice_get now.stations i ≡ Some station →
        is_up (station_at (carried goes_on before now s).serial.line.stations i).link ≡ true →
        MayGoOn goes_on before now station.address }
{
    stations_go_on_by_their_addresses();
}
