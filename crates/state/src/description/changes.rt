//! Which settings differ from those under which a state was kept.
ghost use Rattle.std.specs.Prelude.{◌≡◌, ◌++◌, OnOk, string_bytes};
ghost use Rattle.std.specs.List.{flat_map};
ghost use Rattle.asdu.specs.Sizes.{ca_len, cause_len, ioa_len};
ghost use Rattle.state.specs.ChangedSettings as spec;

use asdu::{CaSize, CauseSize, IoaSize};
use ft12::LinkSize;
use gateway::{Config, LineSettings, Silence, StationSettings, TcpSettings};
use std::alloc::AllocError;

/// The values of a key that differs.
fn push_values(text: &mut String, kept: u64, now: u64) -> Result<(), AllocError>
    ensures { OnOk result (string_bytes text.new ≡ string_bytes text.old
        ++ spec.values kept now) }
{
    writeln!(text, ": kept {kept}, now {now}")
}

/// The line of a key, if its number differs.
fn push_number(text: &mut String, key: &str, kept: u64, now: u64) -> Result<(), AllocError>
    ensures { OnOk result (string_bytes text.new ≡ string_bytes text.old
        ++ spec.number_line key.now kept now) }
{
    if kept == now {
        return Ok(());
    }
    text.push_str(key)?;
    push_values(text, kept, now)
}

/// What a flag or a word is, and was.
fn flag_values(kept: bool, now: bool) -> &'static str
    ensures { result.now ≡ spec.flag_values kept now }
{
    match (kept, now) {
        (true, true) | (false, false) => "",
        (true, false) => ": kept true, now false\n",
        (false, true) => ": kept false, now true\n",
    }
}

/// How many octets a link address has.
fn link_octets(size: LinkSize) -> u64
    ensures { result ≡ spec.link_octets size }
{
    match size {
        LinkSize::One => 1,
        LinkSize::Two => 2,
    }
}

/// How many octets a cause has.
fn cause_octets(size: CauseSize) -> u64
    ensures { result ≡ cause_len size }
{
    match size {
        CauseSize::One => 1,
        CauseSize::Two => 2,
    }
}

/// How many octets a common address has.
fn ca_octets(size: CaSize) -> u64
    ensures { result ≡ ca_len size }
{
    match size {
        CaSize::One => 1,
        CaSize::Two => 2,
    }
}

/// How many octets an object's address has.
fn ioa_octets(size: IoaSize) -> u64
    ensures { result ≡ ioa_len size }
{
    match size {
        IoaSize::One => 1,
        IoaSize::Two => 2,
        IoaSize::Three => 3,
    }
}

/// The line of `link`, if that differs.
fn push_link(text: &mut String, kept: LinkSize, now: LinkSize) -> Result<(), AllocError>
    ensures { OnOk result (string_bytes text.new ≡ string_bytes text.old
        ++ spec.link_line kept now) }
{
    push_number(text, "line.link", link_octets(kept), link_octets(now))
}

/// The line of `cause`, if that differs.
fn push_cause(text: &mut String, kept: CauseSize, now: CauseSize) -> Result<(), AllocError>
    ensures { OnOk result (string_bytes text.new ≡ string_bytes text.old
        ++ spec.cause_line kept now) }
{
    push_number(text, "line.cause", cause_octets(kept), cause_octets(now))
}

/// The line of `ca`, if that differs.
fn push_ca_size(text: &mut String, kept: CaSize, now: CaSize) -> Result<(), AllocError>
    ensures { OnOk result (string_bytes text.new ≡ string_bytes text.old
        ++ spec.ca_size_line kept now) }
{
    push_number(text, "line.ca", ca_octets(kept), ca_octets(now))
}

/// The line of `ioa`, if that differs.
fn push_ioa(text: &mut String, kept: IoaSize, now: IoaSize) -> Result<(), AllocError>
    ensures { OnOk result (string_bytes text.new ≡ string_bytes text.old
        ++ spec.ioa_line kept now) }
{
    push_number(text, "line.ioa", ioa_octets(kept), ioa_octets(now))
}

/// The line of `silence`, if that differs.
fn push_silence(text: &mut String, kept: Silence, now: Silence) -> Result<(), AllocError>
    ensures { OnOk result (string_bytes text.new ≡ string_bytes text.old
        ++ spec.silence_line kept now) }
{
    match (kept, now) {
        (Silence::Hold, Silence::Hold) | (Silence::Reset, Silence::Reset) => Ok(()),
        (Silence::Hold, Silence::Reset) => text.push_str("line.silence: kept hold, now reset\n"),
        (Silence::Reset, Silence::Hold) => text.push_str("line.silence: kept reset, now hold\n"),
    }
}

/// The lines of the sizes.
fn push_sizes(text: &mut String, kept: &LineSettings, now: &LineSettings) -> Result<(), AllocError>
    ensures { OnOk result (string_bytes text.new ≡ string_bytes text.old
        ++ spec.size_lines kept.now now.now) }
{
    push_link(text, kept.link, now.link)?;
    push_cause(text, kept.sizes.cause, now.sizes.cause)?;
    push_ca_size(text, kept.sizes.ca, now.sizes.ca)?;
    push_ioa(text, kept.sizes.ioa, now.sizes.ioa)
}

/// The lines of `answer_ms` and `retries`.
fn push_answer_keys(
    text: &mut String,
    kept: &LineSettings,
    now: &LineSettings,
) -> Result<(), AllocError>
    ensures { OnOk result (string_bytes text.new ≡ string_bytes text.old
        ++ spec.answer_lines kept.now now.now) }
{
    push_number(text, "line.answer_ms", kept.answer_ms, now.answer_ms)?;
    push_number(
        text,
        "line.retries",
        kept.retries.into(),
        now.retries.into(),
    )
}

/// The lines of `burst` and `queue`.
fn push_queues(text: &mut String, kept: &LineSettings, now: &LineSettings) -> Result<(), AllocError>
    ensures { OnOk result (string_bytes text.new ≡ string_bytes text.old
        ++ spec.queue_lines kept.now now.now) }
{
    push_number(text, "line.burst", kept.burst.into(), now.burst.into())?;
    push_number(text, "line.queue", kept.queue.into(), now.queue.into())
}

/// The lines of the keys of the line that are no sizes.
fn push_polling(
    text: &mut String,
    kept: &LineSettings,
    now: &LineSettings,
) -> Result<(), AllocError>
    ensures { OnOk result (string_bytes text.new ≡ string_bytes text.old
        ++ spec.polling_lines kept.now now.now) }
{
    push_answer_keys(text, kept, now)?;
    push_silence(text, kept.silence, now.silence)?;
    push_queues(text, kept, now)
}

/// The lines of the connection.
fn push_connection(
    text: &mut String,
    kept: &TcpSettings,
    now: &TcpSettings,
) -> Result<(), AllocError>
    ensures { OnOk result (string_bytes text.new ≡ string_bytes text.old
        ++ spec.connection_lines kept.now now.now) }
{
    push_number(text, "tcp.k", kept.k.into(), now.k.into())?;
    push_number(text, "tcp.w", kept.w.into(), now.w.into())?;
    push_number(text, "tcp.t1_ms", kept.t1_ms, now.t1_ms)?;
    push_number(text, "tcp.t2_ms", kept.t2_ms, now.t2_ms)?;
    push_number(text, "tcp.t3_ms", kept.t3_ms, now.t3_ms)?;
    push_number(text, "tcp.select_ms", kept.select_ms, now.select_ms)?;
    push_number(text, "tcp.max_age_ms", kept.max_age_ms, now.max_age_ms)
}

/// Whether these stations have the same link addresses in the same order.
fn are_same_addresses(kept: &[StationSettings], now: &[StationSettings]) -> bool
    ensures { result ≡ spec.are_same_addresses kept.now now.now }
{
    let (mut left, mut right) = (kept, now);
    while let [station, more @ ..] = left {
        let [other, others @ ..] = right else {
            return false;
        };
        if station.address != other.address {
            return false;
        }
        left = more;
        right = others;
    }
    right.is_empty()
}

/// The link addresses, in the order of turns.
fn push_addresses(text: &mut String, stations: &[StationSettings]) -> Result<(), AllocError>
    ensures { OnOk result (string_bytes text.new ≡ string_bytes text.old
        ++ spec.addresses stations.now) }
{
    let mut left = stations;
    while let [station, more @ ..] = left {
        let address = station.address;
        write!(text, " {address}")?;
        left = more;
    }
    Ok(())
}

/// The line of the link addresses, if they differ or their order does.
fn push_order(
    text: &mut String,
    kept: &[StationSettings],
    now: &[StationSettings],
) -> Result<(), AllocError>
    ensures { OnOk result (string_bytes text.new ≡ string_bytes text.old
        ++ spec.order_line (spec.are_same_addresses kept.now now.now) kept.now now.now) }
{
    if are_same_addresses(kept, now) {
        return Ok(());
    }
    text.push_str("station.address: kept")?;
    push_addresses(text, kept)?;
    text.push_str(", now")?;
    push_addresses(text, now)?;
    text.push_str("\n")
}

/// The station with this link address.
fn station_at(address: u16, stations: &[StationSettings]) -> Option<StationSettings>
    ensures { result ≡ spec.station_at address stations.now }
{
    let mut left = stations;
    while let [station, more @ ..] = left {
        if station.address == address {
            return Some(*station);
        }
        left = more;
    }
    None
}

/// The line of a station's common address, if that differs.
fn push_ca(text: &mut String, address: u16, kept: u16, now: u16) -> Result<(), AllocError>
    ensures { OnOk result (string_bytes text.new ≡ string_bytes text.old
        ++ spec.ca_line address kept now) }
{
    if kept == now {
        return Ok(());
    }
    write!(text, "station {address}, ca")?;
    push_values(text, kept.into(), now.into())
}

/// The line of a station's `select`, if that differs.
fn push_select(text: &mut String, address: u16, kept: bool, now: bool) -> Result<(), AllocError>
    ensures { OnOk result (string_bytes text.new ≡ string_bytes text.old
        ++ spec.select_line address kept now) }
{
    if kept == now {
        return Ok(());
    }
    write!(text, "station {address}, select")?;
    text.push_str(flag_values(kept, now))
}

/// The lines of a station that both have.
fn push_station(
    text: &mut String,
    kept: &StationSettings,
    now: Option<StationSettings>,
) -> Result<(), AllocError>
    ensures { OnOk result (string_bytes text.new ≡ string_bytes text.old
        ++ spec.lines_of kept.now now) }
{
    match now {
        Some(now) => {
            push_ca(text, kept.address, kept.ca, now.ca)?;
            push_select(text, kept.address, kept.select, now.select)
        }
        None => Ok(()),
    }
}

/// The lines of the stations that both have.
fn push_each(
    text: &mut String,
    kept: &[StationSettings],
    now: &[StationSettings],
) -> Result<(), AllocError>
    ensures { OnOk result (string_bytes text.new ≡ string_bytes text.old
        ++ spec.station_lines now.now kept.now) }
{
    let mut left = kept;
    while let [station, more @ ..] = left {
        push_station(text, station, station_at(station.address, now))?;
        left = more;
    }
    Ok(())
}

/// The lines of the line and the connection.
fn push_keys(
    text: &mut String,
    kept: &LineSettings,
    now: &LineSettings,
    kept_tcp: &TcpSettings,
    now_tcp: &TcpSettings,
) -> Result<(), AllocError>
    ensures { OnOk result (string_bytes text.new ≡ string_bytes text.old
        ++ spec.key_lines kept.now now.now kept_tcp.now now_tcp.now) }
{
    push_sizes(text, kept, now)?;
    push_polling(text, kept, now)?;
    push_connection(text, kept_tcp, now_tcp)
}

/// The lines of the stations.
fn push_stations(
    text: &mut String,
    kept: &[StationSettings],
    now: &[StationSettings],
) -> Result<(), AllocError>
    ensures { OnOk result (string_bytes text.new ≡ string_bytes text.old
        ++ spec.stations_part kept.now now.now) }
{
    push_order(text, kept, now)?;
    push_each(text, kept, now)
}

fn push_all_keys(text: &mut String, kept: &Config, now: &Config) -> Result<(), AllocError>
    ensures { OnOk result (string_bytes text.new ≡ string_bytes text.old ++ spec.key_lines
        kept.now.line now.now.line kept.now.tcp now.now.tcp) }
{
    push_keys(text, kept.line(), now.line(), kept.tcp(), now.tcp())
}

fn push_all_stations(text: &mut String, kept: &Config, now: &Config) -> Result<(), AllocError>
    ensures { OnOk result (string_bytes text.new ≡ string_bytes text.old
        ++ spec.stations_part kept.now.stations now.now.stations) }
{
    push_stations(text, kept.stations(), now.stations())
}

/// A line for each key that differs: the values that were kept, and those of now.
pub(crate) fn push_changes(text: &mut String, kept: &Config, now: &Config) -> Result<(), AllocError>
    ensures { OnOk result (string_bytes text.new ≡ string_bytes text.old
        ++ spec.changed_lines kept.now now.now) }
{
    push_all_keys(text, kept, now)?;
    push_all_stations(text, kept, now)
}
