//! When the latest event of a state was, by the wall clock.
ghost use Rattle.std.specs.Prelude.{◌≡◌, ℕ, IfOk, IfSome, None, string_bytes};
ghost use Rattle.state.specs.Dates as spec;

use gateway::{Gateway, Wall};
use jiff::Timestamp;
use jiff::fmt::temporal::DateTimePrinter;
use std::alloc::{AllocError, Global};

/// The instant that is so many ms behind 1970-01-01 00:00 UTC, if there is one before the year
/// 10000.
fn instant_at(ms: u64) -> Option<Timestamp>
    ensures some { IfSome result (λ t. spec.IsInstant ms t.nanosecond) }
    ensures none { result ≡ None → spec.IsInstantAt ms → ⊥ }
{
    let Ok(ms) = i64::try_from(ms) else {
        return None;
    };
    match Timestamp::from_millisecond(ms) {
        Ok(instant) => Some(instant),
        Err(_) => None,
    }
}

/// The text of an instant.
fn text_of(alloc: Global, instant: Timestamp) -> Result<String, AllocError>
    ensures { IfOk result (λ text. (ms : ℕ) → spec.IsInstant ms instant.nanosecond →
        spec.IsDate ms (string_bytes text)) }
{
    let printer = DateTimePrinter::new().precision(Some(3));
    String::from_str(alloc, printer.timestamp_text(instant.to_plain()).as_str())
}

/// The UTC date and time that is so many ms behind 1970-01-01 00:00 UTC, as RFC 3339 has it.
fn date_of(alloc: Global, ms: u64) -> Result<String, AllocError>
    ensures { IfOk result (λ text. spec.IsDate ms (string_bytes text)) }
{
    match instant_at(ms) {
        Some(instant) => text_of(alloc, instant),
        None => String::from_str(alloc, "no date"),
    }
}

/// What the wall clock shows at a moment.
fn wall_at(wall: Wall, moment: u64) -> u64
    ensures { result ≡ spec.wall_at wall moment }
{
    wall.number
        .saturating_add(moment.saturating_sub(wall.moment))
}

/// The line of two dates.
fn line_of(alloc: Global, event: &str, wall: &str) -> Result<String, AllocError>
    ensures { IfOk result (λ text. string_bytes text ≡ spec.dates_line event.now wall.now) }
{
    let mut text = String::new(alloc);
    text.push_str("latest event ")?;
    text.push_str(event)?;
    text.push_str(", wall clock told ")?;
    text.push_str(wall)?;
    text.push_str("\n")?;
    Ok(text)
}

/// The dates of the latest event, and of the latest moment at which the wall clock was told.
fn both_dates(alloc: Global, latest: u64, told: u64) -> Result<String, AllocError>
    ensures { IfOk result (λ text. spec.AreDates latest told (string_bytes text)) }
{
    let event = date_of(alloc, latest)?;
    let wall = date_of(alloc, told)?;
    line_of(alloc, &event, &wall)
}

/// The same of a gateway, if it was told what the wall clock shows.
pub(crate) fn dates_of(alloc: Global, gateway: &Gateway) -> Result<String, AllocError>
    ensures { IfOk result (λ text. spec.IsDated gateway.now (string_bytes text)) }
{
    match gateway.last_wall() {
        Some(wall) => both_dates(alloc, wall_at(wall, gateway.moment()), wall.number),
        None => Ok(String::new(alloc)),
    }
}
