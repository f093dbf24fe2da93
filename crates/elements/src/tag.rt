//! The time tag and the verdict on it.
ghost use Rattle.std.specs.Prelude.{◌≡◌};
ghost use Rattle.elements.specs.TimeTag.{AreBits, IsDateOf, fields_of, verdict_of};
ghost use Rattle.elements.specs.TimeTag.{verdict_of_fields, is_weekday_wrong, instant_of};

use jiff::civil::Date;

/// CP56Time2a, a time tag in seven octets (IEC 60870-5-101, 7.2.6.18). It is carried as it came,
/// whatever its verdict.
#[derive(Clone, Copy, Debug, PartialEq, Eq)]
pub struct Cp56(pub [u8; 7]);

/// What a time tag is worth, by its fields and the calendar. Years 0 to 99 are 2000 to 2099, and
/// the tag is UTC (this gateway's own profile); SU and reserved bits play no part.
#[derive(Clone, Copy, Debug, PartialEq, Eq)]
pub enum Verdict {
    /// The instant, in milliseconds since 1970-01-01 00:00 UTC.
    Good(u64),
    /// IV is set.
    MarkedInvalid,
    /// Milliseconds of the minute over 59999, minute over 59, hour over 23, day 0, month 0 or over
    /// 12, or year over 99.
    OutOfRange,
    /// The month of that year has no such day.
    NoSuchDay,
    /// The day of the week isn't 0 and isn't that day's.
    WrongWeekday,
}

/// The fields of a tag. `weekday` is 1 for Monday to 7 for Sunday, 0 if it isn't used; `year`
/// counts from 2000.
#[derive(Clone, Copy)]
pub(crate) struct TagFields {
    millisecond: u16,
    minute: u8,
    invalid: bool,
    hour: u8,
    day: u8,
    weekday: u8,
    month: u8,
    year: u8,
}

/// The fields of a tag.
fn read_fields(tag: &Cp56) -> TagFields
    ensures value { result ≡ fields_of tag.now.0 }
    ensures bits { AreBits result }
{
    let [low, high, minute, hour, day, month, year] = tag.0;
    TagFields {
        millisecond: u16::from(low) + 256 * u16::from(high),
        minute: minute & 0x3F,
        invalid: minute >= 0x80,
        // Summer time (SU) and reserved bits play no part: a tag counts as UTC (profile).
        hour: hour & 0x1F,
        day: day & 0x1F,
        weekday: day >> 5,
        month: month & 0x0F,
        year: year & 0x7F,
    }
}

/// Judges a tag: the first of `OutOfRange`, `NoSuchDay`, `WrongWeekday`, `MarkedInvalid` and `Good`
/// that applies.
pub fn judge(tag: &Cp56) -> Verdict
    ensures { result ≡ verdict_of tag.now.0 }
{
    judge_fields(read_fields(tag))
}

fn judge_fields(tag: TagFields) -> Verdict
    requires { AreBits tag }
    ensures { result ≡ verdict_of_fields tag }
{
    // Range before calendar, since the calendar is asked only for what can be a date; and the
    // mark of invalidity last, since a tag that is no date is wrong whatever it says of itself.
    if tag.millisecond > 59999
        || tag.minute > 59
        || tag.hour > 23
        || tag.day == 0
        || tag.month == 0
        || tag.month > 12
        || tag.year > 99
    {
        return Verdict::OutOfRange;
    }
    // The standard's year names no century. From 2000 on is this gateway's profile.
    let year = 2000 + i16::from(tag.year);
    let Ok(date) = Date::new(year, tag.month as i8, tag.day as i8) else {
        return Verdict::NoSuchDay;
    };
    if has_other_weekday(tag, date) {
        return Verdict::WrongWeekday;
    }
    if tag.invalid {
        return Verdict::MarkedInvalid;
    }
    Verdict::Good(instant(tag, date))
}

/// Whether the tag names another weekday than the date's.
fn has_other_weekday(tag: TagFields, date: Date) -> bool
    requires bits { AreBits tag }
    requires date { IsDateOf tag date }
    ensures { result ≡ is_weekday_wrong tag }
{
    // 0 says that the field isn't used (7.2.6.18).
    tag.weekday != 0 && tag.weekday as i8 != date.weekday().to_monday_one_offset()
}

/// Milliseconds since 1970-01-01 00:00 UTC.
fn instant(tag: TagFields, date: Date) -> u64
    requires bits { AreBits tag }
    requires date { IsDateOf tag date }
    ensures { result ≡ instant_of tag }
{
    // Years from 2000 on: never before 1970, so the day's number isn't negative.
    let days = date.to_plain().to_unix_epoch_day().unsigned_abs();
    u64::from(days) * 86_400_000
        + u64::from(tag.hour) * 3_600_000
        + u64::from(tag.minute) * 60_000
        + u64::from(tag.millisecond)
}
