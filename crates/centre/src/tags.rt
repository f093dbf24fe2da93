//! Time tags of this machine's clock.
ghost use Rattle.std.specs.Prelude.{◌≡◌, IfSome};
ghost use Rattle.elements.specs.TimeTag.{verdict_of};
ghost use Rattle.elements.specs.declared.tag.Verdict.TheVariants.{Good};

use elements::{Cp56, Verdict, judge};
use jiff::Timestamp;
use jiff::tz::Offset;

/// The time tag of a moment, in ms since 1970-01-01 00:00 UTC, if it is one of the years 2000 to
/// 2099.
pub fn tag_of(ms: u64) -> Option<[u8; 7]>
    ensures { IfSome result (λ tag. verdict_of tag ≡ Good ms) }
{
    let moment = Timestamp::from_millisecond(i64::try_from(ms).ok()?).ok()?;
    let date = Offset::UTC.to_datetime(moment).date();
    let millisecond = ms % 60_000;
    let tag = [
        (millisecond % 256) as u8,
        (millisecond / 256) as u8,
        (ms / 60_000 % 60) as u8,
        (ms / 3_600_000 % 24) as u8,
        date.day().unsigned_abs(),
        date.month().unsigned_abs(),
        u8::try_from(date.year().checked_sub(2000)?).ok()?,
    ];
    // Judged as whoever receives it does: no other tag goes out.
    match judge(&Cp56(tag)) {
        Verdict::Good(said) if said == ms => Some(tag),
        _ => None,
    }
}
