//! Where a value stands, or belongs.
ghost use Rattle.std.specs.Prelude.{IfOk};
ghost use Rattle.settings.specs.Spans.{IsInside};

use crate::places::{Span, Spot, find_gap, find_value};
use std::alloc::{AllocError, Global};

/// Where the value of a key stands.
#[derive(Clone, Copy)]
pub(crate) enum KeyPlace {
    /// These octets write it.
    Value(Span),
    /// It isn't there, and belongs behind this place.
    Gap(Span),
    /// Neither is known.
    Nowhere,
}

pub(crate) fn find(alloc: Global, text: &[u8], spot: &Spot<'_>) -> Result<KeyPlace, AllocError>
    ensures { IfOk result (IsInside text.now) }
{
    if let Some(span) = find_value(alloc, text, spot)? {
        return Ok(KeyPlace::Value(span));
    }
    match find_gap(alloc, text, spot)? {
        Some(span) => Ok(KeyPlace::Gap(span)),
        None => Ok(KeyPlace::Nowhere),
    }
}
