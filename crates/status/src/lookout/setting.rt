//! The settings that a page shows.
ghost use Rattle.std.specs.Prelude.{◌≡◌, IfOk, map, take};
ghost use Rattle.status.specs.Shown.{chosen_as, in_force, numbered, silence_text, viewed_as};

use crate::snapshot::Setting;
use arrayvec::ArrayVec;
use gateway::{Config, Silence};
use std::alloc::{AllocError, Global};

/// The most settings that a page shows.
const MOST_SETTINGS: usize = 16;

/// A setting in force.
#[derive(Drop)]
pub(crate) struct ChosenSetting {
    key: &'static str,
    value: String,
}

/// The settings in force that say how line and connection behave.
pub(crate) fn chosen_of(alloc: Global, config: &Config) -> Result<Vec<ChosenSetting>, AllocError>
    ensures { IfOk result (λ chosen. map chosen_as chosen.items ≡ in_force config.now) }
{
    let line = config.line();
    let tcp = config.tcp();
    let silence = text_of(line.silence);
    let mut chosen = Vec::new(alloc);
    chosen.push(number(alloc, "line.answer_ms", line.answer_ms)?)?;
    chosen.push(number(alloc, "line.retries", u64::from(line.retries))?)?;
    chosen.push(ChosenSetting {
        key: "line.silence",
        value: String::from_str(alloc, silence)?,
    })?;
    chosen.push(number(alloc, "line.burst", u64::from(line.burst))?)?;
    chosen.push(number(alloc, "line.queue", u64::from(line.queue))?)?;
    chosen.push(number(alloc, "tcp.k", u64::from(tcp.k))?)?;
    chosen.push(number(alloc, "tcp.w", u64::from(tcp.w))?)?;
    chosen.push(number(alloc, "tcp.t1_ms", tcp.t1_ms)?)?;
    chosen.push(number(alloc, "tcp.t2_ms", tcp.t2_ms)?)?;
    chosen.push(number(alloc, "tcp.t3_ms", tcp.t3_ms)?)?;
    chosen.push(number(alloc, "tcp.select_ms", tcp.select_ms)?)?;
    chosen.push(number(alloc, "tcp.max_age_ms", tcp.max_age_ms)?)?;
    Ok(chosen)
}

/// What a silence is called in settings.
fn text_of(silence: Silence) -> &'static str
    ensures { result.now ≡ silence_text silence }
{
    match silence {
        Silence::Hold => "hold",
        Silence::Reset => "reset",
    }
}

/// A setting that is a number.
fn number(alloc: Global, key: &'static str, value: u64) -> Result<ChosenSetting, AllocError>
    ensures { IfOk result (λ s. chosen_as s ≡ numbered key.entry.now value) }
{
    let mut text = String::new(alloc);
    write!(text, "{value}")?;
    Ok(ChosenSetting { key, value: text })
}

/// The settings as a page has them.
pub(crate) fn settings_of(chosen: &[ChosenSetting]) -> ArrayVec<Setting<'_>, MOST_SETTINGS>
    ensures { map viewed_as result.items ≡ take 16 (map chosen_as chosen.entry.now) }
{
    let mut settings = ArrayVec::new();
    for one in chosen {
        if settings.is_full() {
            break;
        }
        settings.push(Setting {
            key: one.key,
            value: one.value.as_str(),
        });
    }
    settings
}
