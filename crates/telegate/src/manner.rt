//! How a run is printed.
ghost use Rattle.std.specs.Prelude.{◌≡◌};
ghost use Rattle.telegate.specs.Manners.{is_set, manner_of, shows_colours, style_of};

use gateway::Config;
use std::env::VarError;
use words::{LineSizes, Style};

/// How what passes in a run is printed.
#[derive(Clone, Copy)]
pub enum Manner {
    /// A line for each action, as a trace has them.
    Lines,
    /// A line in words for each event and each action, with the colours of a terminal or without.
    Words { is_coloured: bool },
}

/// Whether a variable of the environment is there, and isn't empty.
fn is_set(variable: &Result<String, VarError>) -> bool
    ensures { result ≡ is_set variable.now }
{
    match variable {
        Ok(text) => !text.as_bytes().is_empty(),
        Err(VarError::NotPresent) => false,
        // No empty text is read so.
        Err(_) => true,
    }
}

/// Whether standard output shows colours of itself: if it is a terminal, unless NO_COLOR says
/// otherwise (docs/DECISIONS.md, "Colours").
pub(crate) fn shows_colours(is_terminal: bool, no_color: &Result<String, VarError>) -> bool
    ensures { result ≡ shows_colours is_terminal (is_set no_color.now) }
{
    is_terminal && !is_set(no_color)
}

/// How a run is printed, by the flags `--words` and `--color`, and by whether standard output shows
/// colours of itself.
pub(crate) fn manner_of(words: bool, color: bool, has_colours: bool) -> Manner
    ensures { result ≡ manner_of words color has_colours }
{
    if words {
        Manner::Words {
            is_coloured: color || has_colours,
        }
    } else {
        Manner::Lines
    }
}

/// How lines in words are written for these settings.
pub(crate) fn style_of(config: &Config, is_coloured: bool) -> Style
    ensures { result ≡ style_of config.now is_coloured }
{
    let line = config.line();
    Style {
        sizes: LineSizes {
            link: line.link,
            asdu: line.sizes,
        },
        is_coloured,
    }
}
