//! Why settings are refused.
ghost use Rattle.std.specs.Prelude.{◌≡◌};
ghost use Rattle.settings.specs.declared.fault.ConfigFault.TheVariants.{Key, NoMemory};

use std::alloc::{AllocError, AllocFailed};
use thiserror::Error;

/// Why settings are refused: the first fault that there is.
#[derive(Debug, Drop, Error)]
pub enum ConfigFault {
    /// The file is no TOML document, or no UTF-8 text.
    #[error("config: not TOML")]
    NotToml,
    /// This key is missing, or its value is wrong. The text is its dotted path.
    #[error("config: {0}")]
    Key(&'static str),
    /// There is no such key. Of several it is the one whose dotted path comes first in the order of
    /// octets.
    #[error("config: unknown {0}")]
    Unknown(String),
    /// Memory was refused.
    #[error("no memory")]
    NoMemory,
}

/// A key that is missing, or whose value is wrong, by its dotted path.
#[derive(Clone, Copy)]
pub struct WrongKey {
    pub path: &'static str,
}

impl From<WrongKey> for ConfigFault {
    ghost from_gives = { λ wrong e. e ≡ Key wrong.path };

    fn from(wrong: WrongKey) -> ConfigFault {
        ConfigFault::Key(wrong.path)
    }
}

impl From<AllocError> for ConfigFault {
    ghost from_gives = { λ _ e. e ≡ NoMemory };

    fn from(_error: AllocError) -> ConfigFault {
        ConfigFault::NoMemory
    }
}

impl<T: Drop> From<AllocFailed<T>> for ConfigFault {
    ghost from_gives = { λ _ e. e ≡ NoMemory };

    fn from(_error: AllocFailed<T>) -> ConfigFault {
        ConfigFault::NoMemory
    }
}
