//! Why a site's file is refused.
ghost use Rattle.std.specs.Prelude.{◌≡◌};
ghost use Rattle.settings.specs.declared.site.fault.SiteFault.TheVariants.{Key, NoMemory};

use crate::fault::WrongKey;
use std::alloc::{AllocError, AllocFailed};
use thiserror::Error;

/// Why a site's file is refused: the first fault that there is.
#[derive(Debug, Drop, Error)]
pub enum SiteFault {
    /// The file is no TOML document, or no UTF-8 text.
    #[error("site: not TOML")]
    NotToml,
    /// This key is missing, or its value is wrong. The text is its dotted path.
    #[error("site: {0}")]
    Key(&'static str),
    /// There is no such key.
    #[error("site: unknown {0}")]
    Unknown(String),
    /// Memory was refused.
    #[error("no memory")]
    NoMemory,
}

impl From<WrongKey> for SiteFault {
    ghost from_gives = { λ wrong e. e ≡ Key wrong.path };

    fn from(wrong: WrongKey) -> SiteFault {
        SiteFault::Key(wrong.path)
    }
}

impl From<AllocError> for SiteFault {
    ghost from_gives = { λ _ e. e ≡ NoMemory };

    fn from(_error: AllocError) -> SiteFault {
        SiteFault::NoMemory
    }
}

impl<T: Drop> From<AllocFailed<T>> for SiteFault {
    ghost from_gives = { λ _ e. e ≡ NoMemory };

    fn from(_error: AllocFailed<T>) -> SiteFault {
        SiteFault::NoMemory
    }
}
