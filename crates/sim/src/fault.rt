//! Why a run over a script wasn't printed whole.
ghost use Rattle.std.specs.Prelude.{◌≡◌};
ghost use Rattle.sim.specs.declared.fault.SimFault.TheVariants.{NoMemory};

use thiserror::Error;

/// Why a run over a script wasn't printed whole.
#[derive(Clone, Copy, Debug, PartialEq, Eq, Error)]
pub enum SimFault {
    /// Memory was refused.
    #[error("no memory")]
    NoMemory,
    /// The output failed, or took no octet.
    #[error("device failed")]
    Write,
}

impl From<gateway::NoMemory> for SimFault {
    ghost from_gives = { λ _ e. e ≡ NoMemory };

    fn from(_wanted: gateway::NoMemory) -> SimFault {
        SimFault::NoMemory
    }
}

impl From<link::NoMemory> for SimFault {
    ghost from_gives = { λ _ e. e ≡ NoMemory };

    fn from(_wanted: link::NoMemory) -> SimFault {
        SimFault::NoMemory
    }
}
