//! Why a command stops, and the exit statuses.
ghost use Rattle.std.specs.Prelude.{◌≡◌};
ghost use Rattle.telegate.specs.Faults.{fault_of_run, status_of};
ghost use Rattle.telegate.specs.declared.fault.Fault.TheVariants as fault;
ghost use Rattle.telegate.specs.declared.fault.RunFault.TheVariants as run_fault;

use settings::{ConfigFault, SiteFault};
use std::alloc::AllocError;
use std::io::ErrorKind;
use thiserror::Error;

/// The exit status of a command that is done.
pub(crate) const DONE: u8 = 0;

/// The exit status of a bad frame or a file with wrong content.
pub(crate) const BAD_CONTENT: u8 = 1;

/// The exit status of wrong words.
pub(crate) const USAGE: u8 = 2;

/// The exit status if a file or a device failed.
pub(crate) const DEVICE_FAILED: u8 = 3;

/// The exit status if memory was refused.
pub(crate) const NO_MEMORY: u8 = 4;

/// Why a command stops. Its text is the one line on standard error.
#[derive(Debug, Drop, Error)]
pub(crate) enum Fault {
    /// The settings are refused.
    #[error("{0}")]
    Config(ConfigFault),
    /// The file of the site is refused.
    #[error("{0}")]
    Site(SiteFault),
    /// This line of the trace is wrong.
    #[error("trace: line {0}")]
    Trace(u64),
    /// This line of the script is wrong.
    #[error("script: line {0}")]
    Script(u64),
    /// This line of the record is neither that of an event nor that of an action.
    #[error("record: line {0}")]
    Record(u64),
    /// So many first lines of the record say a state, and no gateway with these settings has it.
    #[error("record: lines 1 to {0} are no state under these settings")]
    Unfit(u64),
    /// The sizes of a line's addresses are no such four digits.
    #[error("bad sizes")]
    Sizes,
    /// The octets aren't 1 to 1,024 in hexadecimal.
    #[error("bad octets")]
    Octets,
    /// A word behind `--allow` is no address.
    #[error("error: --allow takes the address of a host, as 192.0.2.7")]
    Address,
    /// The run is to stop if the state can't be kept, and it isn't to be kept anywhere.
    #[error("error: --state-or-stop needs --state with a directory")]
    NoState,
    /// Another process keeps its state there.
    #[error("state: in use by another process")]
    StateInUse,
    /// The state can't be kept there, for this cause.
    #[error("state: can't be kept there: {0}")]
    StateUnusable(ErrorKind),
    /// An end of a run can't be had.
    #[error("device failed")]
    EndUnusable,
    /// The output can't be written, or the device of a run failed.
    #[error("device failed")]
    Device,
    /// A text can't be read on, or isn't the one that was judged.
    #[error("cannot read")]
    Unread,
    #[error("no memory")]
    NoMemory,
}

/// Why a live run didn't begin, or that its device failed. What is generic over a site answers
/// this.
// It borrows nothing: the borrow checker covers no call that is generic over a site of a lifetime
// and of a type beside a fault that borrows for the whole life of a process.
#[derive(Clone, Copy)]
pub(crate) enum RunFault {
    /// Another process keeps its state there.
    StateInUse,
    /// The state can't be kept there, for this cause.
    StateUnusable(ErrorKind),
    /// An end of the run can't be had.
    EndUnusable,
    /// The device of the run failed.
    Device,
    NoMemory,
}

impl From<AllocError> for RunFault {
    ghost from_gives = { λ _ e. e ≡ run_fault.NoMemory };

    fn from(_error: AllocError) -> RunFault {
        RunFault::NoMemory
    }
}

impl From<gateway::NoMemory> for RunFault {
    ghost from_gives = { λ _ e. e ≡ run_fault.NoMemory };

    fn from(_error: gateway::NoMemory) -> RunFault {
        RunFault::NoMemory
    }
}

impl From<RunFault> for Fault {
    ghost from_gives = { λ why fault. fault ≡ fault_of_run why };

    fn from(fault: RunFault) -> Fault {
        match fault {
            RunFault::StateInUse => Fault::StateInUse,
            RunFault::StateUnusable(cause) => Fault::StateUnusable(cause),
            RunFault::EndUnusable => Fault::EndUnusable,
            RunFault::Device => Fault::Device,
            RunFault::NoMemory => Fault::NoMemory,
        }
    }
}

impl From<AllocError> for Fault {
    ghost from_gives = { λ _ e. e ≡ fault.NoMemory };

    fn from(_error: AllocError) -> Fault {
        Fault::NoMemory
    }
}

impl From<gateway::NoMemory> for Fault {
    ghost from_gives = { λ _ e. e ≡ fault.NoMemory };

    fn from(_error: gateway::NoMemory) -> Fault {
        Fault::NoMemory
    }
}

impl Fault {
    /// The exit status.
    pub(crate) fn status(&self) -> u8
        ensures { result ≡ status_of self.now }
    {
        match self {
            Fault::Config(_)
            | Fault::Site(_)
            | Fault::Trace(_)
            | Fault::Script(_)
            | Fault::Record(_)
            | Fault::Unfit(_)
            | Fault::Sizes
            | Fault::Octets => BAD_CONTENT,
            Fault::Address | Fault::NoState => USAGE,
            Fault::StateInUse
            | Fault::StateUnusable(_)
            | Fault::EndUnusable
            | Fault::Device
            | Fault::Unread => DEVICE_FAILED,
            Fault::NoMemory => NO_MEMORY,
        }
    }
}
