//! Why a call on processes and tables fails: it is refused, or memory runs out.
use std::alloc::AllocError;

/// Why a call fails. A failed call changes nothing.
#[derive(Debug, Drop, PartialEq, Eq)]
pub enum WorldFault {
    /// An argument is not allowed, or the process has no right to make this call.
    Badarg,
    /// The greatest number of processes or tables ever made is reached.
    SystemLimit,
    /// The process does not live: it was not enrolled, or it has ended.
    NoProcess,
    /// An allocation failed.
    Memory,
}

impl From<AllocError> for WorldFault {
    ghost use Rattle.std.specs.Prelude.{◌≡◌};
    ghost use Rattle.ownership.specs.declared.fault.WorldFault.TheVariants.{Memory};

    ghost from_gives = { λ _ e. e ≡ Memory };

    fn from(_error: AllocError) -> WorldFault {
        WorldFault::Memory
    }
}
