//! The errors of a table with fixes: of a fix, and of `next` with a key that has no slot. Both convert to a `Refusal`,
//! the error of the calls on objects.
use std::alloc::AllocError;
use table_ops::Refusal;

/// Why a fix is refused. A refused fix changes nothing.
#[derive(Debug, Drop, PartialEq, Eq)]
pub enum FixFault {
    /// The process already has 4,294,967,295 fixes of the table.
    SystemLimit,
    /// An allocation failed.
    Memory,
}

impl From<AllocError> for FixFault {
    ghost use Rattle.std.specs.Prelude.{◌≡◌};
    ghost use Rattle.fixed_walk.specs.declared.fault.FixFault.TheVariants.{Memory};

    ghost from_gives = { λ _ e. e ≡ Memory };

    fn from(_error: AllocError) -> FixFault {
        FixFault::Memory
    }
}

/// The key passed to `next` has no slot.
#[derive(Debug, Clone, Copy, PartialEq, Eq)]
pub struct Badarg;

impl From<FixFault> for Refusal {
    ghost use Rattle.std.specs.Prelude.{◌≡◌};
    ghost use Rattle.fixed_walk.specs.Refusals.{refusal_of_fix};

    ghost from_gives = { λ f e. e ≡ refusal_of_fix f };

    fn from(fault: FixFault) -> Refusal {
        match fault {
            FixFault::SystemLimit => Refusal::SystemLimit,
            FixFault::Memory => Refusal::Memory,
        }
    }
}

impl From<Badarg> for Refusal {
    ghost use Rattle.std.specs.Prelude.{◌≡◌};
    ghost use Rattle.table_ops.specs.declared.refusal.Refusal.TheVariants as refusal;

    ghost from_gives = { λ _ e. e ≡ refusal.Badarg };

    fn from(_error: Badarg) -> Refusal {
        Refusal::Badarg
    }
}
