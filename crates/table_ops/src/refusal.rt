//! Why a call on a table is refused, and which refusal a fault of counters or of a match specification becomes.
use counters::CounterFault;
use match_spec::SpecFault;
use std::alloc::AllocError;

/// Why a call is refused. A refused call changes nothing.
#[derive(Debug, Drop, PartialEq, Eq)]
pub enum Refusal {
    /// An argument is not of the form that the call takes, or the call does not fit the table or the object. Examples:
    /// an update of a bag, a position that the object does not have, and `lookup_element` of a missing key.
    Badarg,
    /// The table would have more objects than its limit, an object would be too deep, or an integer would overflow.
    SystemLimit,
    /// An allocation failed. The call changes nothing and has no reply, because the specification has no such refusal.
    Memory,
}

impl From<AllocError> for Refusal {
    ghost use Rattle.std.specs.Prelude.{◌≡◌};
    ghost use Rattle.table_ops.specs.declared.refusal.Refusal.TheVariants.{Memory};

    ghost from_gives = { λ _ e. e ≡ Memory };

    fn from(_error: AllocError) -> Refusal {
        Refusal::Memory
    }
}

impl From<CounterFault> for Refusal {
    ghost use Rattle.std.specs.Prelude.{◌≡◌};
    ghost use Rattle.table_ops.specs.Update.{refusal_of};

    ghost from_gives = { λ f e. e ≡ refusal_of f };

    fn from(fault: CounterFault) -> Refusal {
        match fault {
            CounterFault::Badarg => Refusal::Badarg,
            CounterFault::SystemLimit => Refusal::SystemLimit,
            CounterFault::Memory => Refusal::Memory,
        }
    }
}

impl From<SpecFault> for Refusal {
    ghost use Rattle.std.specs.Prelude.{◌≡◌};
    ghost use Rattle.table_ops.specs.Refusals.{refusal_of_spec};

    ghost from_gives = { λ f e. e ≡ refusal_of_spec f };

    fn from(fault: SpecFault) -> Refusal {
        match fault {
            SpecFault::Badarg => Refusal::Badarg,
            SpecFault::Memory => Refusal::Memory,
        }
    }
}
