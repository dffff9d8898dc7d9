//! The faults of an update: why it is refused.
use std::alloc::AllocError;

/// Why an update is refused. A refused update changes nothing.
#[derive(Debug, Drop)]
pub enum CounterFault {
    /// The update or the object has a wrong form.
    Badarg,
    /// A new value is out of range, or an object would be too deep.
    SystemLimit,
    /// An allocation failed.
    Memory,
}

impl From<AllocError> for CounterFault {
    ghost use Rattle.std.specs.Prelude.{◌≡◌};
    ghost use Rattle.counters.specs.declared.fault.CounterFault.TheVariants.{Memory};

    ghost from_gives = { λ _ e. e ≡ Memory };

    fn from(_error: AllocError) -> CounterFault {
        CounterFault::Memory
    }
}
