//! Why a script stops.
use crate::line_buffer::ReadFault;
use ets_packets::WriteFault;
use std::alloc::AllocError;
use thiserror::Error;

/// Why a script stops before its end.
#[derive(Debug, Drop, Error)]
pub enum ScriptFault {
    /// The reader failed, or the input did not end within a billion reads, or the number that `run_within` was given.
    /// The answers to all whole lines that were read are written. In threads, nothing is written.
    #[error("read fault")]
    Read,
    /// The writer failed, or took no byte. What was written is a prefix of the answers.
    #[error("write fault")]
    Write,
    /// There was no memory at the start, and nothing was read. Or a script whose processes run in threads ran out of
    /// memory, and nothing was written.
    #[error("** nomem")]
    Memory,
    /// The record of this process's client is not the process's part of the journal. Nothing was written.
    #[error("differs <0.{0}.0>")]
    Differs(u32),
    /// This process has entries in the journal and no client. Nothing was written.
    #[error("missing <0.{0}.0>")]
    Missing(u32),
}

impl From<AllocError> for ScriptFault {
    ghost use Rattle.std.specs.Prelude.{◌≡◌};
    ghost use Rattle.ets_script.specs.declared.fault.ScriptFault.TheVariants.{Memory};

    ghost from_gives = { λ _ e. e ≡ Memory };

    fn from(_fault: AllocError) -> ScriptFault {
        ScriptFault::Memory
    }
}

impl From<ReadFault> for ScriptFault {
    ghost use Rattle.std.specs.Prelude.{◌≡◌};
    ghost use Rattle.ets_script.specs.declared.fault.ScriptFault.TheVariants.{Read};

    ghost from_gives = { λ _ e. e ≡ Read };

    fn from(_fault: ReadFault) -> ScriptFault {
        ScriptFault::Read
    }
}

impl From<WriteFault> for ScriptFault {
    ghost use Rattle.std.specs.Prelude.{◌≡◌};
    ghost use Rattle.ets_script.specs.declared.fault.ScriptFault.TheVariants.{Write};

    ghost from_gives = { λ _ e. e ≡ Write };

    fn from(_fault: WriteFault) -> ScriptFault {
        ScriptFault::Write
    }
}
