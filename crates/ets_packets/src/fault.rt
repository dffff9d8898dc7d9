//! Why a run of packets stops.
use crate::buffer::RefillFault;
use crate::output::WriteFault;
use std::alloc::AllocError;
use thiserror::Error;

/// Why a run of packets stops before its end.
#[derive(Debug, Drop, Error)]
pub enum PacketFault {
    /// The reader failed, or it was read 2^64 - 1 times. All whole packets before are answered.
    #[error("read fault")]
    Read,
    /// The writer failed, or took no byte. What was written is a prefix of the replies.
    #[error("write fault")]
    Write,
    /// There was no memory at the start, or for bytes that were read. All packets before those are answered.
    #[error("out of memory")]
    Memory,
    /// The input ends inside a packet. All packets before it are answered.
    #[error("the input ends inside a packet")]
    Truncated,
}

impl From<AllocError> for PacketFault {
    ghost use Rattle.std.specs.Prelude.{◌≡◌};
    ghost use Rattle.ets_packets.specs.declared.fault.PacketFault.TheVariants.{Memory};

    ghost from_gives = { λ _ e. e ≡ Memory };

    fn from(_fault: AllocError) -> PacketFault {
        PacketFault::Memory
    }
}

impl From<WriteFault> for PacketFault {
    ghost use Rattle.std.specs.Prelude.{◌≡◌};
    ghost use Rattle.ets_packets.specs.declared.fault.PacketFault.TheVariants.{Write};

    ghost from_gives = { λ _ e. e ≡ Write };

    fn from(_fault: WriteFault) -> PacketFault {
        PacketFault::Write
    }
}

impl From<RefillFault> for PacketFault {
    ghost use Rattle.ets_packets.specs.inside.Buffer.{fault_of};
    ghost use Rattle.std.specs.Prelude.{◌≡◌};

    ghost from_gives = { λ f e. e ≡ fault_of f };

    fn from(fault: RefillFault) -> PacketFault {
        match fault {
            RefillFault::Read => PacketFault::Read,
            RefillFault::Memory => PacketFault::Memory,
        }
    }
}
