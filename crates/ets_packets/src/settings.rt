//! What a run of packets is started with.
use node_core::Limits;

/// The usual greatest number of bytes in the body of a packet.
pub const MAX_PACKET: u32 = 16_777_216;

/// What a run of packets is started with.
#[derive(Clone, Copy)]
pub struct PacketSettings {
    /// The limits of the store.
    pub limits: Limits,
    /// The greatest number of bytes in the body of a packet. A longer one is refused.
    pub max_packet: u32,
    /// The seed of the hasher of keys, `Keyed`. Without one, the hasher is `Fnv`.
    pub seed: Option<u64>,
}
