//! What the node of a script is created with.
use node_core::Limits;

/// What the node of a script is created with: its limits, and the hasher of its keys.
#[derive(Drop)]
pub struct NodeSettings<H> {
    pub limits: Limits,
    pub hasher: H,
}
