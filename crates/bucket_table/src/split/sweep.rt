//! The modes and actions of a sweep: a scan over slots that removes or empties some. A tombstone is a slot without
//! objects.

/// What a sweep does to the slots.
#[derive(Clone, Copy, PartialEq, Eq)]
pub enum SweepMode {
    /// Removes the slots without objects.
    RemoveTombstones,
    /// Removes the slots with objects; tombstones remain.
    RemoveSlotsWithObjects,
    /// Removes the objects of each slot; all slots remain.
    MakeAllTombstones,
}

/// What a sweep does to one node.
#[derive(Clone, Copy)]
pub enum NodeAction {
    /// The node stays as it is.
    Keep,
    /// The node is removed from the list.
    Remove,
    /// The node stays, but its objects are removed.
    MakeTombstone,
}
