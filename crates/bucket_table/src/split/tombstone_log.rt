//! The tombstone log: the hashes by which a purge finds the tombstones (slots without objects) instead of by a scan of
//! all slots.
ghost use Rattle.std.specs.Prelude.{◌≡◌, [], false};
ghost use Rattle.bucket_table.specs.inside.TombstoneLog.{LogsHash};
ghost use Rattle.bucket_table.specs.declared.split.sweep.SweepMode.TheVariants.{RemoveTombstones};

use super::sweep::SweepMode;
use std::alloc::Global;

/// The number of nodes for which the log reserves room for one hash, if memory allows.
const NODES_PER_HASH: usize = 16;

/// The hashes of the slots that became tombstones since the last purge. If `overflowed` is true, some may be missing.
#[derive(Drop)]
pub struct TombstoneLog {
    pub hashes: Vec<u32>,
    pub overflowed: bool,
}

impl TombstoneLog {
    /// Creates an empty log.
    pub fn new(alloc: Global) -> TombstoneLog
        ensures hashes { result.hashes.items ≡ [] }
        ensures overflow { result.overflowed ≡ false }
    {
        TombstoneLog {
            hashes: Vec::new(alloc),
            overflowed: false,
        }
    }

    /// Reserves room for the hashes of a list of `nodes` nodes, if memory allows.
    pub fn reserve_for(&mut self, nodes: usize)
        ensures hashes { self.new.hashes.items ≡ self.old.hashes.items }
        ensures overflow { self.new.overflowed ≡ self.old.overflowed }
    {
        let room = self.hashes.capacity();
        if room < nodes / NODES_PER_HASH {
            let more = nodes.saturating_sub(self.hashes.len());
            // This reserves about twice the room tested above, so few calls reserve. If memory is refused, the log may
            // overflow later.
            let _outcome = self.hashes.reserve(more / 8);
        }
    }

    /// Adds the hash of a slot to the log if the slot is a tombstone. Allocates no memory: if the log has no room, sets
    /// `overflowed`.
    pub fn log_hash(&mut self, is_tombstone: bool, hash: u32)
        ensures { LogsHash is_tombstone hash self.old.overflowed self.old.hashes.items
            self.new.overflowed self.new.hashes.items }
    {
        if !is_tombstone {
            return;
        }
        if self.hashes.len() < self.hashes.capacity() {
            self.hashes.push_reserved(hash);
        } else {
            self.overflowed = true;
        }
    }

    /// Empties the log after a sweep of all slots. The empty log is complete if the sweep removed the tombstones. After
    /// any other sweep, tombstones may remain, so the log counts as overflowed.
    pub fn reset_after(&mut self, mode: SweepMode)
        ensures { self.new.overflowed ≡ false → mode ≡ RemoveTombstones }
    {
        self.hashes.clear();
        self.overflowed = mode != SweepMode::RemoveTombstones;
    }
}
