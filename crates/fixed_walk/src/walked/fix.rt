//! How a process fixes and releases a table, as `ets:safe_fixtable/2` does. The release of the last fix purges the
//! tombstones, the slots of keys that were deleted meanwhile.
ghost use Rattle.std.specs.Prelude.{◌≡◌};
ghost use Rattle.fixed_walk.specs.Fixes.{is_fixed};
ghost use Rattle.fixed_walk.specs.TableState.{IncrementsFix, after_release, after_release_all};

use super::Walked;
use crate::fault::FixFault;
use bucket_table::Rows;

#[tactic(auto, using(crate::proofs::TombstoneLaws::no_tombstones))]
impl<R: Rows> Walked<R> {
    /// Returns whether some process fixes the table.
    pub fn is_fixed(&self) -> bool
        ensures { result ≡ is_fixed self.now.fixes }
    {
        self.fixes.is_fixed()
    }

    /// Adds one fix of a process (stdlib manual, ets:safe_fixtable/2). Refuses with `SystemLimit` if the process
    /// already has 4,294,967,295. Its time does not grow with the number of fixes that the process has.
    pub fn fix(&mut self, pid: u32) -> Result<(), FixFault>
        ensures { IncrementsFix pid self.old result self.new }
    {
        if self.fixes.count(pid) == u32::MAX {
            return Err(FixFault::SystemLimit);
        }
        self.fixes.increment(pid)?;
        Ok(())
    }

    /// Removes one fix of a process, if it has one. If no process fixes the table afterwards, removes all tombstones.
    pub fn release(&mut self, pid: u32)
        ensures { self.new ≡ after_release pid self.old }
    {
        if !self.fixes.is_fixed() {
            // There is no fix to remove, and there are no tombstones.
            return;
        }
        self.fixes.decrement(pid);
        if !self.fixes.is_fixed() {
            self.table.purge();
        }
    }

    /// Removes all fixes of a process, as when it exits. If no process fixes the table afterwards, removes all
    /// tombstones.
    pub fn release_all(&mut self, pid: u32)
        ensures { self.new ≡ after_release_all pid self.old }
    {
        if !self.fixes.is_fixed() {
            // There is no fix to remove, and there are no tombstones.
            return;
        }
        self.fixes.clear(pid);
        if !self.fixes.is_fixed() {
            self.table.purge();
        }
    }
}
