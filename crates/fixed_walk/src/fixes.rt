//! How many fixes each process has of one table. A fix is a process's hold on a table by `safe_fixtable`; a table with
//! a fix is fixed.
ghost use Rattle.std.specs.Prelude.{◌≡◌, ◌+◌, ◌-◌, ◌<◌, OnOk, OnErr};
ghost use Rattle.std.specs.FinMap as map;
ghost use Rattle.fixed_walk.specs.Fixes.{max_fixes, fix_count, is_fixed, with_count};
ghost use Rattle.fixed_walk.specs.Invariants.{IsFixedBySome};

use indexmap::IndexMap;
use std::alloc::{AllocError, Global};
use std::marker::Model;

/// The fixes of one table: for each process the number of its fixes. A process without fixes has no entry in the map.
#[derive(Drop)]
pub struct Fixes {
    counts: IndexMap<u32, u32>,
}

// The value that contracts see of this type (`view`), and what is true of its fields between calls (`invariant`).
impl Model for Fixes {
    ghost use Rattle.std.specs.Coded.{coded_ℕ};
    ghost use Rattle.std.specs.FinMap as map;
    ghost use Rattle.fixed_walk.specs.Fixes.{FixCounts};
    ghost use Rattle.fixed_walk.specs.Invariants.{AreCounted};

    ghost Value = { FixCounts };

    ghost coded = { map.code coded_ℕ coded_ℕ };

    ghost view = { λ f. map.from_entries f.counts.entries };

    ghost invariant = { λ f. AreCounted (map.from_entries f.counts.entries) };
}

impl Fixes {
    /// Returns the fixes of a table that no process fixes.
    pub fn new(alloc: Global) -> Fixes
        ensures { result ≡ map.empty }
    {
        Fixes {
            counts: IndexMap::new(alloc),
        }
    }

    /// Returns the number of fixes of a process.
    pub fn count(&self, pid: u32) -> u32
        ensures { result ≡ fix_count self.now pid }
    {
        self.counts.get(&pid).copied().unwrap_or(0)
    }

    /// Returns whether some process has a fix.
    #[tactic(auto, using(crate::proofs::CountLaws::first_entries))]
    pub fn is_fixed(&self) -> bool
        ensures { result ≡ is_fixed self.now }
    {
        match self.counts.get_index(0) {
            Some(_) => true,
            None => false,
        }
    }

    /// Gives a proof the invariant: a table is fixed exactly if some process has a count above zero. It does nothing at
    /// run time.
    pub fn reveal_invariant(&self)
        ensures { IsFixedBySome self.now }
    {
        // The call changes nothing. It gives the proof the invariant of the map.
        let _ = self.counts.len();
    }

    /// Adds one fix of a process, which must have fewer than 4,294,967,295.
    pub fn increment(&mut self, pid: u32) -> Result<(), AllocError>
        requires { fix_count self.old pid < max_fixes }
        ensures ok { OnOk result (self.new ≡ with_count self.old pid (fix_count self.old pid + 1)) }
        ensures err { OnErr result (self.new ≡ self.old) }
    {
        let count = self.count(pid);
        self.set(pid, count + 1)
    }

    /// Sets the number of fixes of a process, which must be at least 1.
    pub fn set(&mut self, pid: u32, count: u32) -> Result<(), AllocError>
        requires { 0 < count }
        ensures ok { OnOk result (self.new ≡ with_count self.old pid count) }
        ensures err { OnErr result (self.new ≡ self.old) }
    {
        self.counts.insert(pid, count)?;
        Ok(())
    }

    /// Removes all fixes of one process. The fixes of all other processes stay.
    pub fn clear(&mut self, pid: u32)
        ensures { self.new ≡ with_count self.old pid 0 }
    {
        let _ = self.counts.swap_remove(&pid);
    }

    /// Removes one fix of a process, if it has one.
    pub fn decrement(&mut self, pid: u32)
        ensures { self.new ≡ with_count self.old pid (fix_count self.old pid - 1) }
    {
        let count = self.count(pid);
        if count > 1 {
            if let Some(stored_count) = self.counts.get_mut(&pid) {
                *stored_count = count - 1;
            }
        } else {
            let _ = self.counts.swap_remove(&pid);
        }
    }
}
