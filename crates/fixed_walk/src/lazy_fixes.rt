//! The fixes of a table, in a box that the first fix makes. Few tables are ever fixed, and an empty map of fixes takes
//! 112 bytes.
ghost use Rattle.std.specs.Prelude.{◌≡◌, ◌+◌, ◌-◌, ◌<◌, OnOk, OnErr};
ghost use Rattle.std.specs.FinMap as map;
ghost use Rattle.fixed_walk.specs.Fixes.{max_fixes, fix_count, is_fixed, with_count};
ghost use Rattle.fixed_walk.specs.Invariants.{IsFixedBySome};

use crate::fixes::Fixes;
use std::alloc::{AllocError, Global};
use std::marker::Model;

/// The fixes of one table, as `Fixes`. A table that was never fixed has no box. The box stays when it has no fixes
/// left, so a release takes no memory.
#[derive(Drop)]
pub struct LazyFixes {
    alloc: Global,
    fixes: Option<Box<Fixes>>,
}

// The value that contracts see of this type (`view`).
impl Model for LazyFixes {
    ghost use Rattle.std.specs.Coded.{coded_ℕ};
    ghost use Rattle.std.specs.FinMap as map;
    ghost use Rattle.fixed_walk.specs.Fixes.{FixCounts};
    ghost use Rattle.fixed_walk.specs.inside.LazyFixes.{boxed_fixes};

    ghost Value = { FixCounts };

    ghost coded = { map.code coded_ℕ coded_ℕ };

    ghost view = { λ f. boxed_fixes f.fixes };
}

impl LazyFixes {
    /// Returns the fixes of a table that no process fixes. Takes no memory.
    pub fn new(alloc: Global) -> LazyFixes
        ensures { result ≡ map.empty }
    {
        LazyFixes { alloc, fixes: None }
    }

    /// Returns the number of fixes of a process.
    pub fn count(&self, pid: u32) -> u32
        ensures { result ≡ fix_count self.now pid }
    {
        match &self.fixes {
            Some(fixes) => fixes.count(pid),
            None => 0,
        }
    }

    /// Returns whether some process has a fix.
    pub fn is_fixed(&self) -> bool
        ensures { result ≡ is_fixed self.now }
    {
        match &self.fixes {
            Some(fixes) => fixes.is_fixed(),
            None => false,
        }
    }

    /// Gives a proof the invariant: a table is fixed exactly if some process has a count above zero. It changes
    /// nothing.
    pub fn reveal_invariant(&self)
        ensures { IsFixedBySome self.now }
    {
        if let Some(fixes) = &self.fixes {
            fixes.reveal_invariant();
        }
    }

    /// Adds one fix of a process, which must have fewer than 4,294,967,295. Makes the box if there is none.
    pub fn increment(&mut self, pid: u32) -> Result<(), AllocError>
        requires { fix_count self.old pid < max_fixes }
        ensures ok { OnOk result (self.new ≡ with_count self.old pid (fix_count self.old pid + 1)) }
        ensures err { OnErr result (self.new ≡ self.old) }
    {
        if let Some(fixes) = &mut self.fixes {
            return fixes.increment(pid);
        }
        let mut fixes = Fixes::new(self.alloc);
        fixes.increment(pid)?;
        self.fixes = Some(Box::new(self.alloc, fixes)?);
        Ok(())
    }

    /// Removes all fixes of one process. The fixes of all other processes stay.
    pub fn clear(&mut self, pid: u32)
        ensures { self.new ≡ with_count self.old pid 0 }
    {
        if let Some(fixes) = &mut self.fixes {
            fixes.clear(pid);
        }
    }

    /// Removes one fix of a process, if it has one.
    pub fn decrement(&mut self, pid: u32)
        ensures { self.new ≡ with_count self.old pid (fix_count self.old pid - 1) }
    {
        if let Some(fixes) = &mut self.fixes {
            fixes.decrement(pid);
        }
    }
}
