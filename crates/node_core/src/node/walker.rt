//! The node's part of `walk_among`, a traversal among steps of other processes: it fixes the table, finds keys, and
//! releases the fix. It is here because it uses the private fields of `Node`.
ghost use Rattle.std.specs.Prelude.{◌≡◌, Some, option_copied, IsTrue};
ghost use Rattle.fixed_walk.specs.TableState.{IncrementsFix};
ghost use Rattle.fixed_walk.specs.laws.Walks.{walk_answer};
ghost use Rattle.table_ops.specs.Invariants.{IsContent};
ghost use Rattle.ownership.specs.World as model;
ghost use Rattle.node_core.specs.Observable.{observable};
ghost use Rattle.node_core.specs.Woven.{can_read};
ghost use Rattle.node_core.specs.inside.Walker.{CanContinue, FindsKey, FixesTable, FixOnBuckets, UnfixesTable, UnfixOnBuckets};

use super::Node;
use crate::walk::WalkFault;
use ets_term::{KeyHash, Term};
use std::alloc::Global;

impl<H: KeyHash + Copy + Drop> Node<H> {
    /// Returns the allocator of the node.
    pub(crate) fn allocator(&self) -> Global {
        self.alloc
    }

    /// Returns whether the process lives, and may read the table with this identifier.
    fn can_read(&self, pid: u32, id: u32) -> bool
        ensures { result ≡ can_read pid id self.now }
    {
        self.world.lives(pid) && self.world.may_read(pid, id)
    }

    /// Adds one fix of the process to the table.
    pub(crate) fn fix_table(&mut self, pid: u32, id: u32) -> Result<(), WalkFault>
        ensures fix { FixesTable pid id (observable self.old) result (observable self.new) }
        ensures buckets { FixOnBuckets pid id self.old result self.new }
    {
        if !self.can_read(pid, id) {
            return Err(WalkFault::Lost);
        }
        let Some(table) = self.table_mut(id) else {
            return Err(WalkFault::Lost);
        };
        table.reveal_invariant();
        table.fix(pid)?;
        Ok(())
    }

    /// Releases one fix of the process and returns `true`, if the process lives and may read the table. Otherwise
    /// changes nothing and returns `false`. It takes no memory.
    pub(crate) fn unfix_table(&mut self, pid: u32, id: u32) -> bool
        ensures release { UnfixesTable pid id (observable self.old) result (observable self.new) }
        ensures buckets { UnfixOnBuckets pid id self.old result self.new }
    {
        if !self.can_read(pid, id) {
            return false;
        }
        let Some(table) = self.table_mut(id) else {
            return false;
        };
        table.release(pid);
        true
    }

    /// Returns a copy of the key after `last`, or of the first key if `last` is `None`. Returns `None` at the end of
    /// the table, and `Lost` if the process does not live or may not read the table.
    pub(crate) fn next_key(
        &self,
        pid: u32,
        id: u32,
        last: Option<&Term>,
    ) -> Result<Option<Term>, WalkFault>
        requires { CanContinue id (observable self.now) (option_copied last) }
        ensures { FindsKey pid id (option_copied last.entry) (observable self.now) result }
    {
        if !self.can_read(pid, id) {
            return Err(WalkFault::Lost);
        }
        let Some(table) = self.world.table(id) else {
            return Err(WalkFault::Lost);
        };
        table.reveal_invariant();
        let found = match last {
            None => table.first(),
            Some(key) => match table.next(key) {
                Ok(found) => found,
                // `last` has a slot, because the table was fixed when `last` was found, and has been since.
                Err(_) => unreachable!(),
            },
        };
        match found {
            None => Ok(None),
            Some(key) => match key.to_term(self.alloc) {
                Ok(key) => Ok(Some(key)),
                Err(_) => Err(WalkFault::Memory),
            },
        }
    }
}
