//! How a call finds the table that its first argument names, if the protection lets the process read it or write to it.
ghost use Rattle.std.specs.Prelude.{◌≡◌, option_copied, option_map};
ghost use Rattle.std.specs.Option.{option_copied_mut};
ghost use Rattle.std.specs.Borrow.{sem};
ghost use Rattle.node_core.specs.declared.node.access.Access.TheVariants.{Read};
ghost use Rattle.ownership.specs.Lookups.{state_at};
ghost use Rattle.node_core.specs.Access.{may_access, usable};
ghost use Rattle.node_core.specs.inside.Lending.{usable_state};

use super::Node;
use super::due::mark_dirty;
use bucket_table::{Rows, SplitRows};
use ets_term::{KeyHash, Term};
use fixed_walk::Walked;
use ownership::Metadata;

/// The access to a table that a call needs.
#[derive(Clone, Copy)]
pub enum Access {
    Read,
    Write,
}

impl<H: KeyHash + Copy + Drop> Node<H> {
    ghost use Rattle.node_core.specs.inside.Lending.{LendsTable, LendsUsable};

    /// Returns the table that a term names, or `None` if there is no such table or the process may not read it.
    #[inline(always)]
    pub(crate) fn readable_table(&self, pid: u32, term: &Term) -> Option<&Walked<SplitRows<H>>>
        ensures { option_copied result ≡ usable_state Read self.now.world.tables pid term.now }
    {
        let id = self.world.resolve(term)?;
        let metadata = self.world.metadata(id)?;
        if !may_access(Access::Read, metadata, pid) {
            return None;
        }
        self.world.table(id)
    }

    /// Borrows the table that a term names for a change. Returns `None` if there is no such table, or the process does
    /// not have this access to it.
    // `lends`: when the borrow ends, this table has what the borrower wrote, and the rest of the node's state is as
    // before. If the result is `None`, all of it is as before.
    #[inline(always)]
    pub(crate) fn usable_table_mut(
        &mut self,
        access: Access,
        pid: u32,
        term: &Term,
    ) -> Option<&mut Walked<SplitRows<H>>>
        ensures* lends { sem 𝓛
            (LendsUsable H.row H.KeyHash H.Clone ⟦<SplitRows<H> as Rows>⟧
            self.entry access pid term.now result) }
        ensures value { option_copied_mut result
            ≡ usable_state access self.old.world.tables pid term.now }
    {
        let id = self.world.resolve(term)?;
        let metadata = self.world.metadata(id)?;
        if !may_access(access, metadata, pid) {
            return None;
        }
        self.table_mut(id)
    }

    /// Borrows the table with this identifier for a change, or returns `None` if there is no such table. Marks the
    /// table dirty, because the change may leave it with a pending growth step.
    #[inline(always)]
    pub(crate) fn table_mut(&mut self, id: u32) -> Option<&mut Walked<SplitRows<H>>>
        ensures* lends { sem 𝓛
            (LendsTable H.row H.KeyHash H.Clone ⟦<SplitRows<H> as Rows>⟧ self.entry id result) }
        ensures value { option_copied_mut result ≡ state_at self.old.world.tables id }
    {
        mark_dirty(&self.world, &mut self.pending, id);
        self.world.table_mut(id)
    }

    /// Returns the identifier of the table that a term names. Returns `None` if there is no such table, or the process
    /// does not have this access to it.
    pub(crate) fn usable_id(&self, access: Access, pid: u32, term: &Term) -> Option<u32>
        ensures { result
            ≡ option_map (λ found. found.0) (usable access self.now.world.tables pid term.now) }
    {
        let id = self.world.resolve(term)?;
        let metadata = self.world.metadata(id)?;
        if !may_access(access, metadata, pid) {
            return None;
        }
        Some(id)
    }
}

/// Checks whether a process may read, or may write, the table with this metadata.
fn may_access(access: Access, metadata: &Metadata, pid: u32) -> bool
    ensures { result ≡ may_access access metadata.now pid }
{
    match access {
        Access::Read => metadata.may_read(pid),
        Access::Write => metadata.may_write(pid),
    }
}
