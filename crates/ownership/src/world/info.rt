//! The values of the items of `ets:info/2` for one table.
ghost use Rattle.std.specs.Prelude.{◌≡◌, IfOk, option_map};
ghost use Rattle.ownership.specs.World.{table_at};
ghost use Rattle.ownership.specs.Info.{info_of};

use super::World;
use crate::info::{InfoItem, boolean_atom, heir_term, kind_term, protection_term};
use crate::table::OwnedTable;
use bucket_table::Rows;
use ets_term::{Integer, Term};
use std::alloc::{AllocError, Global};

impl<R: Rows> World<R> {
    /// Returns an item of information on a table (stdlib manual, ets:info/2), or `None` if the table does not exist.
    pub fn info(&self, id: u32, item: InfoItem) -> Result<Option<Term>, AllocError>
        ensures { IfOk result (λ value.
            value ≡ option_map (info_of item id) (table_at self.now.tables id)) }
    {
        match self.tables.get(id as usize) {
            Some(Some(table)) => Ok(Some(info_value(self.alloc, table, id, item)?)),
            _ => Ok(None),
        }
    }
}

/// Returns the value of one item of information on a table.
fn info_value<R: Rows>(
    alloc: Global,
    owned: &OwnedTable<R>,
    id: u32,
    item: InfoItem,
) -> Result<Term, AllocError>
    ensures { IfOk result (λ t. t ≡ info_of item id owned.now) }
{
    let metadata = owned.metadata();
    let table = owned.table();
    match item {
        InfoItem::Name => Ok(Term::Atom(metadata.name.try_clone(alloc)?)),
        InfoItem::NamedTable => boolean_atom(alloc, metadata.named),
        InfoItem::Owner => Ok(Term::Pid(metadata.owner)),
        InfoItem::Protection => protection_term(alloc, metadata.protection),
        InfoItem::Heir => heir_term(alloc, &metadata.heir),
        InfoItem::Id => Ok(Term::Tid(id)),
        InfoItem::Size => Ok(Term::Int(table.size() as Integer)),
        InfoItem::Kind => kind_term(alloc, table.kind()),
        InfoItem::Keypos => Ok(Term::Int(table.keypos() as Integer)),
        InfoItem::Fixed => boolean_atom(alloc, table.is_fixed()),
    }
}
