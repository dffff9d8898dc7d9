//! The hash map from the names of named tables to their identifiers. A search tries the last entry first, without a
//! hash of the name.
ghost use Rattle.std.specs.Prelude.{◌≡◌, ◌++◌, ◌∷◌, ℕ, [], true, List, Option, Some, None, IfSome, OnOk, OnErr, length, slice_set};
ghost use Rattle.indexmap.specs.IndexMap.{get_by_text};
ghost use Rattle.ownership.specs.declared.metadata.Metadata as model;
ghost use Rattle.ownership.specs.World.{Tables, metadata_of, table_at, whereis};
ghost use Rattle.ownership.specs.inside.Names.{find_named, NameIndexIsExact};
ghost use Rattle.ownership.specs.inside.Indices.{IndicesInvariant};

use super::Indices;
use crate::metadata::Metadata;
use ets_term::Atom;
use std::alloc::{AllocError, Global};

impl Indices {
    /// Returns the identifier of the table with this name, or `None`. It first compares the name with that of the last
    /// entry of the index, which takes no hash.
    pub fn find(&self, name: &Atom) -> Option<u32>
        ensures { (tables : Tables) → IndicesInvariant self.now tables → result ≡ whereis tables name.now }
    {
        match self.if_last_entry(name) {
            Some(id) => Some(id),
            None => self.look_up(name),
        }
    }

    /// Returns the identifier under this name, found by the hash of the name. It is not inlined, so that the code of
    /// `find` for the last entry stays short.
    #[inline(never)]
    fn look_up(&self, name: &Atom) -> Option<u32>
        ensures { result ≡ get_by_text self.now.names name.now }
    {
        self.names.get(name.text()).copied()
    }

    /// Compares this name with that of the last entry of the index. Returns the entry's identifier if they are equal.
    #[inline(always)]
    fn if_last_entry(&self, name: &Atom) -> Option<u32>
        ensures { IfSome result (λ id. get_by_text self.now.names name.now ≡ Some id) }
    {
        match self.names.get_index(self.names.len().saturating_sub(1)) {
            Some((last, id)) if last.as_str() == name.text() => Some(*id),
            _ => None,
        }
    }

    /// Adds the identifier of a new table under its name, if the table is named.
    pub(super) fn index_name(
        &mut self,
        alloc: Global,
        metadata: &Metadata,
        id: u32,
    ) -> Result<(), AllocError>
        ensures rest { self.new ≡ record self.old { names = self.new.names } }
        ensures ok { OnOk result
            ((hs : List (Option model.Metadata)) → length hs ≡ id
            → NameIndexIsExact (get_by_text self.old.names) hs
            → (metadata.now.named ≡ true → find_named hs metadata.now.name ≡ None)
            → NameIndexIsExact (get_by_text self.new.names) (hs ++ Some metadata.now ∷ [])) }
        ensures err { OnErr result
            ((hs : List (Option model.Metadata)) → NameIndexIsExact (get_by_text self.old.names) hs
            → NameIndexIsExact (get_by_text self.new.names) hs) }
    {
        if metadata.named {
            self.names
                .insert(String::from_str(alloc, metadata.name.text())?, id)?;
        }
        Ok(())
    }

    /// Removes the name of a named table from the index, so that another table can have it. This takes no memory.
    pub fn remove(&mut self, metadata: &Metadata)
        ensures rest { self.new ≡ record self.old { names = self.new.names } }
        ensures indices { (tables : Tables) (t : ℕ) → metadata_of (table_at tables t) ≡ Some metadata.now
            → IndicesInvariant self.old tables → IndicesInvariant self.new (slice_set tables t None) }
    {
        if metadata.named {
            // This changes the order of the index. The order does not matter, because `if_last_entry` compares the
            // name.
            let _ = self.names.swap_remove(metadata.name.text());
        }
    }
}
