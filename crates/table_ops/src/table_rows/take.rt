//! The removal of objects from the slot at a place, which is its index. `hold` keeps an emptied slot as a tombstone, a
//! slot without objects.
ghost use Rattle.std.specs.Prelude.{◌≡◌, ◌||◌, [], Some, IsSome};
ghost use Rattle.bucket_table.specs.Slots.{has_objects};
ghost use Rattle.bucket_table.specs.Rows.{HasDistinctKeys};
ghost use Rattle.bucket_table.specs.Entries.{objects_in};
ghost use Rattle.table_ops.specs.inside.TableRows.{ChangesSlotsOnly, IsPlaceOfKey};
ghost use Rattle.table_ops.specs.inside.Removal.{after_removal, DeletesObjects, RemovesObject};
ghost use Rattle.table_ops.specs.inside.Undo.{ForKey};

use super::TableRows;
use bucket_table::{Place, Rows};
use ets_term::Term;
use node_list::Chain;
use packed_term::Object;

impl<R: Rows> TableRows<R> {
    /// Returns the place of a key's slot, or `None` if the key has no slot.
    pub(crate) fn find(&self, key: &Term) -> Option<Place>
        ensures place { IsPlaceOfKey (R.slots self.now.rows) (R.key_at self.now.rows) key.now result }
        ensures distinct { HasDistinctKeys (R.slots self.now.rows) }
    {
        self.rows.reveal_invariant();
        self.rows.find(key)
    }

    /// Drops the objects of the slot at a place and returns their number. The slot stays as a tombstone if `hold` is
    /// true, or if it already was a tombstone.
    pub(crate) fn delete_objects_at(&mut self, hold: bool, place: Place) -> usize
        requires { IsSome (R.key_at self.old.rows place) }
        ensures slots { ForKey (R.key_at self.old.rows place) (λ key.
            DeletesObjects hold (R.slots self.old.rows) key result (R.slots self.new.rows)) }
        ensures keeps { ChangesSlotsOnly R.readiness self.old self.new }
    {
        if hold || self.rows.objects_at(place).is_empty() {
            return self.rows.replace_at(place, Chain::new(self.alloc)).len();
        }
        self.rows.delete_at(place)
    }

    /// Removes all objects that equal `object` from a slot and returns their number. A slot that loses its last object
    /// is removed, or stays as a tombstone if `hold` is true. A slot that already was a tombstone stays.
    pub(crate) fn remove_object_at(&mut self, hold: bool, place: Place, object: &Term) -> usize
        requires { IsSome (R.key_at self.old.rows place) }
        ensures slots { ForKey (R.key_at self.old.rows place) (λ key.
            RemovesObject hold (R.slots self.old.rows) key object.now result (R.slots self.new.rows)) }
        ensures keeps { ChangesSlotsOnly R.readiness self.old self.new }
    {
        // Takes the objects out of the slot. If the slot stays, the remaining objects are put back.
        let mut objects = self.rows.replace_at(place, Chain::new(self.alloc));
        let was_tombstone = objects.len() == 0;
        let count = objects.remove_all(object);
        if slot_stays(hold, was_tombstone, objects.as_slice()) {
            let _ = self.rows.replace_at(place, objects);
        } else {
            let _ = self.rows.delete_at(place);
        }
        count
    }
}

/// Returns whether a slot stays in the table, if it has these objects after a deletion. `was_tombstone` says whether it
/// had no objects before.
fn slot_stays(hold: bool, was_tombstone: bool, objects: &[Object]) -> bool
    ensures { result ≡ (hold || has_objects objects.now || was_tombstone) }
{
    hold || !objects.is_empty() || was_tombstone
}
