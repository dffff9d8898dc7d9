//! How to undo one insertion. The undo log of a list of objects has one `Undo` for each inserted object. A chain is the
//! list of objects of one slot.
ghost use Rattle.std.specs.Prelude.{◌≡◌};
ghost use Rattle.table_ops.specs.inside.Undo.{added_objects};

use node_list::Chain;

/// A part of an undo log: what is needed to undo the insertion of one object, which takes no memory.
#[derive(Drop)]
pub enum Undo {
    /// The key had no slot: remove its slot.
    NewSlot,
    /// The object was put in a set's slot, which had these objects, or no object if it was a tombstone: restore them.
    Objects(Chain),
    /// The object was appended to the slot of the key: remove its last object.
    LastObject,
    /// The object was already in the bag: change nothing.
    Nothing,
}

impl Undo {
    /// Returns the number of objects that the insertion added to the table: 0 or 1.
    pub fn added_objects(&self) -> usize
        ensures { result ≡ added_objects self.now }
    {
        match self {
            Undo::NewSlot => 1,
            // An empty chain means that the slot was a tombstone, so the insertion added an object.
            Undo::Objects(objects) => { if objects.len() == 0 { 1 } else { 0 } }
            Undo::LastObject => 1,
            Undo::Nothing => 0,
        }
    }
}
