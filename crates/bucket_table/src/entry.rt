//! The place of a slot (a key with its objects), and the result of a search before an insertion.

/// The place of a slot: its index in the rows. It is valid until a slot is inserted, or until this slot or one before
/// it is removed. The removal of a later slot leaves it valid.
pub type Place = usize;

/// The result of a search for an insertion: the place of the key's slot, or the hash of a key without a slot.
#[derive(Clone, Copy)]
pub enum SlotEntry {
    /// The key has a slot, at this place.
    Occupied(Place),
    /// The key has no slot, and this is its hash, for `Rows::put_at`.
    Vacant(u32),
}
