//! An iterator over the slots of a table, each a key with its objects. It visits the places in ascending order: a place
//! locates a slot in its rows, and places may have gaps.
ghost use Rattle.std.specs.Prelude.{◌≡◌, IfSome, IsSome, option_map};
ghost use Rattle.std.specs.Iterator.{YieldsFirstBy, item_count};
ghost use Rattle.bucket_table.specs.Lent.{slot_of_ref};
ghost use Rattle.table_ops.specs.inside.SlotsLeft.{IsPlaced};

use bucket_table::{KeyRef, Place, Rows};
use packed_term::Object;
use std::marker::Model;

/// A slot with its place.
#[derive(Clone, Copy)]
pub struct PlacedSlot<'a> {
    place: Place,
    key: KeyRef<'a>,
    objects: &'a [Object],
}

/// An iterator over the slots of rows, in their order. It reads each slot one call ahead: `next_slot` is the slot that
/// the next call returns. `returned_count` is the number of slots returned so far.
#[derive(Drop)]
pub struct Slots<'a, R: Rows> {
    rows: &'a R,
    next_slot: Option<PlacedSlot<'a>>,
    returned_count: usize,
}

// The value that contracts see of this type (`view`), and what is true of its fields between calls (`invariant`).
impl<'a, R: Rows> Model for Slots<'a, R> {
    ghost use Rattle.std.specs.Prelude.{List, drop};
    ghost use Rattle.bucket_table.specs.Slots.{Slot};
    ghost use Rattle.table_ops.specs.inside.Codes.{slots_code};
    ghost use Rattle.table_ops.specs.inside.SlotsLeft.{SlotsInvariant};

    ghost Value = { List Slot };

    ghost coded = { slots_code };

    ghost view = { λ it. drop it.returned_count (R.slots it.rows.now) };

    ghost invariant = { λ it. SlotsInvariant (R.key_at it.rows.now) (R.slots it.rows.now) it.returned_count it.next_slot };
}

impl<'a, R: Rows> Iterator for Slots<'a, R> {
    type Item = (KeyRef<'a>, &'a [Object]);

    ghost next_gives = { YieldsFirstBy slot_of_ref (λ rest. rest) };

    ghost remaining = { item_count (λ rest. rest) };

    fn next(&mut self) -> Option<(KeyRef<'a>, &'a [Object])> {
        let Some(slot) = self.next_slot else {
            return None;
        };
        self.next_slot = slot_at(self.rows, self.rows.next_place(slot.place));
        self.returned_count += 1;
        Some((slot.key, slot.objects))
    }
}

/// Returns the slot at a place, with the place, if there is a place.
#[inline(always)]
fn slot_at<R: Rows>(rows: &R, place: Option<Place>) -> Option<PlacedSlot<'_>>
    requires { IfSome place (λ p. IsSome (R.key_at rows.now p)) }
    ensures place { option_map (λ slot. slot.place) result ≡ place }
    ensures placed { IfSome result (IsPlaced (R.key_at rows.now) (R.slots rows.now)) }
{
    let place = place?;
    let (key, objects) = rows.slot_at(place);
    Some(PlacedSlot {
        place,
        key,
        objects,
    })
}

/// Returns an iterator over all slots of `rows`.
pub fn all_of<R: Rows>(rows: &R) -> Slots<'_, R>
    ensures { result ≡ R.slots rows.now }
{
    rows.reveal_invariant();
    // The call changes nothing. It gives the proof that the number of slots is a `usize`.
    let _len = rows.len();
    Slots {
        rows,
        next_slot: slot_at(rows, rows.first_place()),
        returned_count: 0,
    }
}
