//! The calls of a traversal: the first key, and the key after another, in the order of the slots. They pass over
//! tombstones, the slots without objects.
ghost use Rattle.std.specs.Prelude.{◌≡◌, Some, None, option_copied, option_map, IfOk, OnErr};
ghost use Rattle.bucket_table.specs.Lent.{key_of_ref, slot_of_ref};
ghost use Rattle.fixed_walk.specs.Walk.{first_key, next_key, first_slot, next_slot};
ghost use Rattle.fixed_walk.specs.inside.From.{slots_from, HasSlotAt};

use super::Walked;
use crate::fault::Badarg;
use bucket_table::{KeyRef, Place, Rows};
use ets_term::Term;
use packed_term::Object;

impl<R: Rows> Walked<R> {
    /// Returns the first key that has objects, or `None` if no key has (stdlib manual, ets:first/1). It visits the
    /// tombstones before that key.
    pub fn first(&self) -> Option<KeyRef<'_>>
        ensures { option_map key_of_ref result ≡ first_key self.now.content.slots }
    {
        key_of(self.first_lookup())
    }

    /// Returns the first key that has objects after the slot of this key, or `None` at the end (stdlib manual,
    /// ets:next/2). Refuses with `Badarg` if the key has no slot. A key that was deleted while the table is fixed still
    /// has a slot. It searches for the key, and then visits the tombstones after it.
    pub fn next(&self, key: &Term) -> Result<Option<KeyRef<'_>>, Badarg>
        ensures ok { IfOk result (λ found.
            next_key self.now.content.slots key.now ≡ Some (option_map key_of_ref found)) }
        ensures err { OnErr result (next_key self.now.content.slots key.now ≡ None) }
    {
        let slot = self.next_lookup(key)?;
        Ok(key_of(slot))
    }

    /// Returns the first key that has objects, with its objects, oldest first, or `None` if no key has (stdlib manual,
    /// ets:first_lookup/1). It visits the tombstones before that key.
    pub fn first_lookup(&self) -> Option<(KeyRef<'_>, &[Object])>
        ensures { option_map slot_of_ref result ≡ first_slot self.now.content.slots }
    {
        let rows = self.table.rows();
        first_nonempty(rows, rows.first_place())
    }

    /// Returns the first key that has objects after the slot of this key, with its objects, oldest first, or `None` at
    /// the end (stdlib manual, ets:next_lookup/2). Refuses with `Badarg` if the key has no slot. It takes as long as
    /// `next`.
    pub fn next_lookup(&self, key: &Term) -> Result<Option<(KeyRef<'_>, &[Object])>, Badarg>
        ensures ok { IfOk result (λ found.
            next_slot self.now.content.slots key.now ≡ Some (option_map slot_of_ref found)) }
        ensures err { OnErr result (next_slot self.now.content.slots key.now ≡ None) }
    {
        let rows = self.table.rows();
        rows.reveal_invariant();
        let Some(place) = rows.find(key) else {
            return Err(Badarg);
        };
        Ok(first_nonempty(rows, rows.next_place(place)))
    }
}

/// Returns the key of a slot, or `None` if there is no slot.
fn key_of<'a>(slot: Option<(KeyRef<'a>, &'a [Object])>) -> Option<KeyRef<'a>>
    ensures { option_map key_of_ref result
        ≡ option_map (λ slot. slot.0) (option_map slot_of_ref slot.entry) }
{
    match slot {
        Some((key, _)) => Some(key),
        None => None,
    }
}

/// Returns the first slot that has objects, from the place `start` on, or `None` if there is none.
fn first_nonempty<R: Rows>(rows: &R, start: Option<Place>) -> Option<(KeyRef<'_>, &[Object])>
    requires { HasSlotAt (R.key_at rows.now) start }
    ensures { option_map slot_of_ref result
        ≡ first_slot (slots_from (R.key_at rows.now) (R.slots rows.now) start) }
{
    rows.reveal_invariant();
    // Each round visits another slot, so there are at most as many rounds as slots.
    let mut at = start;
    for _ in 0..rows.len() {
        let place = at?;
        let (key, objects) = rows.slot_at(place);
        if !objects.is_empty() {
            return Some((key, objects));
        }
        at = rows.next_place(place);
    }
    None
}
