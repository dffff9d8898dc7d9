//! Traversals of all slots of rows. Each next slot is found twice: by `next_place`, and by `next_at` of the key.
use super::*;

/// Returns the integer that a key is, or -1 for a key of another type.
fn number_of(key: KeyRef<'_>) -> Integer {
    key.as_integer().unwrap_or(-1)
}

/// Returns the key of the first slot, or `None` if there is no slot.
fn first_key<R: Rows>(rows: &R) -> Option<Integer> {
    let place = rows.first_place()?;
    let (key, _objects) = rows.slot_at(place);
    Some(number_of(key))
}

/// Returns the key after another, found by `next_place`. `None` means that `key` is the last key or has no slot.
fn key_after<R: Rows>(rows: &R, key: Integer) -> Option<Integer> {
    let term = Term::Int(key);
    let found = rows.find(&term);
    drop(term);
    let place = found?;
    let next = rows.next_place(place)?;
    let (key, _objects) = rows.slot_at(next);
    Some(number_of(key))
}

/// Returns whether `next_at` gives `next` after `key`, where `None` means that `key` is the last.
fn is_key_after<R: Rows>(rows: &R, key: Integer, next: Option<Integer>) -> bool {
    let term = Term::Int(key);
    let is_next = match rows.next_at(&term) {
        Some(Some((key, _objects))) => next == Some(number_of(key)),
        Some(None) => next == None,
        None => false,
    };
    drop(term);
    is_next
}

/// Returns whether a traversal from the first slot takes as many steps as there are slots and then ends, and
/// `next_place` and `next_at` agree at each.
pub(super) fn traverses<R: Rows>(rows: &R) -> bool {
    let mut all_right = true;
    let mut next_key = first_key(rows);
    for _ in 0..rows.len() {
        if let Some(key) = next_key {
            next_key = key_after(rows, key);
            all_right = is_key_after(rows, key, next_key) && all_right;
        } else {
            all_right = false;
        }
    }
    all_right && next_key == None
}
