//! Calls on all slots, `clear` and `purge`, made on rows and on the list that `calls` compares them with.
use super::*;

/// A call on all slots.
#[derive(Clone, Copy)]
enum Sweep {
    /// `clear` that makes a tombstone of each slot.
    LeaveTombstones,
    /// `clear` that removes each slot that has objects, and keeps the tombstones.
    RemoveSlotsWithObjects,
    /// `purge`, which removes each tombstone.
    Purge,
}

/// Returns the state that a key must have after a call on all slots.
fn state_after_sweep(sweep: Sweep, before: KeyState) -> KeyState {
    match (sweep, before) {
        (Sweep::LeaveTombstones, KeyState::Object(_)) => KeyState::Tombstone,
        (Sweep::RemoveSlotsWithObjects, KeyState::Object(_)) => KeyState::Nothing,
        (Sweep::Purge, KeyState::Tombstone) => KeyState::Nothing,
        (_, before) => before,
    }
}

/// Draws a call on all slots: `purge` most often.
fn draw_sweep(draws: &mut Draws) -> Sweep {
    match draws.random_below(6) {
        0 => Sweep::LeaveTombstones,
        1 => Sweep::RemoveSlotsWithObjects,
        _ => Sweep::Purge,
    }
}

/// Sets the state of each key of the list to the one after a call on all slots.
fn sweep_list(list: &mut [KeyState], sweep: Sweep) {
    for state in list.iter_mut() {
        let before = *state;
        *state = state_after_sweep(sweep, before);
    }
}

/// Makes a random call on all slots of rows and of the list, once in about four times.
pub(super) fn sweep_sometimes<R: Rows>(rows: &mut R, list: &mut [KeyState], draws: &mut Draws) {
    if draws.random_below(4) != 0 {
        return;
    }
    let sweep = draw_sweep(draws);
    match sweep {
        Sweep::LeaveTombstones => rows.clear(true),
        Sweep::RemoveSlotsWithObjects => rows.clear(false),
        Sweep::Purge => rows.purge(),
    }
    sweep_list(list, sweep);
}
