//! How the identifier of a table enters a sorted list. The index by owner and the list of fixed tables consist of such
//! lists.
ghost use Rattle.std.specs.Prelude.{◌≡◌, ◌<◌, ◌≤◌, ℕ, OnOk, OnErr, IsOk, vec_capacity};
ghost use Rattle.ownership.specs.inside.Indices.{AscendsBetween, InsertsInOrder};

use std::alloc::AllocError;

/// Inserts `id` in the ascending list, unless it is already there. If memory is refused, nothing changes.
pub fn insert_in_order(ids: &mut Vec<u32>, id: u32) -> Result<(), AllocError>
    ensures ok { OnOk result (InsertsInOrder ids.old.items id ids.new.items) }
    ensures err { OnErr result (ids.new.items ≡ ids.old.items) }
    ensures room { (hi : ℕ) → AscendsBetween 0 hi ids.old.items → id < hi
        → hi ≤ vec_capacity ids.old → IsOk result }
    ensures capacity { vec_capacity ids.old ≤ vec_capacity ids.new }
{
    match ids.binary_search(&id) {
        Ok(_) => Ok(()),
        Err(index) => {
            ids.insert(index, id)?;
            Ok(())
        }
    }
}
