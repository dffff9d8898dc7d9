//! The index of the slots: the split-ordered list, the directory and the hints, which change together. The directory
//! has the place of each bucket's dummy (its first node). A hint caches the place of the first item of an interval (at
//! most a quarter of a bucket).
ghost use Rattle.std.specs.Prelude.{◌≡◌, ◌∷◌, [], true, false, None, IfOk, map, is_some};
ghost use Rattle.node_list.specs.Cells.{new_cell};
ghost use Rattle.bucket_table.specs.inside.Directory.{IsFirstUnready};
ghost use Rattle.bucket_table.specs.inside.SplitIndex.{RowsInvariant};

// The modules: ready `buckets`, the operations `find`, `insert`, `remove` and `sweep`, the `start` of a search, and the
// `rehash` of a bucket's hints.
mod buckets;
mod find;
mod insert;
mod rehash;
mod remove;
mod start;
mod sweep;

pub use self::buckets::item_hash;
use super::directory::Directory;
use super::hints::Hints;
use ets_term::KeyHash;
use node_list::NodeList;
use std::alloc::{AllocError, Global};

/// A split-ordered list, the directory of its dummies and the hints. Each method keeps these three consistent.
#[derive(Drop)]
pub struct SplitIndex<H: KeyHash + Copy + Drop> {
    pub hasher: H,
    pub list: NodeList,
    pub directory: Directory,
    pub hints: Hints,
}

impl<H: KeyHash + Copy + Drop> SplitIndex<H> {
    /// Creates an index without items and with two buckets, of which the first is ready.
    pub fn new(alloc: Global, hasher: H) -> Result<SplitIndex<H>, AllocError>
        ensures rows { IfOk result (λ index. RowsInvariant H.hash index) }
        ensures cells { IfOk result (λ index. index.list.cells ≡ new_cell 0 0 None ∷ []) }
        ensures buckets { IfOk result (λ index. map is_some index.directory ≡ true ∷ false ∷ []) }
        ensures first_unready { IfOk result (λ index. IsFirstUnready index.directory 1) }
        ensures hasher { IfOk result (λ index. index.hasher ≡ hasher) }
    {
        let list = NodeList::new(alloc)?;
        let head = list.head();
        let directory = Directory::new(alloc, head)?;
        let hints = Hints::new(alloc)?;
        Ok(SplitIndex {
            hasher,
            list,
            directory,
            hints,
        })
    }
}
