//! A `Vec` of which contracts see only the elements. It stores the elements of tuples and lists, and the bytes of
//! binaries.
ghost use Rattle.std.specs.Prelude.{◌≡◌, [], ◌∷◌, ◌++◌, ◌<◌, ◌==◌, length, slice_get, slice_set, slice_index, Some, OnOk, OnErr, MatchOption, option_copied};
ghost use Rattle.std.specs.Prelude.{◌^◌};
ghost use Rattle.std.specs.Iterator.Runs.{EveryRun, ItemsMapTo};
ghost use Rattle.std.specs.Slice.Iter.{iter_rest, iter_steps};

use std::alloc::{AllocError, Global};
use std::marker::Model;
use std::ops::DerefSlice;
use std::{mem, slice};

/// A `Vec` that contracts see as the list of its elements, so that a copy is equal to its original. Conversions from
/// and to a `Vec` take no memory.
#[derive(Debug, Drop)]
pub struct Items<T> {
    /// The elements, in order.
    pub(crate) items: Vec<T>,
}

// The value that contracts see of this type (`view`).
impl<T> Model for Items<T> {
    ghost use Rattle.std.specs.Prelude.{List};
    ghost use Rattle.std.specs.Coded.{coded_list};

    ghost Value = { List T };

    ghost coded = { coded_list T.code };

    ghost view = { λ it. it.items.items };
}

impl<T> Items<T> {
    /// Returns an empty list of items. Takes no memory.
    pub fn new(alloc: Global) -> Items<T>
        ensures { result ≡ [] }
    {
        Items {
            items: Vec::new(alloc),
        }
    }

    /// Returns the items of a `Vec`, and keeps its memory.
    pub fn from_vec(items: Vec<T>) -> Items<T>
        ensures { result ≡ items.items }
    {
        Self { items }
    }

    /// Returns the items as a `Vec`, with its memory.
    pub fn into_vec(self) -> Vec<T>
        ensures { result.items ≡ self }
    {
        let Items { items } = self;
        items
    }

    /// Returns the items in their order.
    pub fn as_slice(&self) -> &[T]
        ensures { result.now ≡ self.now }
    {
        self.items.as_slice()
    }

    /// Returns the number of items.
    pub fn len(&self) -> usize
        ensures { result ≡ length self.now }
    {
        self.items.len()
    }

    /// Returns whether there are no items.
    pub fn is_empty(&self) -> bool
        ensures { result ≡ (length self.now == 0) }
    {
        self.items.is_empty()
    }

    /// Returns the item at an index, counted from 0, or `None` past the end.
    pub fn get(&self, at: usize) -> Option<&T>
        ensures { option_copied result ≡ slice_get self.now at }
    {
        self.items.get(at)
    }

    /// Replaces the item at an index, counted from 0, and returns the old item. Other items stay.
    pub fn replace(&mut self, at: usize, item: T) -> T
        requires { at < length self.old }
        ensures new { self.new ≡ slice_set self.old at item }
        ensures old { slice_get self.old at ≡ Some result }
    {
        mem::replace(&mut self.items[at], item)
    }

    /// Removes the last item and returns it, or returns `None` if there are no items.
    pub fn pop(&mut self) -> Option<T>
        ensures { MatchOption result ((self.old ≡ []) × (self.new ≡ [])) (λ last. self.old ≡ self.new ++ last ∷ []) }
    {
        self.items.pop()
    }
}

impl<T: Drop> Items<T> {
    /// Appends an item. If memory is refused, returns an error and drops the item; the others stay as they are.
    pub fn push(&mut self, item: T) -> Result<(), AllocError>
        ensures ok { OnOk result (self.new ≡ self.old ++ item ∷ []) }
        ensures err { OnErr result (self.new ≡ self.old) }
    {
        self.items.push(item)?;
        Ok(())
    }
}

// `Items::from_vec` as a conversion: `from_gives` says what `from` returns.
impl<T> From<Vec<T>> for Items<T> {
    ghost from_gives = { λ v r. r ≡ v.items };

    fn from(items: Vec<T>) -> Items<T> {
        Items::from_vec(items)
    }
}

// `Items` used as a slice: `deref_gives` says what `deref` returns.
impl<T> DerefSlice for Items<T> {
    type Elem = T;

    ghost deref_gives = { λ v xs. xs ≡ v };

    fn deref(&self) -> &[T] {
        self.as_slice()
    }
}

impl<'a, T> IntoIterator for &'a Items<T> {
    type Item = &'a T;

    type IntoIter = slice::Iter<'a, T>;

    // The iterator has the items in order, and fewer than 2^64 of them. From any point on, its steps give references
    // to the items that are left.
    ghost into_iter_gives = { λ v it. (iter_rest it ≡ v.now) × (length (iter_rest it) < 2 ^ 64)
        × EveryRun (iter_steps {A = T}) (λ p. ItemsMapTo p (λ x. x.now) (iter_rest p.from)) };

    fn into_iter(self) -> slice::Iter<'a, T> {
        self.as_slice().iter()
    }
}
