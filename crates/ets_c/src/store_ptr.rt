//! The pointer to a store that C keeps.
ghost use Rattle.std.specs.Prelude.{◌≡◌, Option, None, Some, IsSome};
ghost use Rattle.std.specs.Coded.{coded_option};
ghost use Rattle.std_alloc.specs.Box.Ownership.{box_owns};
ghost use Rattle.node_text.specs.StoreState.{StoreState};
ghost use Rattle.node_text.specs.contracts.store.Store.{the_row as store_row};

use node_text::Store;
use std::alloc::{Allocator, Global};
use std::marker::Model;

/// What a box consists of, its pointer and its allocator. It owns what the box owned.
pub(crate) struct RawBox<T, A: Allocator> {
    pub(crate) at: *mut T,
    pub(crate) alloc: A,
    ghost value: { T },
}

impl<T, A: Allocator> Model for RawBox<T, A> {
    ghost also_owns = { λ l. box_owns (A.dealloc_token l.alloc) T.row l.at l.value };
}

impl<T: Drop, A: Allocator> RawBox<T, A> {
    /// Turns a box into its pointer and its allocator.
    pub(crate) fn from_box(value: Box<T, A>) -> RawBox<T, A>
        ensures { result.value ≡ value.value }
    {
        let (at, alloc) = Box::into_raw_with_allocator(value);
        RawBox { at, alloc }
    }

    /// Turns the pointer and the allocator back into the box.
    pub(crate) fn into_box(self) -> Box<T, A>
        ensures { result.value ≡ self.value }
    {
        let RawBox { at, alloc } = self;
        // The pointer and the allocator are those of a box that `self` owned, so nothing else frees it.
        unsafe { Box::from_raw(alloc, at) }
    }
}

/// A pointer that C keeps, which owns a store or nothing.
#[repr(C)]
#[derive(Drop)]
pub struct StorePtr {
    /// Where the store is; null if there is none.
    at: *mut u8,
    alloc: Global,
    pub ghost store: { Option StoreState } by { coded_option store_row.coded },
}

impl Model for StorePtr {
    ghost use Rattle.ets_c.specs.inside.Holds.{holds};
    ghost use Rattle.node_text.specs.contracts.store.Store.{the_row};

    ghost also_owns = { λ h. holds the_row h.alloc h.at h.store };
}

// The pointer is the only owner of the store, and `free` may run on any thread.
unsafe impl Send for StorePtr {}

impl StorePtr {
    /// Turns the pointer of a box into a pointer that C can hold, without the type `Store`.
    pub(crate) fn from_raw_box(raw_box: RawBox<Store, Global>) -> StorePtr
        ensures { result.store ≡ Some raw_box.value }
    {
        let RawBox { at, alloc } = raw_box;
        StorePtr {
            at: at as *mut u8,
            alloc,
        }
    }

    /// Turns the pointer back into that of a box, with the type `Store`. The pointer must own a store.
    pub(crate) fn into_raw_box(self) -> RawBox<Store, Global>
        requires { IsSome self.store }
        ensures { self.store ≡ Some result.value }
    {
        let StorePtr { at, alloc } = self;
        RawBox {
            at: at as *mut Store,
            alloc,
        }
    }

    /// Makes a null pointer, which owns no store.
    pub(crate) fn empty(alloc: Global) -> StorePtr
        ensures { result.store ≡ None }
    {
        StorePtr {
            at: std::ptr::null_mut(),
            alloc,
        }
    }
}
