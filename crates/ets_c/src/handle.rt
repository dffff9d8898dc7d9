//! The handle that a caller in C keeps: what `yoyoash_store` is.
ghost use Rattle.std.specs.Prelude.{◌≡◌, None, Some, MatchOption, is_some};

use crate::store_ptr::{RawBox, StorePtr};
use node_text::Store;
use std::alloc::Global;
use std::mem;

/// A handle: it is closed, or it holds a store. To C it is two words, which only this library reads. Two zeros are a
/// closed handle.
#[repr(C)]
#[derive(Drop)]
pub struct Handle {
    pub pointer: StorePtr,
    pub is_open: bool,
    // The flag is true exactly if the pointer owns a store.
    ghost says_open: { is_open ≡ is_some pointer.store },
}

impl Handle {
    /// Makes a closed handle, with which `take` replaces the handle.
    fn make_closed(alloc: Global) -> Handle
        ensures { result.pointer.store ≡ None }
    {
        Handle {
            pointer: StorePtr::empty(alloc),
            is_open: false,
        }
    }

    /// Takes the store out, which leaves the handle closed. Returns `None` if the handle was closed.
    pub(crate) fn take(&mut self, alloc: Global) -> Option<Box<Store>>
        ensures store { MatchOption result (self.old.pointer.store ≡ None) (λ b. self.old.pointer.store ≡ Some b.value) }
        ensures closed { self.new.pointer.store ≡ None }
    {
        let Handle { pointer, is_open } = mem::replace(self, Handle::make_closed(alloc));
        if is_open {
            Some(pointer.into_raw_box().into_box())
        } else {
            None
        }
    }

    /// Puts a store into a closed handle.
    pub(crate) fn put(&mut self, store: Box<Store>)
        requires { self.old.pointer.store ≡ None }
        ensures { self.new.pointer.store ≡ Some store.value }
    {
        *self = Handle {
            pointer: StorePtr::from_raw_box(RawBox::from_box(store)),
            is_open: true,
        };
    }
}
