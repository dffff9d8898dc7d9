//! The handle of a request that a caller in C keeps: what `yoyoash_request` is.
ghost use Rattle.std.specs.Prelude.{◌≡◌, None, Some, MatchOption, is_some, unwrap_or};
ghost use Rattle.node_text.specs.Requests.{empty_request};

use crate::request_ptr::RequestPtr;
use crate::store_ptr::RawBox;
use node_text::Request;
use std::alloc::Global;
use std::mem;

/// A handle of a request: it is closed, or it holds a request. To C it is two words, which only this library reads. Two
/// zeros are a closed handle.
#[repr(C)]
#[derive(Drop)]
pub struct RequestHandle {
    pub pointer: RequestPtr,
    pub is_open: bool,
    // The flag is true exactly if the pointer owns a request.
    ghost says_open: { is_open ≡ is_some pointer.request },
}

impl RequestHandle {
    /// Makes a closed handle, with which `take` replaces the handle.
    fn make_closed(alloc: Global) -> RequestHandle
        ensures { result.pointer.request ≡ None }
    {
        RequestHandle {
            pointer: RequestPtr::empty(alloc),
            is_open: false,
        }
    }

    /// Takes the request out, which leaves the handle closed. Returns `None` if the handle was closed.
    pub(crate) fn take(&mut self, alloc: Global) -> Option<Box<Request>>
        ensures request { MatchOption result (self.old.pointer.request ≡ None) (λ b. self.old.pointer.request ≡ Some b.value) }
        ensures closed { self.new.pointer.request ≡ None }
    {
        let RequestHandle { pointer, is_open } = mem::replace(
            self,
            RequestHandle::make_closed(alloc),
        );
        if is_open {
            Some(pointer.into_raw_box().into_box())
        } else {
            None
        }
    }

    /// Takes the request out, or makes an empty one if the handle was closed. Leaves the handle closed. Returns `None`
    /// if memory runs out.
    pub(crate) fn take_or_make(&mut self, alloc: Global) -> Option<Box<Request>>
        ensures request { MatchOption result (self.old.pointer.request ≡ None)
            (λ b. b.value ≡ unwrap_or self.old.pointer.request empty_request) }
        ensures closed { self.new.pointer.request ≡ None }
    {
        match self.take(alloc) {
            Some(request) => Some(request),
            None => Box::new(alloc, Request::new(alloc)).ok(),
        }
    }

    /// Puts a request into a closed handle.
    pub(crate) fn put(&mut self, request: Box<Request>)
        requires { self.old.pointer.request ≡ None }
        ensures { self.new.pointer.request ≡ Some request.value }
    {
        *self = RequestHandle {
            pointer: RequestPtr::from_raw_box(RawBox::from_box(request)),
            is_open: true,
        };
    }
}
