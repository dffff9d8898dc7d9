//! The pointer to a request that C keeps.
ghost use Rattle.std.specs.Prelude.{◌≡◌, Option, None, Some, IsSome};
ghost use Rattle.std.specs.Coded.{coded_option};
ghost use Rattle.node_text.specs.Requests.{RequestState};
ghost use Rattle.node_text.specs.contracts.store.request.Request.{the_row as request_row};

use crate::store_ptr::RawBox;
use node_text::Request;
use std::alloc::Global;
use std::marker::Model;

/// A pointer that C keeps, which owns a request or nothing.
#[repr(C)]
#[derive(Drop)]
pub struct RequestPtr {
    /// Where the request is; null if there is none.
    at: *mut u8,
    alloc: Global,
    pub ghost request: { Option RequestState } by { coded_option request_row.coded },
}

impl Model for RequestPtr {
    ghost use Rattle.ets_c.specs.inside.Holds.{holds};
    ghost use Rattle.node_text.specs.contracts.store.request.Request.{the_row};

    ghost also_owns = { λ h. holds the_row h.alloc h.at h.request };
}

// The pointer is the only owner of the request, and `free` may run on any thread.
unsafe impl Send for RequestPtr {}

impl RequestPtr {
    /// Turns the pointer of a box into a pointer that C can hold, without the type `Request`.
    pub(crate) fn from_raw_box(raw_box: RawBox<Request, Global>) -> RequestPtr
        ensures { result.request ≡ Some raw_box.value }
    {
        let RawBox { at, alloc } = raw_box;
        RequestPtr {
            at: at as *mut u8,
            alloc,
        }
    }

    /// Turns the pointer back into that of a box, with the type `Request`. The pointer must own a request.
    pub(crate) fn into_raw_box(self) -> RawBox<Request, Global>
        requires { IsSome self.request }
        ensures { self.request ≡ Some result.value }
    {
        let RequestPtr { at, alloc } = self;
        RawBox {
            at: at as *mut Request,
            alloc,
        }
    }

    /// Makes a null pointer, which owns no request.
    pub(crate) fn empty(alloc: Global) -> RequestPtr
        ensures { result.request ≡ None }
    {
        RequestPtr {
            at: std::ptr::null_mut(),
            alloc,
        }
    }
}
