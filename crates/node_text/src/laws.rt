//! Laws of the types of this crate. Each is a function that does nothing.
ghost use denote.Param.Send.{IsSend};
ghost use Rattle.node_text.specs.contracts.store.Store as store_type;
ghost use Rattle.node_text.specs.contracts.store.request.Request as request_type;

use crate::store::Store;
use crate::store::request::Request;

/// Takes only types whose values may move to another thread.
pub fn is_send<T: Send>() {}

/// A store may move to another thread: its type is `Send`.
pub fn stores_are_send()
    ensures { IsSend store_type.the_row }
{
    is_send::<Store>();
}

/// A request may move to another thread: its type is `Send`.
pub fn requests_are_send()
    ensures { IsSend request_type.the_row }
{
    is_send::<Request>();
}
