//! The functions of requests: a call that is read, run and answered in three calls, of which only the run needs the
//! store.
ghost use Rattle.std.specs.Prelude.{◌≡◌, None};
ghost use Rattle.term_text.specs.Printed.{text_of_term};
ghost use Rattle.external_term.specs.Encoding.{encode_with_version};
ghost use Rattle.node_text.specs.Answers.{written_reply};
ghost use denote.Param.Send.{IsSend};
ghost use Rattle.ets_c.specs.contracts.request_handle.RequestHandle as request_handle_type;
ghost use Rattle.node_text.specs.Requests.{Reads, ReadsExternal, HandleReads, HandleRuns, WritesRequestReply, WritesRequestReason};

use crate::handle::Handle;
use crate::request_handle::RequestHandle;
use node_text::laws::is_send;
use node_text::{CLOSED, NO_MEMORY};
use std::alloc::Global;

/// Reads the call that a text spells, for the process with this number, into a request. Returns `VALUE`; or `SYNTAX`,
/// and `len` is the offset of the syntax error; or `NO_MEMORY`. After these two the request has no call. Its last reply
/// stays.
#[unsafe(no_mangle)]
pub extern "C" fn yoyoash_request_read(
    alloc: Global,
    request: &mut RequestHandle,
    pid: u32,
    text: &[u8],
    len: &mut usize,
) -> i32
    ensures { HandleReads (Reads text.now pid) request.old.pointer.request result len.new request.new.pointer.request }
{
    *len = 0;
    let Some(mut held) = request.take_or_make(alloc) else {
        return NO_MEMORY;
    };
    let status = held.read(alloc, pid, text, len);
    request.put(held);
    status
}

/// Reads the call that a term in Erlang's External Term Format spells into a request, as `yoyoash_request_read` does
/// for a text.
#[unsafe(no_mangle)]
pub extern "C" fn yoyoash_request_read_external(
    alloc: Global,
    request: &mut RequestHandle,
    pid: u32,
    bytes: &[u8],
    len: &mut usize,
) -> i32
    ensures { HandleReads (ReadsExternal bytes.now pid) request.old.pointer.request result len.new request.new.pointer.request }
{
    *len = 0;
    let Some(mut held) = request.take_or_make(alloc) else {
        return NO_MEMORY;
    };
    let status = held.read_external(alloc, pid, bytes, len);
    request.put(held);
    status
}

/// Makes the call of a request on the store of a handle, and returns the status of the reply, which the request then
/// has. Returns `CLOSED` if there is no store, or no call in the request.
#[unsafe(no_mangle)]
pub extern "C" fn yoyoash_request_run(
    alloc: Global,
    handle: &mut Handle,
    request: &mut RequestHandle,
) -> i32
    ensures { HandleRuns handle.old.pointer.store handle.new.pointer.store
        request.old.pointer.request request.new.pointer.request result }
{
    let Some(mut store) = handle.take(alloc) else {
        return CLOSED;
    };
    let Some(mut held) = request.take(alloc) else {
        handle.put(store);
        return CLOSED;
    };
    let status = store.run(&mut held);
    request.put(held);
    handle.put(store);
    status
}

/// Returns the status of the reply to the last call of a request that was run, and writes its text, as `yoyoash_reply`
/// does.
#[unsafe(no_mangle)]
pub extern "C" fn yoyoash_request_reply(
    alloc: Global,
    request: &mut RequestHandle,
    out: &mut [u8],
    len: &mut usize,
) -> i32
    ensures same { request.new.pointer.request ≡ request.old.pointer.request }
    ensures writes { WritesRequestReply text_of_term request.old.pointer.request
        (written_reply result len.new out.old out.new) }
{
    *len = 0;
    let Some(held) = request.take(alloc) else {
        return CLOSED;
    };
    let status = held.write_reply(alloc, out, len);
    request.put(held);
    status
}

/// Returns the status of the reply to the last call of a request that was run, and writes its bytes, as
/// `yoyoash_reply_external` does.
#[unsafe(no_mangle)]
pub extern "C" fn yoyoash_request_reply_external(
    alloc: Global,
    request: &mut RequestHandle,
    out: &mut [u8],
    len: &mut usize,
) -> i32
    ensures same { request.new.pointer.request ≡ request.old.pointer.request }
    ensures writes { WritesRequestReply encode_with_version request.old.pointer.request
        (written_reply result len.new out.old out.new) }
{
    *len = 0;
    let Some(mut held) = request.take(alloc) else {
        return CLOSED;
    };
    let status = held.write_reply_external(out, len);
    request.put(held);
    status
}

/// Writes in words why the last call of a request was refused, or why its text or bytes are not a call, as
/// `yoyoash_why` does.
#[unsafe(no_mangle)]
pub extern "C" fn yoyoash_request_why(
    alloc: Global,
    request: &mut RequestHandle,
    out: &mut [u8],
    len: &mut usize,
) -> i32
    ensures same { request.new.pointer.request ≡ request.old.pointer.request }
    ensures writes { WritesRequestReason request.old.pointer.request (written_reply result len.new out.old out.new) }
{
    *len = 0;
    let Some(held) = request.take(alloc) else {
        return CLOSED;
    };
    let status = held.write_reason(alloc, out, len);
    request.put(held);
    status
}

/// Closes the handle of a request, and frees the request, if any.
#[unsafe(no_mangle)]
pub extern "C" fn yoyoash_request_close(alloc: Global, request: &mut RequestHandle)
    ensures { request.new.pointer.request ≡ None }
{
    // The request, if any, is dropped at the end of this function.
    let _ended = request.take(alloc);
}

/// The handle of a request may move to another thread: its type is `Send`.
pub fn request_handles_are_send()
    ensures { IsSend request_handle_type.the_row }
{
    is_send::<RequestHandle>();
}
