//! The store as a C library: a call on a handle runs one step of the store, and returns a status and the reply, as a
//! text or in Erlang's External Term Format. Other functions open and close a handle, or return the last reply again.
//! Those of `requests` read a call, run it and return its reply one by one; only the run uses the handle of a store.
//!
//! bindings/c/include/yoyoash.h declares these functions.
//!
//! *Guarantee.* A call on a handle runs the step that its text or term spells, as the specification says, or it is
//! refused and changes nothing. The status, the number of the reply's bytes and the bytes in the caller's buffer are
//! those of the reply. The status is `UNTOLD` if the step was run, but memory ran out for the bytes of its reply.
//! `yoyoash_why` returns why the last call was refused. On a closed handle, every function but the two that open it
//! and `yoyoash_close` returns `CLOSED`.
//!
//! *Weakness.* Nothing checks what a caller in C must do: move a handle and never copy it, pass buffers that do not
//! overlap, and let one call at a time use a handle. A handle may move to another thread, since a store is `Send`; the
//! caller's lock, or a join, must then order the calls of the two threads.
//!
//! *Mechanism.* A handle is a pointer to a box with the store, and a flag whether there is one. A call takes the box
//! out, runs its step, and puts the box back.
//!
//! *Limits.* The tuple of a call counts as one of the 128 levels that a text may have, so an argument may have 127; in
//! a term the list of the arguments counts too, so an argument may have 126.
#![tactic(auto)]

ghost use denote.Param.Send.{IsSend};
ghost use Rattle.std.specs.Prelude.{◌≡◌, None};
ghost use Rattle.term_text.specs.Printed.{text_of_term};
ghost use Rattle.external_term.specs.Encoding.{encode_with_version};
ghost use Rattle.node_core.specs.declared.step.Step.TheVariants.{Enrol, End};
ghost use Rattle.node_text.specs.Answers.{written_reply};
ghost use Rattle.ets_c.specs.contracts.handle.Handle as handle_type;
ghost use Rattle.node_text.specs.Calls.{HandleOpens, HandleGets, HandleSteps, HandleCalls, HandleCallsExternal, RewritesReply, WritesLastReason};

mod handle;
pub mod laws;
mod request_handle;
mod request_ptr;
pub mod requests;
mod store_ptr;

use crate::handle::Handle;
use node_core::{Limits, Step};
use node_text::laws::is_send;
use node_text::{CLOSED, NO_MEMORY, Store, VALUE};
use std::alloc::Global;

/// Opens a new store in a handle. The limits are the greatest numbers of processes ever spawned, of tables ever made,
/// and of objects in one table. Frees an earlier store of the handle. `NO_MEMORY` changes nothing.
#[unsafe(no_mangle)]
pub extern "C" fn yoyoash_open(
    alloc: Global,
    handle: &mut Handle,
    processes: u32,
    tables: u32,
    objects: u32,
) -> i32
    ensures { HandleOpens (record { processes = processes; tables = tables; objects = objects })
        handle.old.pointer.store result handle.new.pointer.store }
{
    let limits = Limits {
        processes,
        tables,
        objects,
    };
    open(alloc, handle, Store::new(alloc, limits))
}

/// Opens a new store in a handle, as `yoyoash_open` does, whose tables hash their keys with this seed. Without the seed,
/// a user cannot easily choose keys that make a table slow.
#[unsafe(no_mangle)]
pub extern "C" fn yoyoash_open_with_seed(
    alloc: Global,
    handle: &mut Handle,
    processes: u32,
    tables: u32,
    objects: u32,
    seed: u64,
) -> i32
    ensures { HandleOpens (record { processes = processes; tables = tables; objects = objects })
        handle.old.pointer.store result handle.new.pointer.store }
{
    let limits = Limits {
        processes,
        tables,
        objects,
    };
    open(alloc, handle, Store::with_seed(alloc, limits, seed))
}

/// Puts a new store into a handle. Frees an earlier store of the handle. `NO_MEMORY` changes nothing.
fn open(alloc: Global, handle: &mut Handle, store: Store) -> i32
    ensures { HandleGets store handle.old.pointer.store result handle.new.pointer.store }
{
    let Ok(store) = Box::new(alloc, store) else {
        return NO_MEMORY;
    };
    // The earlier store, if any, is dropped at the end of this function.
    let _before = handle.take(alloc);
    handle.put(store);
    VALUE
}

/// Spawns the process with this number, and returns the status of the reply. A number can be used only once.
#[unsafe(no_mangle)]
pub extern "C" fn yoyoash_spawn(alloc: Global, handle: &mut Handle, pid: u32) -> i32
    ensures { HandleSteps handle.old.pointer.store (Enrol pid) result handle.new.pointer.store }
{
    step(alloc, handle, &Step::Enrol(pid))
}

/// Ends the process with this number, and returns the status of the reply. Its tables go to their heirs, and those
/// without an heir are deleted.
#[unsafe(no_mangle)]
pub extern "C" fn yoyoash_exit(alloc: Global, handle: &mut Handle, pid: u32) -> i32
    ensures { HandleSteps handle.old.pointer.store (End pid) result handle.new.pointer.store }
{
    step(alloc, handle, &Step::End(pid))
}

/// Runs one step on the store of a handle, and returns the status of its reply, or `CLOSED` if there is no store.
fn step(alloc: Global, handle: &mut Handle, event: &Step) -> i32
    ensures { HandleSteps handle.old.pointer.store event.now result handle.new.pointer.store }
{
    let Some(mut store) = handle.take(alloc) else {
        return CLOSED;
    };
    let status = store.run_step(event);
    handle.put(store);
    status
}

/// Makes the call that a text spells, for the process with this number. The text is a tuple of the call's name and its
/// arguments, such as `{lookup,t,a}`. Writes as much of the reply's text as fits into `out`, and its full length to
/// `len`. After `SYNTAX`, `len` is the offset of the syntax error.
#[unsafe(no_mangle)]
pub extern "C" fn yoyoash_call(
    alloc: Global,
    handle: &mut Handle,
    pid: u32,
    text: &[u8],
    out: &mut [u8],
    len: &mut usize,
) -> i32
    ensures { HandleCalls handle.old.pointer.store pid text.now handle.new.pointer.store (written_reply result len.new out.old out.new) }
{
    *len = 0;
    let Some(mut store) = handle.take(alloc) else {
        return CLOSED;
    };
    let status = store.call(alloc, pid, text, out, len);
    handle.put(store);
    status
}

/// Returns the status of the reply to the last step that was run, and writes its text, as `yoyoash_call` does.
#[unsafe(no_mangle)]
pub extern "C" fn yoyoash_reply(
    alloc: Global,
    handle: &mut Handle,
    out: &mut [u8],
    len: &mut usize,
) -> i32
    ensures same { handle.new.pointer.store ≡ handle.old.pointer.store }
    ensures writes { RewritesReply text_of_term handle.old.pointer.store
        (written_reply result len.new out.old out.new) }
{
    *len = 0;
    let Some(store) = handle.take(alloc) else {
        return CLOSED;
    };
    let status = store.write_reply(alloc, out, len);
    handle.put(store);
    status
}

/// Makes the call that a term in Erlang's External Term Format spells, for the process with this number. The term is a
/// tuple of the call's name and the list of its arguments, such as `{lookup,[t,a]}`. Writes as many of the reply's
/// bytes in this format as fit into `out`, and their total number to `len`. After `SYNTAX`, `len` is the offset of the
/// fault.
#[unsafe(no_mangle)]
pub extern "C" fn yoyoash_call_external(
    alloc: Global,
    handle: &mut Handle,
    pid: u32,
    bytes: &[u8],
    out: &mut [u8],
    len: &mut usize,
) -> i32
    ensures { HandleCallsExternal handle.old.pointer.store pid bytes.now handle.new.pointer.store (written_reply result len.new out.old out.new) }
{
    *len = 0;
    let Some(mut store) = handle.take(alloc) else {
        return CLOSED;
    };
    let status = store.call_external(alloc, pid, bytes, out, len);
    handle.put(store);
    status
}

/// Returns the status of the reply to the last step that was run, and writes its bytes, as `yoyoash_call_external`
/// does.
#[unsafe(no_mangle)]
pub extern "C" fn yoyoash_reply_external(
    alloc: Global,
    handle: &mut Handle,
    out: &mut [u8],
    len: &mut usize,
) -> i32
    ensures same { handle.new.pointer.store ≡ handle.old.pointer.store }
    ensures writes { RewritesReply encode_with_version handle.old.pointer.store
        (written_reply result len.new out.old out.new) }
{
    *len = 0;
    let Some(mut store) = handle.take(alloc) else {
        return CLOSED;
    };
    let status = store.write_reply_external(out, len);
    handle.put(store);
    status
}

/// Writes in words why the last call, spawn or exit was refused; the length is 0 if it was not refused. Writes as much
/// of the text as fits into `out`, and its full length to `len`.
#[unsafe(no_mangle)]
pub extern "C" fn yoyoash_why(
    alloc: Global,
    handle: &mut Handle,
    out: &mut [u8],
    len: &mut usize,
) -> i32
    ensures same { handle.new.pointer.store ≡ handle.old.pointer.store }
    ensures writes { WritesLastReason handle.old.pointer.store (written_reply result len.new out.old out.new) }
{
    *len = 0;
    let Some(store) = handle.take(alloc) else {
        return CLOSED;
    };
    let status = store.write_reason(alloc, out, len);
    handle.put(store);
    status
}

/// Closes a handle and frees its store, if any.
#[unsafe(no_mangle)]
pub extern "C" fn yoyoash_close(alloc: Global, handle: &mut Handle)
    ensures { handle.new.pointer.store ≡ None }
{
    // The store, if any, is dropped at the end of this function.
    let _ended = handle.take(alloc);
}

/// A handle may move to another thread: its type is `Send`.
pub fn handles_are_send()
    ensures { IsSend handle_type.the_row }
{
    is_send::<Handle>();
}
