//! The reply to a request.
ghost use Rattle.std.specs.Prelude.{◌≡◌, ◌⊎◌, [], ◌<◌, ◌-◌, ◌^◌, length, codes};
ghost use Rattle.external_term.specs.Encoding.{encode_with_version};
ghost use Rattle.ets_packets.specs.Replies.{Answers, Calls, Steps, IsTextReply, IsReplyOf, packet_reply, reason_text};
ghost use Rattle.node_text.specs.ExternalCalls.{parse_call};

use crate::request::{CALL_START, Request, parse_request};
use ets_term::Term;
use external_term::write_external;
use node_core::{Reply, Step};
use node_text::{CallFault, LastRefusal, Store};
use std::alloc::Global;

/// A reply's body has a status byte, and then at most this many bytes. The number is 2^32 - 2, so that the length of
/// the body fits four bytes.
const MAX_PAYLOAD: usize = 0xFFFF_FFFE;

// The statuses of replies, which are the numbers of `node_text`. `CLOSED`, 6, is missing, because a reply always comes
// from a store.
const VALUE: u8 = 0;

const BADARG: u8 = 1;

const SYSTEM_LIMIT: u8 = 2;

const NO_PROCESS: u8 = 3;

const NO_MEMORY: u8 = 4;

pub(crate) const SYNTAX: u8 = 5;

const UNTOLD: u8 = 7;

/// Answers the request in the body of a packet. Returns the status of the reply, and puts the rest of the reply's body
/// into `payload`.
pub(crate) fn answer(alloc: Global, store: &mut Store, body: &[u8], payload: &mut Vec<u8>) -> u8
    requires { payload.old.items ≡ [] }
    ensures answers { Answers body.now store.old (packet_reply result payload.new.items) store.new }
    ensures few { length payload.new.items < 2 ^ 32 - 1 }
{
    match parse_request(body) {
        Request::Spawn(pid) => step(alloc, store, &Step::Enrol(pid), payload),
        Request::Exit(pid) => step(alloc, store, &Step::End(pid), payload),
        Request::Call(pid) => call(alloc, store, pid, &body[CALL_START..], payload),
        Request::NotARequest => {
            put_text(b"not a request", payload);
            SYNTAX
        }
    }
}

/// Runs a step, puts the reply's term or the reason of the refusal into `payload`, and returns the status.
fn step(alloc: Global, store: &mut Store, event: &Step, payload: &mut Vec<u8>) -> u8
    requires { payload.old.items ≡ [] }
    ensures answers { Steps event.now store.old (packet_reply result payload.new.items) store.new }
    ensures few { length payload.new.items < 2 ^ 32 - 1 }
{
    if store.run_step(event) == node_text::NO_MEMORY {
        put_text(b"out of memory", payload);
        return NO_MEMORY;
    }
    put_reply(alloc, store, payload)
}

/// Makes the call of these bytes, puts the reply's term or the reason of the refusal into `payload`, and returns the
/// status.
fn call(alloc: Global, store: &mut Store, pid: u32, bytes: &[u8], payload: &mut Vec<u8>) -> u8
    requires { payload.old.items ≡ [] }
    ensures answers { Calls (parse_call bytes.now) pid store.old (packet_reply result payload.new.items) store.new }
    ensures few { length payload.new.items < 2 ^ 32 - 1 }
{
    match store.run_external(alloc, pid, bytes) {
        Ok(()) => put_reply(alloc, store, payload),
        Err(CallFault::Syntax(_)) => {
            put_reason(alloc, store.refusal(), payload);
            SYNTAX
        }
        Err(CallFault::Memory) => {
            put_text(b"out of memory", payload);
            NO_MEMORY
        }
    }
}

/// Puts the term of the last reply, or the reason of its refusal, into `payload`, and returns its status.
fn put_reply(alloc: Global, store: &Store, payload: &mut Vec<u8>) -> u8
    requires { payload.old.items ≡ [] }
    ensures bytes { IsReplyOf store.now.reply store.now.refusal (packet_reply result payload.new.items) }
    ensures few { length payload.new.items < 2 ^ 32 - 1 }
{
    let status = match store.reply() {
        Reply::Value(term) => return put_term(term, payload),
        Reply::Badarg => BADARG,
        Reply::SystemLimit => SYSTEM_LIMIT,
        Reply::NoProcess => NO_PROCESS,
    };
    put_reason(alloc, store.refusal(), payload);
    status
}

/// Puts a term in the external format into `payload`, and returns `VALUE`. If memory runs out or the bytes are too
/// many, leaves `payload` empty and returns `UNTOLD`.
fn put_term(term: &Term, payload: &mut Vec<u8>) -> u8
    requires { payload.old.items ≡ [] }
    ensures bytes { (packet_reply result payload.new.items ≡ packet_reply 0 (encode_with_version term.now))
        ⊎ (packet_reply result payload.new.items ≡ packet_reply 7 []) }
    ensures few { length payload.new.items < 2 ^ 32 - 1 }
{
    if write_external(term, payload).is_err() || payload.len() > MAX_PAYLOAD {
        payload.clear();
        return UNTOLD;
    }
    VALUE
}

/// Puts the text of a reason into `payload`, if there is a reason, and memory for its text.
fn put_reason(alloc: Global, reason: Option<LastRefusal>, payload: &mut Vec<u8>)
    requires { payload.old.items ≡ [] }
    ensures bytes { (payload.new.items ≡ reason_text reason) ⊎ (payload.new.items ≡ []) }
    ensures few { length payload.new.items < 2 ^ 32 - 1 }
{
    let Some(refusal) = reason else {
        return;
    };
    if let Ok(text) = refusal.text(alloc) {
        put_text(text.as_bytes(), payload);
    }
}

/// Puts a text into `payload`, if there is memory for it and it has at most `MAX_PAYLOAD` bytes.
fn put_text(text: &[u8], payload: &mut Vec<u8>)
    requires { payload.old.items ≡ [] }
    ensures bytes { (payload.new.items ≡ text.now) ⊎ (payload.new.items ≡ []) }
    ensures few { length payload.new.items < 2 ^ 32 - 1 }
{
    if text.len() <= MAX_PAYLOAD {
        let _ = payload.extend_from_slice(text);
    }
}
