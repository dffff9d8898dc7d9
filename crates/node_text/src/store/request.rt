//! A call that is read before a store makes it, and its reply.
ghost use Rattle.std.specs.Prelude.{◌≡◌, ◌≤◌, Some, OnOk, OnErr};
ghost use Rattle.external_term.specs.Encoding.{encode_with_version};
ghost use Rattle.term_text.specs.Printed.{text_of_term};
ghost use Rattle.node_core.specs.declared.step.Reply.TheVariants.{NoProcess};
ghost use Rattle.node_text.specs.declared.last_refusal.LastRefusal.TheVariants.{NoMemory};
ghost use Rattle.node_text.specs.Calls.{RunsStep};
ghost use Rattle.node_text.specs.Answers.{WritesReply, WritesReason, written_reply};
ghost use Rattle.node_text.specs.Requests.{empty_request, TakesCall, TakesFault, TakesNothing, Reads, ReadsExternal, RunReturns, Runs};

use crate::external_call::{ExternalCall, read_external_call};
use crate::growth::growth_steps;
use crate::last_refusal::LastRefusal;
use crate::status::{CLOSED, NO_MEMORY, SYNTAX, VALUE, status_of};
use crate::store::Store;
use crate::store::replies::{write_bytes, write_refusal, write_text};
use crate::text_call::{TextCall, read_text_call};
use ets_term::{Atom, Items, Term};
use node_core::{Call, Reply, Step};
use node_reasons::diagnose_in_call;
use std::alloc::{AllocError, Global};
use std::marker::Model;

/// A call that was read, and the reply to the last call that was run. To read a call and to write its reply need no
/// store, so threads that share one need its lock only while `Store::run` makes the call.
#[derive(Drop)]
pub struct Request {
    /// The step of the call; `None` if the last text or bytes that were read are not a call.
    event: Option<Step>,
    reply: Reply,
    refusal: Option<LastRefusal>,
    /// The vector in which a reply's bytes are made, kept for its memory.
    bytes: Vec<u8>,
}

impl Model for Request {
    ghost use Rattle.node_text.specs.Requests.{RequestState};
    ghost use Rattle.node_text.specs.inside.Codes.{request_state_code};

    ghost Value = { RequestState };

    ghost coded = { request_state_code };

    ghost view = { λ r. record { event = r.event; reply = r.reply; refusal = r.refusal } };
}

impl Request {
    /// Returns a request without a call, whose last reply is `NoProcess`.
    pub fn new(alloc: Global) -> Request
        ensures { result ≡ empty_request }
    {
        Request {
            event: None,
            reply: Reply::NoProcess,
            refusal: None,
            bytes: Vec::new(alloc),
        }
    }

    /// Reads the call that a text spells, for this process. Returns `VALUE`, and `len` is 0; or `SYNTAX`, and `len` is
    /// the offset of the error; or `NO_MEMORY`, and `len` is 0. After these two the request has no call. The last reply
    /// stays.
    pub fn read(&mut self, alloc: Global, pid: u32, text: &[u8], len: &mut usize) -> i32
        ensures { Reads text.now pid self.old result len.new self.new }
    {
        let Ok(call) = read_text_call(alloc, text) else {
            return self.take_nothing(len);
        };
        match call {
            TextCall::Call(name, args) => self.take_call(pid, name, args, len),
            TextCall::Faulty(at) => {
                let refusal = LastRefusal::Syntax(diagnose_in_call(text, at));
                self.take_fault(refusal, at, len)
            }
        }
    }

    /// Reads the call that a term in the external format spells, as `read` does for a text.
    pub fn read_external(&mut self, alloc: Global, pid: u32, bytes: &[u8], len: &mut usize) -> i32
        ensures { ReadsExternal bytes.now pid self.old result len.new self.new }
    {
        let Ok(call) = read_external_call(alloc, bytes) else {
            return self.take_nothing(len);
        };
        match call {
            ExternalCall::Call(name, args) => self.take_call(pid, name, args, len),
            ExternalCall::Faulty(problem, at) => {
                self.take_fault(LastRefusal::External(problem), at, len)
            }
        }
    }

    /// Takes a call of this process.
    fn take_call(&mut self, pid: u32, name: Atom, args: Items<Term>, len: &mut usize) -> i32
        ensures { TakesCall pid name args self.old result len.new self.new }
    {
        *len = 0;
        self.event = Some(Step::Ask(pid, Call { name, args }));
        self.refusal = None;
        VALUE
    }

    /// Takes the reason why a text or bytes are not a call, and writes the offset of the fault.
    fn take_fault(&mut self, refusal: LastRefusal, at: usize, len: &mut usize) -> i32
        ensures { TakesFault refusal at self.old result len.new self.new }
    {
        *len = at;
        self.event = None;
        self.refusal = Some(refusal);
        SYNTAX
    }

    /// Takes no call, because memory ran out for it.
    fn take_nothing(&mut self, len: &mut usize) -> i32
        ensures { TakesNothing self.old result len.new self.new }
    {
        *len = 0;
        self.event = None;
        self.refusal = Some(LastRefusal::NoMemory);
        NO_MEMORY
    }

    /// Returns the status of the last reply, and writes its text, as `Store::write_reply` does.
    pub fn write_reply(&self, alloc: Global, out: &mut [u8], len: &mut usize) -> i32
        ensures { WritesReply text_of_term self.now.reply (written_reply result len.new out.old out.new) }
    {
        write_text(alloc, &self.reply, out, len)
    }

    /// Returns the status of the last reply, and writes its bytes, as `Store::write_reply_external` does. Changes
    /// nothing else that a contract sees.
    pub fn write_reply_external(&mut self, out: &mut [u8], len: &mut usize) -> i32
        ensures same { self.new ≡ self.old }
        ensures writes { WritesReply encode_with_version self.old.reply (written_reply result len.new out.old out.new) }
    {
        write_bytes(&self.reply, &mut self.bytes, out, len)
    }

    /// Writes why the last call was refused, as `Store::write_reason` does.
    pub fn write_reason(&self, alloc: Global, out: &mut [u8], len: &mut usize) -> i32
        ensures { WritesReason self.now.refusal (written_reply result len.new out.old out.new) }
    {
        write_refusal(alloc, self.refusal, out, len)
    }
}

impl Store {
    /// Makes the call that a request has read, and returns the status of its reply. The request has the reply and the
    /// reason of a refusal; those of the store stay. Runs pending growth steps after the call, as `call` does. If
    /// memory runs out, changes only the request, whose reply is then `NoProcess`. Returns `CLOSED`, and changes
    /// nothing, if the request has no call. A request can be run again, which makes its call again.
    pub fn run(&mut self, request: &mut Request) -> i32
        ensures { Runs request.old.event result self.old self.new request.old request.new }
    {
        let Some(event) = &request.event else {
            return CLOSED;
        };
        self.run_event(event, &mut request.reply, &mut request.refusal)
    }

    /// Runs the step of a call, and pending growth steps after it. Returns the status of its reply. Writes over a reply
    /// and the reason of a refusal.
    #[tactic(auto, using(crate::proofs::Requests::ran))]
    fn run_event(
        &mut self,
        event: &Step,
        reply: &mut Reply,
        refusal: &mut Option<LastRefusal>,
    ) -> i32
        ensures { RunReturns event.now result self.old self.new reply.new refusal.new }
    {
        match self.step_for(event, reply, refusal) {
            Ok(()) => {
                self.run_pending_steps(steps_after(event));
                status_of(reply)
            }
            Err(_) => NO_MEMORY,
        }
    }

    /// Runs one step, and writes over a reply and the reason of a refusal. If memory runs out, changes only these two.
    fn step_for(
        &mut self,
        event: &Step,
        reply: &mut Reply,
        refusal: &mut Option<LastRefusal>,
    ) -> Result<(), AllocError>
        ensures ok { OnOk result (RunsStep self.old event.now (record self.new { reply = reply.new; refusal = refusal.new })) }
        ensures keeps_reply { self.new.reply ≡ self.old.reply }
        ensures keeps_refusal { self.new.refusal ≡ self.old.refusal }
        ensures err { OnErr result ((self.new ≡ self.old) × (reply.new ≡ NoProcess) × (refusal.new ≡ Some NoMemory)) }
    {
        if self.node.step_into(event, reply).is_err() {
            *refusal = Some(LastRefusal::NoMemory);
            return Err(AllocError);
        }
        *refusal = LastRefusal::of(&self.node, event, reply);
        Ok(())
    }
}

/// Returns how many pending growth steps may follow the step of a call.
#[inline(always)]
fn steps_after(event: &Step) -> u32
    ensures { result ≤ 4096 }
{
    match event {
        Step::Ask(_, call) => growth_steps(&call.name, call.args.as_slice()),
        _ => 2,
    }
}
