//! A node that is called by texts or by terms in the external format, with its last reply and its last refusal.
ghost use Rattle.std.specs.Prelude.{◌≡◌, Err, OnOk, OnErr};
ghost use Rattle.node_text.specs.Answers.{written_reply};
ghost use Rattle.node_text.specs.ExternalCalls as external;
ghost use Rattle.node_text.specs.Calls.{new_store, RunsStep, StepReturns, CallReturns, ExternalCallReturns};
ghost use Rattle.node_text.specs.RunsCall.{RunsCall, RunsAsk, RunsExternalCall};
ghost use Rattle.node_text.specs.Statuses.{AreTheStatuses};
ghost use Rattle.node_text.specs.StoreState.{with_refusal};
ghost use Rattle.node_text.specs.Texts as texts;
ghost use Rattle.node_text.specs.declared.call_fault.CallFault.TheVariants.{Memory};
ghost use Rattle.node_text.specs.declared.last_refusal.LastRefusal.TheVariants as refusal;

mod replies;
pub(crate) mod request;

use crate::call_fault::CallFault;
use crate::external_call::{ExternalCall, read_external_call};
use crate::growth::growth_steps;
use crate::last_refusal::LastRefusal;
use crate::status::{NO_MEMORY, status_of};
use crate::store_hash::StoreHash;
use crate::text_call::{TextCall, read_text_call};
use ets_term::{Atom, Items, Keyed, Term};
use node_core::{Call, Limits, Node, Reply, Step};
use node_reasons::diagnose_in_call;
use std::alloc::{AllocError, Global};
use std::marker::Model;
use std::mem;

/// A node, the reply to the last step that was run, and why the last call was refused, if it was. Contracts see the
/// observable state of the node. A store may move to another thread, as `laws` proves.
#[derive(Drop)]
pub struct Store {
    node: Node<StoreHash>,
    reply: Reply,
    refusal: Option<LastRefusal>,
    /// The reply that the next step writes over. After the step it is swapped with `reply`.
    previous: Reply,
    /// The vector in which a reply's bytes are made, kept for its memory.
    bytes: Vec<u8>,
}

impl Model for Store {
    ghost use Rattle.node_core.specs.Observable.{observable};
    ghost use Rattle.node_text.specs.StoreState.{StoreState};
    ghost use Rattle.node_text.specs.inside.Codes.{store_state_code};

    ghost Value = { StoreState };

    ghost coded = { store_state_code };

    ghost view = { λ s. record { node = observable s.node; reply = s.reply; refusal = s.refusal } };
}

impl Store {
    /// Returns a store without processes and tables, whose last reply is `NoProcess`. The keys of its tables have the
    /// hash FNV-1a, so the order of keys is the same in each run.
    pub fn new(alloc: Global, limits: Limits) -> Store
        ensures { result ≡ new_store limits }
    {
        Store::with_hasher(alloc, limits, StoreHash::Fixed)
    }

    /// Returns a store as `new` does, whose tables hash their keys with this seed. Keys of one bucket make a table slow,
    /// and are hard to choose for a user without the seed.
    pub fn with_seed(alloc: Global, limits: Limits, seed: u64) -> Store
        ensures { result ≡ new_store limits }
    {
        Store::with_hasher(alloc, limits, StoreHash::Seeded(Keyed::new(seed)))
    }

    /// Returns a store without processes and tables, whose tables have this hasher.
    fn with_hasher(alloc: Global, limits: Limits, hasher: StoreHash) -> Store
        ensures { result ≡ new_store limits }
    {
        Store {
            node: Node::new(alloc, limits, hasher),
            reply: Reply::NoProcess,
            refusal: None,
            previous: Reply::NoProcess,
            bytes: Vec::new(alloc),
        }
    }

    /// Runs one step, and returns the status of its reply. If memory runs out, returns `NO_MEMORY`, and changes only
    /// the reason of the last refusal.
    pub fn run_step(&mut self, event: &Step) -> i32
        ensures state { StepReturns event.now result self.old self.new }
        ensures statuses { AreTheStatuses }
    {
        match self.step(event) {
            Ok(()) => status_of(&self.reply),
            Err(_) => NO_MEMORY,
        }
    }

    /// Makes the call that a text spells, and returns its status. If the status is `VALUE`, writes as much of the
    /// reply's text as fits into `out`, and its full length to `len`. After `SYNTAX`, `len` is the offset of the error.
    /// After any other status `len` is 0. Only `VALUE` changes `out`. Runs pending growth steps after a call: at
    /// most two, or after a list of objects at most two for each, and 4,096 in all.
    pub fn call(
        &mut self,
        alloc: Global,
        pid: u32,
        text: &[u8],
        out: &mut [u8],
        len: &mut usize,
    ) -> i32
        ensures { CallReturns text.now (texts.parse_call text.now) pid (written_reply result len.new out.old out.new) self.old self.new }
    {
        *len = 0;
        match self.run_text(alloc, pid, text) {
            Ok(()) => self.write_reply(alloc, out, len),
            Err(fault) => fault.write(len),
        }
    }

    /// Makes the call that a term in the external format spells, and returns its status. If the status is `VALUE`,
    /// writes as many of the reply's bytes in this format as fit into `out`, and their number to `len`. After `SYNTAX`,
    /// `len` is the offset of the error. After any other status `len` is 0. Only `VALUE` changes `out`. Runs pending
    /// growth steps after a call, as `call` does.
    pub fn call_external(
        &mut self,
        alloc: Global,
        pid: u32,
        bytes: &[u8],
        out: &mut [u8],
        len: &mut usize,
    ) -> i32
        ensures { ExternalCallReturns (external.parse_call bytes.now) pid (written_reply result len.new out.old out.new) self.old self.new }
    {
        *len = 0;
        match self.run_external(alloc, pid, bytes) {
            Ok(()) => self.write_reply_external(out, len),
            Err(fault) => fault.write(len),
        }
    }

    /// Makes the call that a term in the external format spells, and runs pending growth steps, as `call` does. Writes no
    /// reply. A fault changes nothing but the reason of the last refusal.
    pub fn run_external(&mut self, alloc: Global, pid: u32, bytes: &[u8]) -> Result<(), CallFault>
        ensures { RunsExternalCall (external.parse_call bytes.now) pid self.old result self.new }
    {
        let Ok(call) = read_external_call(alloc, bytes) else {
            return self.refuse_memory();
        };
        match call {
            ExternalCall::Call(name, args) => self.ask(pid, name, args),
            ExternalCall::Faulty(problem, at) => {
                self.refusal = Some(LastRefusal::External(problem));
                Err(CallFault::Syntax(at))
            }
        }
    }

    /// Makes the call that a text spells, and runs pending growth steps, as `call` does. A fault changes nothing but the
    /// reason of the last refusal.
    fn run_text(&mut self, alloc: Global, pid: u32, text: &[u8]) -> Result<(), CallFault>
        ensures { RunsCall text.now (texts.parse_call text.now) pid self.old result self.new }
    {
        let Ok(call) = read_text_call(alloc, text) else {
            return self.refuse_memory();
        };
        match call {
            TextCall::Call(name, args) => self.ask(pid, name, args),
            TextCall::Faulty(at) => {
                self.refusal = Some(LastRefusal::Syntax(diagnose_in_call(text, at)));
                Err(CallFault::Syntax(at))
            }
        }
    }

    /// Refuses a call because memory ran out, and sets that as the reason of the last refusal.
    fn refuse_memory(&mut self) -> Result<(), CallFault>
        ensures fault { result ≡ Err Memory }
        ensures keeps { self.new ≡ with_refusal refusal.NoMemory self.old }
    {
        self.refusal = Some(LastRefusal::NoMemory);
        Err(CallFault::Memory)
    }

    /// Makes a call, and runs pending growth steps, as many as `growth_steps` says. If memory runs out for the call,
    /// changes nothing but the reason of the last refusal.
    fn ask(&mut self, pid: u32, name: Atom, args: Items<Term>) -> Result<(), CallFault>
        ensures { RunsAsk pid name args self.old result self.new }
    {
        // Before the step, because a step may take the objects out of its call.
        let max_steps = growth_steps(&name, args.as_slice());
        self.step(&Step::Ask(pid, Call::new(name, args.into_vec())))?;
        self.run_pending_steps(max_steps);
        Ok(())
    }

    /// Runs one step, and keeps its reply and the reason of a refusal. If memory runs out, changes nothing but the
    /// reason of the last refusal.
    fn step(&mut self, event: &Step) -> Result<(), AllocError>
        ensures ok { OnOk result (RunsStep self.old event.now self.new) }
        ensures err { OnErr result (self.new ≡ with_refusal refusal.NoMemory self.old) }
    {
        // The step writes over `previous`, because `reply` must stay as it is if memory runs out.
        if self.node.step_into(event, &mut self.previous).is_err() {
            self.refusal = Some(LastRefusal::NoMemory);
            return Err(AllocError);
        }
        self.refusal = LastRefusal::of(&self.node, event, &self.previous);
        mem::swap(&mut self.reply, &mut self.previous);
        Ok(())
    }

    /// Runs at most this many pending growth steps, which no call observes: first those of the table that was changed
    /// last. A step that runs out of memory stays pending.
    fn run_pending_steps(&mut self, max_steps: u32)
        ensures { self.new ≡ self.old }
    {
        self.node.run_pending_steps(max_steps);
    }
}
