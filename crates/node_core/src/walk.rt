//! A traversal of a table, with steps of others between its calls.
ghost use Rattle.std.specs.Prelude.{◌≡◌, ◌+◌, ℕ, [], List, vec_len, Some, Ok, OnOk, OnErr};
ghost use Rattle.ets_term.specs.declared.term.Term as term;
ghost use Rattle.node_core.specs.declared.step.Step as event;
ghost use Rattle.node_core.specs.State.{State};
ghost use Rattle.node_core.specs.Woven.{AddsTurn, WalksAmong};
ghost use Rattle.node_core.specs.inside.Walker.{WalkSoFar, TurnResult, WalkResult, FixIsDone, RunsOthers};

use crate::node::Node;
use crate::step::Step;
use ets_term::{Items, KeyHash, Term};
use fixed_walk::FixFault;
use std::alloc::AllocError;

/// What other processes do during a traversal, as an observer of its keys. It keeps the keys of the traversal so far,
/// and the steps that the others add. Both are empty at the start.
pub trait Others {
    /// The keys so far.
    ghost keys: { Self → List term.Term };

    /// The steps added so far, each with its turn: the index, from 0, of the key after which it runs.
    ghost steps: { Self → List (ℕ × event.Step) };

    /// Returns the keys so far, in the order of the traversal.
    fn seen(&self) -> &[Term]
        ensures { result.now ≡ keys self.now };

    /// Returns the steps added so far, each with its turn.
    fn given(&self) -> &[(usize, Step)]
        ensures { result.now ≡ steps self.now };

    /// Observes the next key: called when the traversal reaches it. Appends the key to `seen`, and may append steps to
    /// `given`, with the key's index as their turn; they run before the traversal continues. Running out of memory
    /// changes nothing.
    fn between(&mut self, last: &Term) -> Result<(), AllocError>
        ensures ok { OnOk result
            (AddsTurn (keys self.old) (steps self.old) last.now (keys self.new) (steps self.new)) }
        ensures err_keys { OnErr result (keys self.new ≡ keys self.old) }
        ensures err_steps { OnErr result (steps self.new ≡ steps self.old) };
}

/// The result of a traversal of the whole table.
#[derive(Drop)]
pub struct Walk {
    /// The keys in the order of the traversal, at most as many as the limit that `walk_among` got.
    pub keys: Items<Term>,
}

/// Why a traversal stopped. The steps run so far stay, and no more are run. If the process may still read the table,
/// its fix is released, so that it has as many fixes of the table as before.
#[derive(Debug, Drop, PartialEq, Eq)]
pub enum WalkFault {
    /// The process does not live, the table does not exist, or the process may not read it: at the start, or since a
    /// step of others. A table that is created anew under the name is another table.
    Lost,
    /// The others added a step of the traversing process itself: it enrols, ends, or makes a call. The steps before it
    /// were run; it and those after it were not.
    OwnStep,
    /// The traversal reached one key more than the limit. The others do not get this key.
    LimitReached,
    /// Out of memory: in a call of the traversal, in a step, or in the others.
    Memory,
    /// The process already has 4,294,967,295 fixes of the table. Nothing was done.
    SystemLimit,
}

impl From<FixFault> for WalkFault {
    ghost use Rattle.std.specs.Prelude.{◌≡◌};
    ghost use Rattle.node_core.specs.inside.Refusals.{walk_fault_of};

    ghost from_gives = { λ f e. e ≡ walk_fault_of f };

    fn from(fault: FixFault) -> WalkFault {
        match fault {
            FixFault::SystemLimit => WalkFault::SystemLimit,
            FixFault::Memory => WalkFault::Memory,
        }
    }
}

/// Traverses a table for a process, which fixes it for that time (stdlib manual, ets:safe_fixtable/2): `first`, and
/// then, after each key, the steps that the others add, in order, and `next` of the key. `table`, an identifier or
/// a name, is looked up once, at the start. `limit` may be any number; with 0 only an empty table can be traversed.
///
/// `Ok` says that the traversal reached the end: no key comes twice, each key that has objects all the time comes, each
/// step of the others was run, and the fix is released, which takes no memory. `WalkFault` says when a traversal is
/// refused or stops. The others get the keys that the traversal reached, in order, and no other. Only the steps of the
/// others change buckets.
pub fn walk_among<H: KeyHash + Copy + Drop, O: Others>(
    node: &mut Node<H>,
    pid: u32,
    table: &Term,
    limit: u32,
    others: &mut O,
) -> Result<Walk, WalkFault>
    requires keys { O.keys others.old ≡ [] }
    requires steps { O.steps others.old ≡ [] }
    ensures { WalksAmong node.old pid table.now limit (O.keys others.new) (O.steps others.new)
        result node.new }
{
    let Some(id) = node.resolve(table) else {
        return Err(WalkFault::Lost);
    };
    node.fix_table(pid, id)?;
    let walked = walk_fixed_table(node, Traversal { pid, id }, limit, others);
    // If the process has ended or may no longer read the table, this changes nothing.
    node.unfix_table(pid, id);
    walked
}

/// A process, and the identifier of the table that it traverses, which it has fixed for that time.
#[derive(Clone, Copy)]
struct Traversal {
    pid: u32,
    id: u32,
}

/// Traverses a table that the process has fixed for the traversal. In the contract, `start` is the state before that
/// fix.
fn walk_fixed_table<H: KeyHash + Copy + Drop, O: Others>(
    node: &mut Node<H>,
    traversal: Traversal,
    limit: u32,
    others: &mut O,
) -> Result<Walk, WalkFault>
    requires keys { O.keys others.old ≡ [] }
    requires steps { O.steps others.old ≡ [] }
    requires fix { (start : State) × FixIsDone traversal.pid traversal.id start node.old }
    ensures { WalkResult traversal.pid traversal.id limit node.old (O.keys others.new) (O.steps others.new)
        result node.new }
{
    let mut keys = Vec::new(node.allocator());
    let mut found = node.next_key(traversal.pid, traversal.id, None)?;
    // Each round is the turn of one key. `found` is the next key, or `None` at the end of the table.
    for _at in 0..limit {
        let Some(key) = found else {
            return Ok(Walk::from_keys(keys));
        };
        found = walk_turn(node, traversal, key, &mut keys, others)?;
    }
    match found {
        None => Ok(Walk::from_keys(keys)),
        Some(_) => Err(WalkFault::LimitReached),
    }
}

/// Does the turn of a key: gives the key to the others, runs their steps, and appends the key to `keys`. Returns the
/// next key, or `None` at the end of the table. In the contract, `start` is the state before the traversal's fix.
fn walk_turn<H: KeyHash + Copy + Drop, O: Others>(
    node: &mut Node<H>,
    traversal: Traversal,
    key: Term,
    keys: &mut Vec<Term>,
    others: &mut O,
) -> Result<Option<Term>, WalkFault>
    requires keys { O.keys others.old ≡ keys.old.items }
    requires so_far { (start : State)
        × WalkSoFar traversal.pid traversal.id start (O.keys others.old) (O.steps others.old) (Some key) node.old }
    ensures keys { OnOk result (keys.new.items ≡ O.keys others.new) }
    ensures count { OnOk result (vec_len keys.new ≡ vec_len keys.old + 1) }
    ensures turn { TurnResult traversal.pid traversal.id (O.keys others.old) (O.steps others.old) key node.old
        (O.keys others.new) (O.steps others.new) result node.new }
{
    if keys.reserve(1).is_err() {
        return Err(WalkFault::Memory);
    }
    // The number of steps that were added in earlier turns.
    let before = others.given().len();
    if others.between(&key).is_err() {
        return Err(WalkFault::Memory);
    }
    run_steps(node, traversal.pid, &others.given()[before..])?;
    let found = node.next_key(traversal.pid, traversal.id, Some(&key))?;
    keys.push_reserved(key);
    Ok(found)
}

/// Runs the steps of the others in order. Stops with `OwnStep` before a step of the traversing process, and with
/// `Memory` at a step that runs out of memory.
fn run_steps<H: KeyHash + Copy + Drop>(
    node: &mut Node<H>,
    pid: u32,
    steps: &[(usize, Step)],
) -> Result<(), WalkFault>
    ensures { RunsOthers pid node.old steps.now result node.new }
{
    for (_, step) in steps {
        if step.is_of(pid) {
            return Err(WalkFault::OwnStep);
        }
        if node.step(step).is_err() {
            return Err(WalkFault::Memory);
        }
    }
    Ok(())
}

impl Walk {
    /// Makes the result of a traversal from the keys that it visited, in order.
    fn from_keys(keys: Vec<Term>) -> Walk
        ensures { result.keys ≡ keys.items }
    {
        Walk {
            keys: Items::from_vec(keys),
        }
    }
}
