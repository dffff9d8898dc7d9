//! A test of out of memory: the refused call changes nothing that can be observed, and a second call must have the
//! wanted answer.
// `.ci/refusals` runs this test many times, each time with another allocation refused. The test also retries its own
// allocations. A row is a call and its wanted answer.
use super::Call::{End, Enrol, Fix, GiveAway, Info, New, Receive, SetOptions};
use super::observations::observe_world;
use super::{Call, DONE, Pid, PlainWorld, Row, Tid, Tries, answer, first_wrong_row, refusal};
use crate::tests::text::is_spelled;
use ets_term::Term;
use ownership::WorldFault;
use std::alloc::{AllocError, Global};
use std::process::Abort;

/// Calls, each with the answer that it must have when memory suffices. The long name is not stored inline in its atom,
/// so it takes memory. The limits are three processes and four tables.
static CALLS: [Row; 28] = [
    (Enrol(Pid(0)), DONE),
    (Enrol(Pid(1)), DONE),
    (Enrol(Pid(1)), "** badarg"),
    (Enrol(Pid(2)), DONE),
    (Enrol(Pid(3)), "** system_limit"),
    (
        New(Pid(0), "a_name_longer_than_its_place", "[named_table]"),
        "a_name_longer_than_its_place",
    ),
    (New(Pid(0), "u", "[{heir,<0.2.0>,[x,y]}]"), "#Tid<1>"),
    (New(Pid(0), "v", "[bag,public]"), "#Tid<2>"),
    (
        New(Pid(0), "a_name_longer_than_its_place", "[named_table]"),
        "** badarg",
    ),
    (New(Pid(1), "w", "[named_table,{heir,<0.0.0>,x}]"), "w"),
    (
        New(Pid(0), "x", "[{heir,<0.1.0>,{a,gift}}]"),
        "** system_limit",
    ),
    (Info(Tid(0), "name"), "a_name_longer_than_its_place"),
    (Fix(Pid(0), Tid(0)), DONE),
    (Fix(Pid(1), Tid(0)), DONE),
    (Fix(Pid(0), Tid(3)), DONE),
    (SetOptions(Pid(0), Tid(0), "{heir,<0.1.0>,{an,heir}}"), DONE),
    (
        SetOptions(
            Pid(0),
            Tid(2),
            "[{heir,<0.2.0>,{a,b}},{heir,<0.1.0>,{c,[d]}}]",
        ),
        DONE,
    ),
    (
        SetOptions(Pid(0), Tid(2), "[{heir,<0.2.0>,{e,f}},{heir,7,x}]"),
        "** badarg",
    ),
    (GiveAway(Pid(0), Tid(1), Pid(2), "{a,{deep,[gift]}}"), DONE),
    (GiveAway(Pid(0), Tid(1), Pid(2), "{a,gift}"), "** badarg"),
    (GiveAway(Pid(1), Tid(3), Pid(0), "{another,gift}"), DONE),
    (
        SetOptions(Pid(0), Tid(3), "{heir,<0.2.0>,{last,gift}}"),
        DONE,
    ),
    (End(Pid(0)), DONE),
    (End(Pid(0)), "** noproc"),
    (
        Receive(Pid(1)),
        "[{'ETS-TRANSFER',a_name_longer_than_its_place,<0.0.0>,{an,heir}},{'ETS-TRANSFER',#Tid<2>,<0.0.0>,{c,[d]}}]",
    ),
    (
        Receive(Pid(2)),
        "[{'ETS-TRANSFER',#Tid<1>,<0.0.0>,{a,{deep,[gift]}}},{'ETS-TRANSFER',w,<0.0.0>,{last,gift}}]",
    ),
    (End(Pid(1)), DONE),
    (Info(Tid(0), "name"), "undefined"),
];

/// Returns all that can be observed of a world. Observes it a second time if memory runs out.
fn observe_world_with_retry(alloc: Global, world: &PlainWorld) -> Result<Vec<Term>, AllocError> {
    match observe_world(alloc, world) {
        Ok(observed) => Ok(observed),
        Err(_) => observe_world(alloc, world),
    }
}

/// Returns whether a text spells this term. Compares a second time if memory runs out.
fn is_spelled_with_retry(alloc: Global, value: &Term, wanted: &str) -> Result<bool, AllocError> {
    match is_spelled(alloc, value, wanted) {
        Ok(same) => Ok(same),
        Err(_) => is_spelled(alloc, value, wanted),
    }
}

/// Returns whether an answer or a refusal is the wanted one.
fn answer_has_text(
    alloc: Global,
    answer_or_fault: Result<Term, WorldFault>,
    wanted: &str,
) -> Result<bool, AllocError> {
    match answer_or_fault {
        Ok(answer) => {
            let same = is_spelled_with_retry(alloc, &answer, wanted);
            drop(answer);
            same
        }
        Err(fault) => Ok(refusal(&fault) == wanted),
    }
}

/// Returns whether all that can be observed of a world is equal to `before`.
fn is_unchanged(alloc: Global, world: &PlainWorld, before: &[Term]) -> Result<bool, AllocError> {
    let after = observe_world_with_retry(alloc, world)?;
    let same = after.as_slice() == before;
    drop(after);
    Ok(same)
}

/// Makes a call, and returns whether it has the wanted answer. If memory runs out, the call must not have changed what
/// can be observed, which was `before`, and a second call must have the wanted answer.
fn call_has_answer_or_is_refused_once(
    alloc: Global,
    world: &mut PlainWorld,
    before: &[Term],
    call: Call,
    wanted: &str,
) -> Result<bool, AllocError> {
    let first = answer(alloc, world, call);
    if !matches!(&first, Err(WorldFault::Memory)) {
        return answer_has_text(alloc, first, wanted);
    }
    drop(first);
    Ok(
        is_unchanged(alloc, world, before)?
            && answer_has_text(alloc, answer(alloc, world, call), wanted)?,
    )
}

/// Makes a call, a second time if memory runs out. Returns whether it has the wanted answer, and a call that ran out of
/// memory changed nothing that can be observed.
pub(super) fn call_has_answer_with_retry(
    alloc: Global,
    world: &mut PlainWorld,
    call: Call,
    wanted: &str,
) -> Result<bool, AllocError> {
    let before = observe_world_with_retry(alloc, world)?;
    let right = call_has_answer_or_is_refused_once(alloc, world, before.as_slice(), call, wanted);
    drop(before);
    right
}

#[test]
fn a_call_that_ran_out_of_memory_is_made_again(rt: HostRuntime) {
    assert_eq!(rt;
        first_wrong_row(rt.alloc(), Tries::RetryIfOutOfMemory, &CALLS),
        Ok(None)
    );
}
