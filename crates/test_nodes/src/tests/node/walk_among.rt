//! Tests of `walk_among`, which traverses a table (here: walks over it), and runs steps of other processes after each
//! key.
// The tests check how a walk ends, and then the reply to one more step. The hasher `Fnv` spreads the keys; `AllSame`
// gives all keys one hash.
use super::StepText::Ask;
use super::{Pid, Row};
use ets_term::{AllSame, Fnv};
use node_core::WalkFault;
use plan_follower::Plan;
use starts::{
    DELETES_ALL_OBJECTS, DELETES_TABLE, IS_NOT_FIXED, MAKES_TABLE_ANEW, NINE_KEYS, NO_KEYS,
    ONE_KEY, PRIVATE_TABLE_OF_ANOTHER, SEVENTY_KEYS, TWO_KEYS, WALKER_DELETES_TABLE, WALKER_ENDS,
    WALKER_ENROLS, WALKER_HAS_ENDED,
};
use std::alloc::{AllocError, Global};
use std::process::Abort;
use walk_check::{WalkEnd, WalkSetup, walk_has_wanted_end};

// An `Others` that hands in the steps of a `Plan` after each visited key.
mod plan_follower;
// The steps before a walk, and the steps of others during it.
mod starts;
// Makes a walk, and checks how it ends.
mod walk_check;

/// Nine keys, less than the limit. Another process deletes each key and inserts it again as soon as it is visited.
static REINSERTED_KEYS: WalkSetup<'static> = WalkSetup {
    rows: &NINE_KEYS,
    walker: 0,
    limit: 100,
    plan: Plan::DeleteAndInsert,
};

#[test]
fn keys_that_are_deleted_and_inserted_again_come_once(rt: HostRuntime) {
    let alloc = rt.alloc();
    let all_keys = WalkEnd::Keys("[1,2,3,4,5,6,7,8,9]");
    assert!(rt;
        walk_has_wanted_end(alloc, Fnv, REINSERTED_KEYS, all_keys, IS_NOT_FIXED) == Ok(true)
    );
    assert!(rt;
        walk_has_wanted_end(alloc, AllSame, REINSERTED_KEYS, all_keys, IS_NOT_FIXED) == Ok(true)
    );
}

/// Seventy keys of a protected table, walked by a process that does not own it. Others do nothing.
static WALK_BY_NON_OWNER: WalkSetup<'static> = WalkSetup {
    rows: &SEVENTY_KEYS,
    walker: 7,
    limit: 70,
    plan: Plan::Always(&[]),
};

#[test]
fn seventy_keys_are_walked_by_another_process(rt: HostRuntime) {
    let all_keys = WalkEnd::Keys(
        "[1,2,3,4,5,6,7,8,9,10,11,12,13,14,15,16,17,18,19,20,21,22,23,24,25,26,27,28,29,30,31,32,33,34,35,36,37,38,39,40,41,42,43,44,45,46,47,48,49,50,51,52,53,54,55,56,57,58,59,60,61,62,63,64,65,66,67,68,69,70]",
    );
    assert!(rt;
        walk_has_wanted_end(rt.alloc(), Fnv, WALK_BY_NON_OWNER, all_keys, IS_NOT_FIXED) == Ok(true)
    );
}

/// One key. Another process inserts a new key in each turn, so that the walk reaches more keys than its limit.
static NEW_KEY_EACH_TURN: WalkSetup<'static> = WalkSetup {
    rows: &ONE_KEY,
    walker: 0,
    limit: 5,
    plan: Plan::InsertNewKey,
};

#[test]
fn a_key_past_the_limit_ends_the_walk(rt: HostRuntime) {
    // The others see five keys, not the sixth one.
    let wanted_end = WalkEnd::FaultAfter(&WalkFault::LimitReached, 5);
    assert!(rt;
        walk_has_wanted_end(
            rt.alloc(),
            AllSame,
            NEW_KEY_EACH_TURN,
            wanted_end,
            IS_NOT_FIXED
        ) == Ok(true)
    );
}

/// Returns the setup of a walk over two keys, less than its limit, while others follow a plan.
fn setup_of_two_keys(plan: Plan) -> WalkSetup<'static> {
    WalkSetup {
        rows: &TWO_KEYS,
        walker: 0,
        limit: 9,
        plan,
    }
}

/// What others do during a walk over two keys; and a step after the walk, with its wanted reply.
type StopRow = (Plan, Row);

/// Returns the index of the first row whose walk does not end with the wanted fault, or whose step has another reply.
/// `None` means that each row is right.
fn first_wrong_stop(
    alloc: Global,
    wanted: &WalkFault,
    rows: &[StopRow],
) -> Result<Option<usize>, AllocError> {
    for (index, stop) in rows.iter().enumerate() {
        if !walk_stops(alloc, *stop, wanted)? {
            return Ok(Some(index));
        }
    }
    Ok(None)
}

/// Walks over two keys, and returns whether the walk ends with the wanted fault and the step after it has its reply.
fn walk_stops(alloc: Global, stop: StopRow, wanted: &WalkFault) -> Result<bool, AllocError> {
    let (plan, next_row) = stop;
    walk_has_wanted_end(
        alloc,
        Fnv,
        setup_of_two_keys(plan),
        WalkEnd::Fault(wanted),
        next_row,
    )
}

/// Others delete the table, or also create another table with its name. The walk ends, and does not change the new
/// table.
static LOST_TABLE: [StopRow; 3] = [
    (
        Plan::Always(&DELETES_TABLE),
        (Ask(Pid(0), "whereis(t)"), "undefined"),
    ),
    (Plan::Always(&MAKES_TABLE_ANEW), IS_NOT_FIXED),
    (
        Plan::Always(&MAKES_TABLE_ANEW),
        (Ask(Pid(0), "info(t,size)"), "2"),
    ),
];

#[test]
fn a_deleted_table_ends_the_walk(rt: HostRuntime) {
    assert_eq!(rt;
        first_wrong_stop(rt.alloc(), &WalkFault::Lost, &LOST_TABLE),
        Ok(None)
    );
}

/// After the walk the table has `{3,c}`, which others inserted before the step of the walker, but not the later
/// `{4,d}`.
const KEYS_LEFT: Row = (Ask(Pid(0), "tab2list(t)"), "any order: [{1,a},{2,b},{3,c}]");

/// Others hand in a step of the walker, which is process 0. That step and the steps after it are not run.
static OWN_STEPS: [StopRow; 6] = [
    (Plan::Always(&WALKER_ENROLS), KEYS_LEFT),
    (Plan::Always(&WALKER_ENROLS), IS_NOT_FIXED),
    (Plan::Always(&WALKER_ENDS), KEYS_LEFT),
    (Plan::Always(&WALKER_ENDS), IS_NOT_FIXED),
    (Plan::Always(&WALKER_DELETES_TABLE), KEYS_LEFT),
    (Plan::Always(&WALKER_DELETES_TABLE), IS_NOT_FIXED),
];

#[test]
fn a_step_of_the_walker_ends_the_walk(rt: HostRuntime) {
    assert_eq!(rt;
        first_wrong_stop(rt.alloc(), &WalkFault::OwnStep, &OWN_STEPS),
        Ok(None)
    );
}

#[test]
fn out_of_memory_ends_the_walk(rt: HostRuntime) {
    let rows = [(Plan::NoMemory, IS_NOT_FIXED)];
    assert_eq!(rt;
        first_wrong_stop(rt.alloc(), &WalkFault::Memory, &rows),
        Ok(None)
    );
}

#[test]
fn a_walk_over_an_emptied_table_visits_one_key(rt: HostRuntime) {
    let setup = setup_of_two_keys(Plan::Always(&DELETES_ALL_OBJECTS));
    let wanted_end = WalkEnd::KeysSeen(1);
    assert!(rt; walk_has_wanted_end(rt.alloc(), Fnv, setup, wanted_end, IS_NOT_FIXED) == Ok(true));
}

/// Runs `rows` and walks as process 0. Returns whether the walk ends with this fault, and `next_row` then has its
/// reply.
fn walk_has_fault(
    alloc: Global,
    rows: &[Row],
    limit: u32,
    fault: &WalkFault,
    next_row: Row,
) -> Result<bool, AllocError> {
    let setup = WalkSetup {
        rows,
        walker: 0,
        limit,
        // The plan plays no part: these walks end before the first key is visited.
        plan: Plan::DeleteAndInsert,
    };
    walk_has_wanted_end(alloc, Fnv, setup, WalkEnd::Fault(fault), next_row)
}

/// Process 1 asks whether its table is fixed. It is not.
const OWNER_SEES_NO_FIX: Row = (Ask(Pid(1), "info(t,fixed)"), "false");

/// A call of process 0, which was not enrolled.
const HAS_NO_PROCESS: Row = (Ask(Pid(0), "info(t,fixed)"), "** noproc");

/// Walks that are refused at the start: the steps before each walk, and a step after it with its reply. Process 0,
/// which walks, may not read the table, has exited, or was not enrolled.
static UNREADABLE: [(&[Row], Row); 3] = [
    (&PRIVATE_TABLE_OF_ANOTHER, OWNER_SEES_NO_FIX),
    (&WALKER_HAS_ENDED, OWNER_SEES_NO_FIX),
    (&[], HAS_NO_PROCESS),
];

/// Returns the index of the first row whose walk does not end with this fault, or whose step has another reply. `None`
/// means that each row is right.
fn first_walk_with_wrong_fault(
    alloc: Global,
    fault: &WalkFault,
    rows: &[(&'static [Row], Row)],
) -> Result<Option<usize>, AllocError> {
    for (index, (setup_rows, next_row)) in rows.iter().enumerate() {
        // The limit 9 plays no part: these walks are refused before the first key.
        if !walk_has_fault(alloc, *setup_rows, 9, fault, *next_row)? {
            return Ok(Some(index));
        }
    }
    Ok(None)
}

#[test]
fn a_walk_without_a_readable_table_is_refused(rt: HostRuntime) {
    assert_eq!(rt;
        first_walk_with_wrong_fault(rt.alloc(), &WalkFault::Lost, &UNREADABLE),
        Ok(None)
    );
}

/// A walk over an empty table with the limit 0: it may not visit a key. The plan plays no part.
static ZERO_LIMIT: WalkSetup<'static> = WalkSetup {
    rows: &NO_KEYS,
    walker: 0,
    limit: 0,
    plan: Plan::DeleteAndInsert,
};

#[test]
fn a_limit_of_zero_allows_only_an_empty_table(rt: HostRuntime) {
    let alloc = rt.alloc();
    let fault = WalkFault::LimitReached;
    assert!(rt;
        walk_has_wanted_end(alloc, Fnv, ZERO_LIMIT, WalkEnd::Keys("[]"), IS_NOT_FIXED) == Ok(true)
    );
    assert!(rt; walk_has_fault(alloc, &TWO_KEYS, 0, &fault, IS_NOT_FIXED) == Ok(true));
}
