//! Tests of tables over rows: their answers are compared with those that follow from the manual of ets. A scenario is a
//! list of steps, each with its answer.
// `scenario_holds` runs a scenario on tables over plain rows and over split rows. Each answer has a code, an integer,
// so that answers of all types can be compared.
use super::rows::new_rows_with_retry;
use answers::Answer;
use bucket_table::{PlainRows, Rows, SplitRows};
use checks::{Check, both_tables_pass, split_table_passes};
use ets_term::{AllSame, Integer, KeyHash, Position};
use std::alloc::Global;
use steps::run_step;
use table_ops::{Kind, Table};

// `calls`, `objects` and `refused` have rows of steps with answers, and `lists` and `bad_objects` lists that are
// inserted. `long` has long runs. `searches` and `deletions` count the objects that are tested. `steps`,
// `single_calls`, `updates` and `terms` run the steps. `checks` runs each check on new tables.
mod answers;
mod bad_objects;
mod calls;
mod checks;
mod deletions;
mod lists;
mod long;
mod objects;
mod refused;
mod searches;
mod single_calls;
mod steps;
mod terms;
mod updates;

/// The key of the objects that a step reads or changes.
#[derive(Clone, Copy)]
pub struct Key(pub Integer);

/// The object `{A,B}`.
#[derive(Clone, Copy)]
pub struct Object(pub Integer, pub Integer);

/// The object `{A,B,C}`.
#[derive(Clone, Copy)]
pub struct Triple(pub Integer, pub Integer, pub Integer);

/// The depth of the second element of an object.
#[derive(Clone, Copy)]
pub struct Depth(pub usize);

/// The position of an element.
#[derive(Clone, Copy)]
pub struct Pos(pub Position);

/// What a counter is incremented by.
#[derive(Clone, Copy)]
pub struct Incr(pub Integer);

/// The counter of the default object `{0,Counter}`, from which a counter starts if its key is missing.
#[derive(Clone, Copy)]
pub struct Start(pub Integer);

/// A value that is written to the second element.
#[derive(Clone, Copy)]
pub struct Value(pub Integer);

/// What a deletion does with a slot that loses its last object.
#[derive(Clone, Copy)]
pub enum Emptied {
    LeaveTombstone,
    RemoveSlot,
}

impl Emptied {
    /// Returns the `hold` argument of the call: whether a slot without objects stays as a tombstone.
    fn leaves_tombstone(self) -> bool {
        match self {
            Emptied::LeaveTombstone => true,
            Emptied::RemoveSlot => false,
        }
    }
}

/// A call, mostly on pairs of integers.
#[derive(Clone, Copy)]
pub enum Step {
    /// Inserts an object.
    Insert(Object),
    /// Inserts a list of two objects.
    InsertTwo(Object, Object),
    /// Inserts an object of three elements.
    InsertTriple(Triple),
    /// Inserts an integer, which is not an object.
    InsertInteger(Integer),
    /// Inserts the pair of a key and of lists within lists, which have this depth.
    InsertDeep(Key, Depth),
    /// Inserts an object if its key is new.
    InsertNew(Object),
    /// Inserts the pair of `InsertDeep` if its key is new.
    InsertNewDeep(Key, Depth),
    /// Reads the objects of a key.
    Lookup(Key),
    /// Reads the element at this position of each object of a key.
    LookupElement(Key, Pos),
    /// Deletes the objects of a key, and answers with them.
    Take(Key, Emptied),
    /// Deletes the objects of a key.
    Delete(Key, Emptied),
    /// Deletes the objects that equal this one.
    DeleteObject(Object, Emptied),
    /// Deletes all objects.
    DeleteAll(Emptied),
    /// Removes the tombstones.
    Purge,
    /// Increments the counter of a key, which is the element after the key.
    UpdateCounter(Key, Incr),
    /// Updates a counter, which starts with a default object if its key is missing.
    UpdateCounterFrom(Key, Incr, Start),
    /// Writes a value to the second element of a key's object.
    UpdateElement(Key, Value),
    /// Searches by `match` and by `match_object` for `{Key,'$1'}`.
    Match(Key),
    /// Deletes the objects that match `{Key,'$1'}`.
    MatchDelete(Key, Emptied),
    /// Searches by `select` and by `select_count` for the objects whose second element is less than an integer.
    SelectBelow(Integer),
    /// Deletes the objects whose second element is less than an integer.
    SelectDeleteBelow(Integer, Emptied),
    /// Reads all objects, in any order.
    AllObjects,
    /// Reads how many objects the table has.
    CountObjects,
    /// Reads how many slots the table has, tombstones included.
    CountSlots,
    /// Doubles the buckets, and makes the first unready one ready.
    Grow,
}

/// The code of a step that ran out of memory.
const OUT_OF_MEMORY: Integer = -3;

/// Runs a step. Returns the code of its answer, or `OUT_OF_MEMORY`.
fn answer_code<R: Rows>(alloc: Global, table: &mut Table<R>, step: Step) -> Integer {
    run_step(alloc, table, step).unwrap_or(OUT_OF_MEMORY)
}

/// Runs a step, and returns whether it has this answer.
fn step_has_answer<R: Rows>(
    alloc: Global,
    table: &mut Table<R>,
    step: Step,
    wanted: Answer,
) -> bool {
    answer_code(alloc, table, step) == wanted.code()
}

/// Runs steps in order, and returns whether each has its answer.
fn steps_have_answers<R: Rows>(
    alloc: Global,
    table: &mut Table<R>,
    steps: &[(Step, Answer)],
) -> bool {
    for (step, wanted) in steps {
        if !step_has_answer(alloc, table, *step, *wanted) {
            return false;
        }
    }
    true
}

/// The position of the key in each object of a table.
#[derive(Clone, Copy)]
pub struct Keypos(pub u32);

/// The greatest number of objects in a table.
#[derive(Clone, Copy)]
pub struct MaxObjects(pub u32);

/// A table without objects: its kind, its keypos and its greatest number of objects.
#[derive(Clone, Copy)]
pub struct EmptyTable(pub Kind, pub Keypos, pub MaxObjects);

/// Creates a table over plain rows.
fn plain_table(alloc: Global, empty: EmptyTable) -> Table<PlainRows> {
    let EmptyTable(kind, keypos, limit) = empty;
    // `max`, because `Table::new` requires a keypos of at least 1.
    Table::new(alloc, PlainRows::new(alloc), kind, keypos.0.max(1), limit.0)
}

/// Creates a table over split rows with this hasher. `None` means that memory ran out twice.
fn split_table<H: KeyHash + Copy + Drop>(
    alloc: Global,
    hasher: H,
    empty: EmptyTable,
) -> Option<Table<SplitRows<H>>> {
    let EmptyTable(kind, keypos, limit) = empty;
    let rows = new_rows_with_retry(alloc, hasher).ok()?;
    // `max`, because `Table::new` requires a keypos of at least 1.
    Some(Table::new(alloc, rows, kind, keypos.0.max(1), limit.0))
}

/// The kind, the keypos and the greatest number of objects of a table, and the steps on it, each with its answer.
type Scenario = (Kind, Keypos, MaxObjects, &'static [(Step, Answer)]);

/// Returns whether each step has its answer over plain rows, over split rows, and over split rows with one hash for all
/// keys.
fn scenario_holds(alloc: Global, scenario: Scenario) -> bool {
    let (kind, keypos, limit, steps) = scenario;
    let empty = EmptyTable(kind, keypos, limit);
    let check = Check::Answer(steps);
    both_tables_pass(alloc, empty, check)
        && split_table_passes(alloc, AllSame, empty, check) == Some(true)
}

/// Returns the index of the first scenario with a wrong answer, or `None` if all answers are right.
fn first_mismatch(alloc: Global, scenarios: &[Scenario]) -> Option<usize> {
    for (index, scenario) in scenarios.iter().enumerate() {
        if !scenario_holds(alloc, *scenario) {
            return Some(index);
        }
    }
    None
}
