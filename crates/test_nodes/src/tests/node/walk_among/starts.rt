//! The steps before a walk (`Row`s with their replies), and the steps of others during it (`StepText`s).
// Process 0 walks, in all but `SEVENTY_KEYS`; process 1 is one of the others.
use super::super::StepText::{self, Ask, Enrol};
use super::super::{Pid, Row};

/// Process 0 asks whether the table is fixed. It is not.
pub const IS_NOT_FIXED: Row = (Ask(Pid(0), "info(t,fixed)"), "false");

/// Makes the public table t of process 0, without keys, and enrols process 1.
pub const NO_KEYS: [Row; 3] = [
    (Enrol(Pid(0)), "<0.0.0>"),
    (Enrol(Pid(1)), "<0.1.0>"),
    (Ask(Pid(0), "new(t,[named_table,public])"), "t"),
];

/// Makes the same table as `NO_KEYS`, with one key.
pub const ONE_KEY: [Row; 4] = [
    (Enrol(Pid(0)), "<0.0.0>"),
    (Enrol(Pid(1)), "<0.1.0>"),
    (Ask(Pid(0), "new(t,[named_table,public])"), "t"),
    (Ask(Pid(0), "insert(t,{1})"), "true"),
];

/// Makes the same table as `NO_KEYS`, with two keys.
pub static TWO_KEYS: [Row; 4] = [
    (Enrol(Pid(0)), "<0.0.0>"),
    (Enrol(Pid(1)), "<0.1.0>"),
    (Ask(Pid(0), "new(t,[named_table,public])"), "t"),
    (Ask(Pid(0), "insert(t,[{1,a},{2,b}])"), "true"),
];

/// Makes the same table as `NO_KEYS`, with nine keys.
pub const NINE_KEYS: [Row; 4] = [
    (Enrol(Pid(0)), "<0.0.0>"),
    (Enrol(Pid(1)), "<0.1.0>"),
    (Ask(Pid(0), "new(t,[named_table,public])"), "t"),
    (
        Ask(Pid(0), "insert(t,[{1},{2},{3},{4},{5},{6},{7},{8},{9}])"),
        "true",
    ),
];

/// Makes the protected table t of process 0 with seventy keys, and enrols process 7, which walks.
pub const SEVENTY_KEYS: [Row; 4] = [
    (Enrol(Pid(0)), "<0.0.0>"),
    (Enrol(Pid(7)), "<0.7.0>"),
    (Ask(Pid(0), "new(t,[named_table])"), "t"),
    (
        Ask(
            Pid(0),
            "insert(t,[{1},{2},{3},{4},{5},{6},{7},{8},{9},{10},{11},{12},{13},{14},{15},{16},{17},{18},{19},{20},{21},{22},{23},{24},{25},{26},{27},{28},{29},{30},{31},{32},{33},{34},{35},{36},{37},{38},{39},{40},{41},{42},{43},{44},{45},{46},{47},{48},{49},{50},{51},{52},{53},{54},{55},{56},{57},{58},{59},{60},{61},{62},{63},{64},{65},{66},{67},{68},{69},{70}])",
        ),
        "true",
    ),
];

/// Others delete the table.
pub const DELETES_TABLE: [StepText; 1] = [Ask(Pid(1), "delete(t)")];

/// Others delete the table and create another table with its name.
pub const MAKES_TABLE_ANEW: [StepText; 3] = [
    Ask(Pid(1), "delete(t)"),
    Ask(Pid(1), "new(t,[named_table,public])"),
    Ask(Pid(1), "insert(t,[{1,a},{2,b}])"),
];

/// The walker enrols again, between two steps of process 1.
pub const WALKER_ENROLS: [StepText; 3] = [
    Ask(Pid(1), "insert(t,{3,c})"),
    Enrol(Pid(0)),
    Ask(Pid(1), "insert(t,{4,d})"),
];

/// The walker exits, between two steps of process 1.
pub const WALKER_ENDS: [StepText; 3] = [
    Ask(Pid(1), "insert(t,{3,c})"),
    StepText::End(Pid(0)),
    Ask(Pid(1), "insert(t,{4,d})"),
];

/// The walker deletes the table, between two steps of process 1.
pub const WALKER_DELETES_TABLE: [StepText; 3] = [
    Ask(Pid(1), "insert(t,{3,c})"),
    Ask(Pid(0), "delete(t)"),
    Ask(Pid(1), "insert(t,{4,d})"),
];

/// Others delete all objects.
pub static DELETES_ALL_OBJECTS: [StepText; 1] = [Ask(Pid(1), "delete_all_objects(t)")];

/// Makes the private table t of process 1, which process 0 may not read.
pub const PRIVATE_TABLE_OF_ANOTHER: [Row; 3] = [
    (Enrol(Pid(0)), "<0.0.0>"),
    (Enrol(Pid(1)), "<0.1.0>"),
    (Ask(Pid(1), "new(t,[named_table,private])"), "t"),
];

/// Makes the table t of process 1; process 0, the walker, exits before the walk.
pub const WALKER_HAS_ENDED: [Row; 4] = [
    (Enrol(Pid(0)), "<0.0.0>"),
    (Enrol(Pid(1)), "<0.1.0>"),
    (Ask(Pid(1), "new(t,[named_table])"), "t"),
    (StepText::End(Pid(0)), "true"),
];
