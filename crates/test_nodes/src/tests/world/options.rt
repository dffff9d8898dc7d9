//! A test of the options of `new`, and of what `info` then replies.
// A row is a call and its wanted answer. The world makes tables also for a process that did not enrol.
use super::Call::{Info, New};
use super::{Pid, Row, Tid, first_wrong_scenario};
use std::process::Abort;

/// `info` shows all options. Of several options of one kind, the last one is used. The greatest keypos is 4294967295.
/// `memory` is not an `info` item of this store, and there is no table 1.
static READ: [Row; 12] = [
    (
        New(
            Pid(0),
            "t",
            "[set,public,private,named_table,duplicate_bag,{keypos,4294967295}]",
        ),
        "t",
    ),
    (Info(Tid(0), "name"), "t"),
    (Info(Tid(0), "named_table"), "true"),
    (Info(Tid(0), "protection"), "private"),
    (Info(Tid(0), "type"), "duplicate_bag"),
    (Info(Tid(0), "keypos"), "4294967295"),
    (Info(Tid(0), "heir"), "none"),
    (Info(Tid(0), "id"), "#Tid<0>"),
    (Info(Tid(0), "size"), "0"),
    (Info(Tid(0), "fixed"), "false"),
    (Info(Tid(0), "memory"), "** badarg"),
    (Info(Tid(1), "name"), "undefined"),
];

/// Tuning options change nothing that `info` shows. Of two heirs, the last one is used.
static TUNING: [Row; 4] = [
    (
        New(
            Pid(0),
            "t",
            "[compressed,{read_concurrency,true},{write_concurrency,auto}]",
        ),
        "#Tid<0>",
    ),
    (
        New(
            Pid(0),
            "t",
            "[{decentralized_counters,false},{heir,<0.1.0>,a},{heir,none}]",
        ),
        "#Tid<1>",
    ),
    (Info(Tid(1), "heir"), "none"),
    (Info(Tid(1), "protection"), "protected"),
];

/// The limit is four tables. A name in use is refused before the limit.
static AT_LIMIT: [Row; 6] = [
    (New(Pid(0), "a", "[]"), "#Tid<0>"),
    (New(Pid(0), "b", "[]"), "#Tid<1>"),
    (New(Pid(0), "c", "[named_table]"), "c"),
    (New(Pid(0), "d", "[]"), "#Tid<3>"),
    (New(Pid(0), "c", "[named_table]"), "** badarg"),
    (New(Pid(0), "e", "[]"), "** system_limit"),
];

/// Runs the rows about the options of tables.
#[test]
fn info_shows_the_options_of_a_table(rt: HostRuntime) {
    let scenarios: [&[Row]; 3] = [&READ, &TUNING, &AT_LIMIT];
    assert_eq!(rt; first_wrong_scenario(rt.alloc(), &scenarios), Ok(None));
}
