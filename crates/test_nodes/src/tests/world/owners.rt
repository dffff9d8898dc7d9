//! A test of owners, heirs, rights and names of tables.
// A row is a call and its wanted answer. The world makes tables also for a process that did not enrol.
use super::Call::{Delete, End, Enrol, GiveAway, Info, New, Receive, Resolve, Rights, SetOptions};
use super::{DONE, Pid, Row, Tid, first_wrong_scenario};
use std::process::Abort;

/// Only the owner gives a table away, and only to another living process. There is no process 2 and no table 1.
static GIVEN: [Row; 14] = [
    (Enrol(Pid(0)), DONE),
    (Enrol(Pid(1)), DONE),
    (New(Pid(0), "x", "[]"), "#Tid<0>"),
    (GiveAway(Pid(1), Tid(0), Pid(1), "g"), "** badarg"),
    (GiveAway(Pid(0), Tid(0), Pid(0), "g"), "** badarg"),
    (GiveAway(Pid(0), Tid(0), Pid(2), "g"), "** badarg"),
    (GiveAway(Pid(0), Tid(1), Pid(1), "g"), "** badarg"),
    (GiveAway(Pid(0), Tid(0), Pid(1), "g"), DONE),
    (Receive(Pid(1)), "[{'ETS-TRANSFER',#Tid<0>,<0.0.0>,g}]"),
    (Rights(Pid(0), Tid(0)), "[read]"),
    (Rights(Pid(1), Tid(0)), "[read,write,own]"),
    (Resolve("x"), "none"),
    (End(Pid(0)), DONE),
    (Info(Tid(0), "owner"), "<0.1.0>"),
];

/// Only the owner sets the heir, and a malformed option sets nothing. Of two heirs, the last one is used. There is no
/// table 1.
static HEIRS: [Row; 13] = [
    (Enrol(Pid(0)), DONE),
    (Enrol(Pid(1)), DONE),
    (New(Pid(0), "t", "[named_table]"), "t"),
    (
        SetOptions(Pid(0), Tid(0), "[{heir,<0.1.0>,a},{heir,none}]"),
        DONE,
    ),
    (Info(Tid(0), "heir"), "none"),
    (SetOptions(Pid(0), Tid(0), "{heir,<0.1.0>,a}"), DONE),
    (Info(Tid(0), "heir"), "<0.1.0>"),
    (SetOptions(Pid(1), Tid(0), "[]"), "** badarg"),
    (
        SetOptions(Pid(0), Tid(0), "[{heir,none},{heir,1,a}]"),
        "** badarg",
    ),
    (SetOptions(Pid(0), Tid(0), "heir"), "** badarg"),
    (SetOptions(Pid(0), Tid(1), "[]"), "** badarg"),
    (SetOptions(Pid(0), Tid(0), "[]"), DONE),
    (Info(Tid(0), "heir"), "<0.1.0>"),
];

/// The protection of a table decides which other processes may read and write it. There is no table 3.
static RIGHTS: [Row; 9] = [
    (New(Pid(0), "a", "[public]"), "#Tid<0>"),
    (New(Pid(0), "b", "[]"), "#Tid<1>"),
    (New(Pid(0), "c", "[private]"), "#Tid<2>"),
    (Rights(Pid(0), Tid(2)), "[read,write,own]"),
    (Rights(Pid(1), Tid(0)), "[read,write]"),
    (Rights(Pid(1), Tid(1)), "[read]"),
    (Rights(Pid(1), Tid(2)), "[]"),
    (Rights(Pid(0), Tid(3)), "[]"),
    (Info(Tid(2), "protection"), "private"),
];

/// A name may be used again after its table is deleted, but an identifier may not. An integer names no table. To delete
/// a table again does nothing.
static NAMES: [Row; 12] = [
    (New(Pid(0), "t", "[named_table]"), "t"),
    (New(Pid(0), "t", "[]"), "#Tid<1>"),
    (New(Pid(0), "t", "[named_table]"), "** badarg"),
    (Resolve("t"), "#Tid<0>"),
    (Resolve("#Tid<1>"), "#Tid<1>"),
    (Resolve("1"), "none"),
    (Delete(Tid(0)), DONE),
    (Resolve("t"), "none"),
    (Resolve("#Tid<0>"), "none"),
    (New(Pid(0), "t", "[named_table]"), "t"),
    (Resolve("t"), "#Tid<2>"),
    (Delete(Tid(0)), DONE),
];

/// Runs the rows about owners, heirs, rights and names.
#[test]
fn owners_rights_and_names_follow_the_rules(rt: HostRuntime) {
    let scenarios: [&[Row]; 4] = [&GIVEN, &HEIRS, &RIGHTS, &NAMES];
    assert_eq!(rt; first_wrong_scenario(rt.alloc(), &scenarios), Ok(None));
}
