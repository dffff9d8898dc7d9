//! A test of exits of processes: what becomes of their tables, fixes and numbers.
// A row is a call and its wanted answer. Tables are numbered from 0 in order of creation.
use super::Call::{End, Enrol, Fix, Info, New, Receive, Resolve, SetOptions};
use super::{DONE, Pid, Row, Tid, first_wrong_scenario};
use std::process::Abort;

/// If the owner exits, its heir gets the table and a message, if the heir lives.
static INHERITED: [Row; 11] = [
    (Enrol(Pid(0)), DONE),
    (Enrol(Pid(1)), DONE),
    (New(Pid(0), "t", "[named_table,{heir,<0.1.0>,gift}]"), "t"),
    (End(Pid(0)), DONE),
    (Receive(Pid(1)), "[{'ETS-TRANSFER',t,<0.0.0>,gift}]"),
    (Info(Tid(0), "owner"), "<0.1.0>"),
    (Receive(Pid(1)), "[]"),
    (End(Pid(1)), DONE),
    (Info(Tid(0), "size"), "undefined"),
    (Resolve("t"), "none"),
    (End(Pid(1)), "** noproc"),
];

/// An exit deletes a table without an heir, or whose heir has exited, is the owner itself, or was not enrolled.
static NO_HEIR: [Row; 12] = [
    (Enrol(Pid(0)), DONE),
    (Enrol(Pid(1)), DONE),
    (New(Pid(0), "t", "[named_table,{heir,<0.1.0>,gift}]"), "t"),
    (New(Pid(0), "u", "[named_table,{heir,<0.0.0>,own}]"), "u"),
    (New(Pid(0), "v", "[{heir,<0.7.0>,unknown}]"), "#Tid<2>"),
    (New(Pid(1), "w", "[]"), "#Tid<3>"),
    (End(Pid(1)), DONE),
    (End(Pid(0)), DONE),
    (Resolve("t"), "none"),
    (Resolve("u"), "none"),
    (Resolve("#Tid<2>"), "none"),
    (Resolve("#Tid<3>"), "none"),
];

/// An heir gets its messages in the order in which the tables were created.
static IN_ORDER: [Row; 11] = [
    (Enrol(Pid(0)), DONE),
    (Enrol(Pid(1)), DONE),
    (Enrol(Pid(2)), DONE),
    (New(Pid(0), "a", "[{heir,<0.1.0>,1}]"), "#Tid<0>"),
    (New(Pid(0), "b", "[{heir,<0.2.0>,2}]"), "#Tid<1>"),
    (New(Pid(1), "c", "[]"), "#Tid<2>"),
    (New(Pid(0), "d", "[named_table,{heir,<0.1.0>,[x]}]"), "d"),
    (End(Pid(0)), DONE),
    (
        Receive(Pid(1)),
        "[{'ETS-TRANSFER',#Tid<0>,<0.0.0>,1},{'ETS-TRANSFER',d,<0.0.0>,[x]}]",
    ),
    (Receive(Pid(2)), "[{'ETS-TRANSFER',#Tid<1>,<0.0.0>,2}]"),
    (Info(Tid(3), "heir"), "<0.1.0>"),
];

/// The exit of a process releases its fixes, also of a table that passes to an heir. The empty list of options changes
/// nothing.
static FIXES: [Row; 12] = [
    (Enrol(Pid(0)), DONE),
    (Enrol(Pid(1)), DONE),
    (Enrol(Pid(2)), DONE),
    (New(Pid(0), "t", "[public,{heir,<0.2.0>,x}]"), "#Tid<0>"),
    (Fix(Pid(0), Tid(0)), DONE),
    (Fix(Pid(1), Tid(0)), DONE),
    (End(Pid(1)), DONE),
    (Info(Tid(0), "fixed"), "true"),
    (SetOptions(Pid(0), Tid(0), "[]"), DONE),
    (End(Pid(0)), DONE),
    (Info(Tid(0), "fixed"), "false"),
    (Info(Tid(0), "owner"), "<0.2.0>"),
];

/// A process number enrols only once, even after its exit; 4294967295 is the greatest. The limit is three processes,
/// and an exited one still counts.
static ENROLLED: [Row; 8] = [
    (Enrol(Pid(7)), DONE),
    (Enrol(Pid(7)), "** badarg"),
    (Enrol(Pid(0)), DONE),
    (End(Pid(0)), DONE),
    (Enrol(Pid(0)), "** badarg"),
    (Enrol(Pid(4294967295)), DONE),
    (Enrol(Pid(1)), "** system_limit"),
    (End(Pid(1)), "** noproc"),
];

/// Runs the rows about enrolment and exit of processes.
#[test]
fn processes_enrol_and_end(rt: HostRuntime) {
    let scenarios: [&[Row]; 5] = [&INHERITED, &NO_HEIR, &IN_ORDER, &FIXES, &ENROLLED];
    assert_eq!(rt; first_wrong_scenario(rt.alloc(), &scenarios), Ok(None));
}
