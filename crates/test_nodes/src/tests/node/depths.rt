//! A test of the depth limit: arguments and stored objects are at most 128 levels deep. A row is a step and its wanted
//! reply.
// The text `deep(n)` is the empty list within n - 1 lists: a term n levels deep.
use super::StepText::{Ask, Enrol};
use super::{Pid, Row, first_wrong_row};
use std::process::Abort;

/// Steps and their wanted replies. Arguments and stored objects are at most 128 levels deep. A step checks its process
/// first, then the depth, then all else. There is no table u, no process 2, and no call `foo`.
static DEEP: [Row; 27] = [
    (Enrol(Pid(0)), "<0.0.0>"),
    (Enrol(Pid(1)), "<0.1.0>"),
    (Ask(Pid(0), "new(t,[named_table])"), "t"),
    (Ask(Pid(0), "insert(t,{a,deep(127)})"), "true"),
    (Ask(Pid(0), "insert(t,{a,deep(128)})"), "** system_limit"),
    (Ask(Pid(0), "insert(u,{a,deep(128)})"), "** system_limit"),
    (
        Ask(Pid(0), "insert(t,[{b,1},{a,deep(127)}])"),
        "** system_limit",
    ),
    (Ask(Pid(0), "lookup(t,b)"), "[]"),
    (Ask(Pid(0), "lookup(t,deep(128))"), "[]"),
    (Ask(Pid(0), "lookup(t,deep(129))"), "** system_limit"),
    (Ask(Pid(0), "update_counter(t,deep(127),1,{x,1})"), "2"),
    (
        Ask(Pid(0), "update_counter(t,deep(128),1,{x,1})"),
        "** system_limit",
    ),
    (
        Ask(Pid(0), "update_counter(t,deep(129),1,{x,1})"),
        "** system_limit",
    ),
    (
        Ask(Pid(0), "update_element(t,a,{2,deep(128)})"),
        "** system_limit",
    ),
    (Ask(Pid(0), "update_element(t,a,{2,deep(127)})"), "true"),
    (Ask(Pid(0), "next(t,deep(129))"), "** system_limit"),
    (Ask(Pid(0), "insert(t,deep(129),a,b)"), "** system_limit"),
    (Ask(Pid(0), "foo(deep(129))"), "** system_limit"),
    (Ask(Pid(0), "foo(deep(128))"), "** badarg"),
    (Ask(Pid(0), "foo()"), "** badarg"),
    (Ask(Pid(1), "match(u,deep(129))"), "** system_limit"),
    (
        Ask(Pid(1), "update_counter(t,a,deep(129))"),
        "** system_limit",
    ),
    (Ask(Pid(1), "update_counter(t,a,deep(128))"), "** badarg"),
    (Ask(Pid(2), "update_counter(t,a,deep(129))"), "** noproc"),
    (Ask(Pid(2), "select(t,deep(129))"), "** noproc"),
    (Ask(Pid(2), "next(t,deep(129))"), "** noproc"),
    (Ask(Pid(2), "foo(deep(129))"), "** noproc"),
];

#[test]
fn arguments_are_at_most_128_deep(rt: HostRuntime) {
    assert_eq!(rt; first_wrong_row(rt.alloc(), &DEEP), Ok(None));
}
