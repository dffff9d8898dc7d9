//! The rows of a test of insertions under new and old keys. The test is in `refused`.
use super::StepText::{Ask, Enrol};
use super::{Pid, Row};

/// Steps and their wanted replies: an object goes under a new key, over another object, over a tombstone, or after the
/// other objects of its key in a bag. Then lists of objects, and calls that are refused. There is no table v and no
/// process 1.
pub(super) static INSERTIONS: [Row; 22] = [
    (Enrol(Pid(0)), "<0.0.0>"),
    (Ask(Pid(0), "new(t,[named_table])"), "t"),
    (Ask(Pid(0), "new(u,[bag,named_table])"), "u"),
    (Ask(Pid(0), "insert(t,{a,{b,[c]}})"), "true"),
    (Ask(Pid(0), "lookup(t,a)"), "[{a,{b,[c]}}]"),
    (Ask(Pid(0), "insert(t,{a,2,[3]})"), "true"),
    (Ask(Pid(0), "lookup(t,a)"), "[{a,2,[3]}]"),
    (Ask(Pid(0), "safe_fixtable(t,true)"), "true"),
    (Ask(Pid(0), "delete(t,a)"), "true"),
    (Ask(Pid(0), "insert(t,{a,4})"), "true"),
    (Ask(Pid(0), "insert(t,[{b,5},{a,6}])"), "true"),
    (Ask(Pid(0), "tab2list(t)"), "any order: [{a,6},{b,5}]"),
    (Ask(Pid(0), "insert(u,{a,1})"), "true"),
    (Ask(Pid(0), "insert(u,{a,{2}})"), "true"),
    (Ask(Pid(0), "insert(u,{a,1})"), "true"),
    (Ask(Pid(0), "lookup(u,a)"), "[{a,1},{a,{2}}]"),
    (Ask(Pid(0), "insert(t,{})"), "** badarg"),
    (Ask(Pid(0), "insert(t,a)"), "** badarg"),
    (Ask(Pid(0), "insert(v,{a,1})"), "** badarg"),
    (Ask(Pid(1), "insert(t,{a,1})"), "** noproc"),
    (Ask(Pid(0), "insert_new(t,{a,7})"), "false"),
    (Ask(Pid(0), "lookup(t,a)"), "[{a,6}]"),
];
