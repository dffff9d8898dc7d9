//! The rows of the tests of `why`: steps that break a rule or pass a limit.
// A row is a step and the wanted reason of its refusal: the first rule that it breaks. A step that is not refused has
// `NO_REASON`.
use super::super::{Bucket, Pid, Tid};
use super::Row;
use super::StepText::{Ask, End, Enrol, Grow, Ready};

/// The wanted text of a step that is not refused.
const NO_REASON: &str = "";

/// The reason of a second argument that cannot be an object of the table, or is a list with a term that cannot be one.
const NOT_AN_OBJECT: &str =
    "argument 2: not a tuple that has the key position, or the key is '$end_of_table'";

/// The reason of a position that the object does not have, such as 18446744073709551617, which is 2^64 + 1.
const PAST_THE_END: &str = "argument 3: position is past the end of the object";

/// The reason of an update that is malformed, or would change the key.
const MALFORMED_UPDATE: &str = "argument 3: malformed update, or it would change the key";

/// The reason of an option that is unknown or malformed.
const MALFORMED_OPTION: &str = "argument 2: unknown or malformed option";

/// Steps that set up two tables, and then steps that are wrong: their process number, call or table is wrong, or the
/// process may not use the table in this way. There is no process 9, no table `nosuch`, 3 or 9, and no call `lokup`.
pub static STEPS: [Row; 22] = [
    (Enrol(Pid(6)), NO_REASON),
    (Enrol(Pid(7)), NO_REASON),
    (Enrol(Pid(8)), NO_REASON),
    (End(Pid(6)), NO_REASON),
    (Ask(Pid(7), "new(t,[named_table])"), NO_REASON),
    (Ask(Pid(7), "new(mine,[named_table,private])"), NO_REASON),
    (Enrol(Pid(7)), "process number already used"),
    (End(Pid(9)), "no such process (or it has exited)"),
    (
        Ask(Pid(6), "lokup(nosuch)"),
        "no such process (or it has exited)",
    ),
    (Grow(Tid(3)), "no such table"),
    (Ready(Tid(3), Bucket(1)), "no such table"),
    (Ask(Pid(7), "lokup(t,a)"), "unknown call"),
    (Ask(Pid(7), "lookup(t)"), "wrong number of arguments"),
    (
        Ask(Pid(7), "receive(1,2,3,4,5,6)"),
        "wrong number of arguments",
    ),
    (Ask(Pid(7), "insert(nosuch,a)"), "argument 1: no such table"),
    (Ask(Pid(7), "lookup(5,a)"), "argument 1: no such table"),
    (Ask(Pid(7), "delete(#Tid<9>)"), "argument 1: no such table"),
    (
        Ask(Pid(7), "give_away(nosuch,x,g)"),
        "argument 1: no such table",
    ),
    (
        Ask(Pid(8), "lookup_element(mine,a,0)"),
        "argument 1: the process may not read this table",
    ),
    (
        Ask(Pid(8), "insert(t,a)"),
        "argument 1: the process may not write to this table",
    ),
    (
        Ask(Pid(8), "setopts(t,x)"),
        "argument 1: the process does not own this table",
    ),
    (
        Ask(Pid(8), "give_away(t,<0.8.0>,g)"),
        "argument 1: the process does not own this table",
    ),
];

/// Steps that set up two tables, and then calls with a wrong argument. It is in the place of an object, a key, a
/// position, a pattern or a match specification. No object has the key zz.
pub static OBJECTS: [Row; 21] = [
    (Enrol(Pid(7)), NO_REASON),
    (Ask(Pid(7), "new(t,[named_table])"), NO_REASON),
    (Ask(Pid(7), "new(all,[named_table,bag,public])"), NO_REASON),
    (Ask(Pid(7), "insert(t,{a,x})"), NO_REASON),
    (Ask(Pid(7), "insert(all,[{a,1,x},{a,2}])"), NO_REASON),
    (Ask(Pid(7), "insert(t,a)"), NOT_AN_OBJECT),
    (Ask(Pid(7), "insert(t,{})"), NOT_AN_OBJECT),
    (Ask(Pid(7), "insert_new(t,[{b},c])"), NOT_AN_OBJECT),
    (Ask(Pid(7), "delete_object(t,{})"), NOT_AN_OBJECT),
    (
        Ask(Pid(7), "lookup_element(t,zz,2)"),
        "argument 2: no such key",
    ),
    (Ask(Pid(7), "lookup_element(t,a,5)"), PAST_THE_END),
    (
        Ask(Pid(7), "lookup_element(t,a,18446744073709551617)"),
        PAST_THE_END,
    ),
    (Ask(Pid(7), "lookup_element(all,a,3)"), PAST_THE_END),
    (
        Ask(Pid(7), "lookup_element(t,zz,0)"),
        "argument 3: position must be at least 1",
    ),
    (
        Ask(Pid(7), "lookup_element(t,zz,x,d)"),
        "argument 3: position must be at least 1",
    ),
    (Ask(Pid(7), "next(t,zz)"), "argument 2: no such key"),
    (Ask(Pid(7), "next_lookup(t,zz)"), "argument 2: no such key"),
    (
        Ask(Pid(7), "match(t,5)"),
        "argument 2: pattern must be a tuple or an atom",
    ),
    (
        Ask(Pid(7), "match_delete(t,[])"),
        "argument 2: pattern must be a tuple or an atom",
    ),
    (
        Ask(Pid(7), "select(t,[{x}])"),
        "argument 2: malformed match specification",
    ),
    (
        Ask(Pid(7), "select_delete(t,x)"),
        "argument 2: malformed match specification",
    ),
];

/// Steps that set up two tables, and then updates of counters and elements that are malformed, or do not fit the table
/// or the object. No object has the key zz, so the first two updates reply `false` and are not refused.
pub static UPDATES: [Row; 21] = [
    (Enrol(Pid(7)), NO_REASON),
    (Ask(Pid(7), "new(t,[named_table])"), NO_REASON),
    (Ask(Pid(7), "new(all,[named_table,bag,public])"), NO_REASON),
    (Ask(Pid(7), "insert(t,{a,x})"), NO_REASON),
    (Ask(Pid(7), "insert(t,{n,1})"), NO_REASON),
    (Ask(Pid(7), "insert(all,[{a,1,x},{a,2}])"), NO_REASON),
    (Ask(Pid(7), "update_element(t,zz,{2,1})"), NO_REASON),
    (
        Ask(Pid(7), "update_element(t,zz,{18446744073709551617,1})"),
        NO_REASON,
    ),
    (
        Ask(Pid(7), "update_counter(t,zz,1)"),
        "argument 2: no such key",
    ),
    (
        Ask(Pid(7), "update_counter(t,a,1)"),
        "argument 3: the element is missing or not an integer",
    ),
    (
        Ask(Pid(7), "update_counter(t,n,[{2,1},{3,1}])"),
        "argument 3: the element is missing or not an integer",
    ),
    (Ask(Pid(7), "update_counter(t,zz,{1,1})"), MALFORMED_UPDATE),
    (
        Ask(Pid(7), "update_counter(t,zz,[{2,1},{2,x}])"),
        MALFORMED_UPDATE,
    ),
    (
        Ask(Pid(7), "update_counter(all,a,1)"),
        "argument 1: the table is not a set",
    ),
    (
        Ask(Pid(7), "update_counter(t,n,1,x)"),
        "argument 4: not a tuple that has the key position, or the key is '$end_of_table'",
    ),
    (
        Ask(Pid(7), "update_counter(t,zz,1,{x,y})"),
        "argument 3: the element is missing or not an integer",
    ),
    (Ask(Pid(7), "update_element(t,zz,{1,1})"), MALFORMED_UPDATE),
    (Ask(Pid(7), "update_element(t,a,{3,1})"), PAST_THE_END),
    (
        Ask(Pid(7), "update_element(t,a,{18446744073709551617,1})"),
        PAST_THE_END,
    ),
    (
        Ask(Pid(7), "update_element(all,a,{2,1})"),
        "argument 1: the table is not a set",
    ),
    (
        Ask(Pid(7), "update_element(t,a,[{2,1}],{})"),
        "argument 4: not a tuple that has the key position, or the key is '$end_of_table'",
    ),
];

/// Steps that set up two tables, and then calls that are wrong: they make tables, report on them, fix them or give them
/// away. Two calls are right: `info` of a missing table, and the last one.
pub static TABLES: [Row; 22] = [
    (Enrol(Pid(6)), NO_REASON),
    (Enrol(Pid(7)), NO_REASON),
    (Enrol(Pid(8)), NO_REASON),
    (End(Pid(6)), NO_REASON),
    (Ask(Pid(7), "new(t,[named_table])"), NO_REASON),
    (Ask(Pid(7), "new(mine,[named_table,private])"), NO_REASON),
    (Ask(Pid(8), "info(#Tid<9>,size)"), NO_REASON),
    (Ask(Pid(8), "give_away(t,x,g)"), "argument 2: not a pid"),
    (
        Ask(Pid(7), "give_away(t,<0.7.0>,g)"),
        "argument 2: the process already owns the table",
    ),
    (
        Ask(Pid(7), "give_away(t,<0.6.0>,g)"),
        "argument 2: no such process (or it has exited)",
    ),
    (Ask(Pid(7), "setopts(t,[{heir,none},x])"), MALFORMED_OPTION),
    (Ask(Pid(7), "info(5,foo)"), "argument 2: unknown info item"),
    (
        Ask(Pid(7), "info(5,size)"),
        "argument 1: table name must be an atom",
    ),
    (
        Ask(Pid(7), "whereis(5)"),
        "argument 1: table name must be an atom",
    ),
    (
        Ask(Pid(7), "safe_fixtable(nosuch,yes)"),
        "argument 2: must be true or false",
    ),
    (
        Ask(Pid(8), "safe_fixtable(mine,true)"),
        "argument 1: the process may not read this table",
    ),
    (
        Ask(Pid(7), "new(t,[named_table])"),
        "argument 1: table name already in use",
    ),
    (Ask(Pid(7), "new(t,[named_table,seet])"), MALFORMED_OPTION),
    (Ask(Pid(7), "new(u,[{keypos,0}])"), MALFORMED_OPTION),
    (Ask(Pid(7), "new(u,[{heir,x,y}])"), MALFORMED_OPTION),
    (
        Ask(Pid(7), "new(5,seet)"),
        "argument 1: table name must be an atom",
    ),
    (Ask(Pid(7), "new(t,[{keypos,2},compressed])"), NO_REASON),
];

/// Steps in a node whose limits are one process, one table and one object.
pub static LIMITED: [Row; 8] = [
    (Enrol(Pid(7)), NO_REASON),
    (Enrol(Pid(8)), "process limit reached"),
    (Enrol(Pid(7)), "process number already used"),
    (Ask(Pid(7), "new(t,[named_table])"), NO_REASON),
    (Ask(Pid(7), "new(u,[])"), "table limit reached"),
    (
        Ask(Pid(7), "insert(t,[{a,1},{b,2}])"),
        "object limit reached",
    ),
    (Ask(Pid(7), "insert(t,{a,1})"), NO_REASON),
    (
        Ask(Pid(7), "update_counter(t,b,1,{b,1})"),
        "integer range, depth limit or object limit would be exceeded",
    ),
];
