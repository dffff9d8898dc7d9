//! The rules that a step can break, and the reason of a refused step: its first broken rule, with the number of the
//! argument.
ghost use Rattle.std.specs.Prelude.{◌≡◌};
ghost use Rattle.node_reasons.specs.Reasons.{about_whole_call, argument};

/// A rule of docs/calls.md, which a refused step breaks.
#[derive(Clone, Copy, Debug, PartialEq, Eq)]
pub enum Rule {
    /// The process was never spawned, or has exited.
    NoProcess,
    /// A process with this number was spawned before.
    AlreadyEnrolled,
    /// The argument is nested more than 128 levels deep.
    TooDeep,
    /// No call has this name.
    NoCall,
    /// A call has this name, but with another number of arguments.
    WrongArity,
    /// There is no such table.
    NoTable,
    /// The process may not read the table.
    NotReadable,
    /// The process may not write to the table.
    NotWritable,
    /// The table is not the process's own.
    NotOwner,
    /// The table is a bag, and the call is for sets.
    NotASet,
    /// The argument is not an object of the table, or is a list that has something else in it. An object is a tuple
    /// that has the key position, and its key is not `'$end_of_table'`. A Default counts as an object with the key in
    /// it.
    NotAnObject,
    /// The key has no object; in a traversal, it has no tombstone either.
    NoKey,
    /// The argument is not a position, which is an integer of at least 1.
    NotAPosition,
    /// The object, or one of the objects, has fewer elements.
    NoElement,
    /// The argument is not a pattern, which is an atom or a tuple.
    NotAPattern,
    /// The argument is not a match specification.
    NotASpecification,
    /// The argument is not an update, or it updates the key.
    NotAnUpdate,
    /// The object has no integer at a position of the update: another element, or none.
    NotACounter,
    /// The argument is not an atom; for `info`, it is not an identifier of a table either.
    NotAnAtom,
    /// A named table has this name.
    NameIsTaken,
    /// The argument is not a list of options of the call.
    NotOptions,
    /// The argument is not an item of `info`.
    NotAnItem,
    /// The argument is neither `true` nor `false`.
    NotABoolean,
    /// The argument is not a pid.
    NotAPid,
    /// The process that would get the table is the caller, which owns it.
    ToSelf,
    /// The process that would get the table was never spawned, or has exited.
    NotAlive,
    /// As many processes were spawned as the limit allows.
    TooManyProcesses,
    /// As many tables were made as the limit allows.
    TooManyTables,
    /// The table would have more objects than the limit allows.
    TooManyObjects,
    /// The process has fixed the table as often as the limit allows.
    TooManyFixes,
    /// The update would exceed the range of integers, the depth of an object or the number of objects.
    LimitExceeded,
}

/// The reason why a step is refused.
#[derive(Clone, Copy, Debug, PartialEq, Eq)]
pub struct Reason {
    /// The first broken rule.
    pub rule: Rule,
    /// The argument that the rule is about, counted from 1; `None` if the rule is about the step or the whole call.
    pub argument: Option<usize>,
}

impl Reason {
    /// Returns a reason about the step or the whole call, and not about one argument.
    pub(crate) fn about_whole_call(rule: Rule) -> Reason
        ensures { result ≡ about_whole_call rule }
    {
        Reason {
            rule,
            argument: None,
        }
    }

    /// Returns the reason that an argument breaks a rule.
    pub(crate) fn argument(number: usize, rule: Rule) -> Reason
        ensures { result ≡ argument number rule }
    {
        Reason {
            rule,
            argument: Some(number),
        }
    }
}
