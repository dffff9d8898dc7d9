//! The text of each rule, and the text of a reason: the number of the argument, if any, and the text of the rule.
ghost use Rattle.std.specs.Prelude.{◌≡◌};
ghost use Rattle.node_reasons.specs.Words.{words_of};

use crate::reason::{Reason, Rule};
use std::fmt;

impl Rule {
    /// Returns the text of the broken rule.
    pub fn words(&self) -> &'static str
        ensures { result.now ≡ words_of self.now }
    {
        match self {
            Rule::NoProcess => "no such process (or it has exited)",
            Rule::AlreadyEnrolled => "process number already used",
            Rule::TooDeep => "more than 128 levels deep",
            Rule::NoCall => "unknown call",
            Rule::WrongArity => "wrong number of arguments",
            Rule::NoTable => "no such table",
            Rule::NotReadable => "the process may not read this table",
            Rule::NotWritable => "the process may not write to this table",
            Rule::NotOwner => "the process does not own this table",
            Rule::NotASet => "the table is not a set",
            Rule::NotAnObject =>
                "not a tuple that has the key position, or the key is '$end_of_table'",
            Rule::NoKey => "no such key",
            Rule::NotAPosition => "position must be at least 1",
            Rule::NoElement => "position is past the end of the object",
            Rule::NotAPattern => "pattern must be a tuple or an atom",
            Rule::NotASpecification => "malformed match specification",
            Rule::NotAnUpdate => "malformed update, or it would change the key",
            Rule::NotACounter => "the element is missing or not an integer",
            Rule::NotAnAtom => "table name must be an atom",
            Rule::NameIsTaken => "table name already in use",
            Rule::NotOptions => "unknown or malformed option",
            Rule::NotAnItem => "unknown info item",
            Rule::NotABoolean => "must be true or false",
            Rule::NotAPid => "not a pid",
            Rule::ToSelf => "the process already owns the table",
            Rule::NotAlive => "no such process (or it has exited)",
            Rule::TooManyProcesses => "process limit reached",
            Rule::TooManyTables => "table limit reached",
            Rule::TooManyObjects => "object limit reached",
            Rule::TooManyFixes => "fix limit reached",
            Rule::LimitExceeded => "integer range, depth limit or object limit would be exceeded",
        }
    }
}

/// Writes, for example, `argument 1: no such table`, or only the rule's text if the rule is about the whole step.
impl fmt::Display for Reason {
    ghost use Rattle.std.specs.Prelude.{Some};
    ghost use Rattle.node_reasons.specs.Words.{reason_text};

    ghost output = { λ reason. Some (reason_text reason) };

    fn fmt<W: fmt::Write>(&self, f: &mut fmt::Formatter<W>) -> fmt::Result {
        match self.argument {
            Some(argument) => write!(f, "argument {argument}: {}", self.rule.words()),
            None => write!(f, "{}", self.rule.words()),
        }
    }
}
