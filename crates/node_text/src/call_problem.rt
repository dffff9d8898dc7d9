//! What is wrong with bytes that are not a call.
ghost use Rattle.std.specs.Prelude.{◌≡◌};
ghost use Rattle.node_text.specs.ExternalWords.{words_of};

/// What is wrong with bytes that are not a call.
#[derive(Clone, Copy, Debug, PartialEq, Eq)]
pub enum CallProblem {
    /// The bytes end inside a term.
    Truncated,
    /// The first byte is not the version, 131.
    BadVersion,
    /// A byte where a tag must be is not a supported tag. The format also has tags that are not supported, such as
    /// those of floats (70) and maps (116).
    UnsupportedTag,
    /// A term, or a character of a string, is at level 129.
    TooDeep,
    /// The tail of a list is not the empty list.
    ImproperList,
    /// An atom has more than 255 characters, or one that is not printable ASCII; or an atom is missing.
    BadAtom,
    /// An integer does not fit 128 bits.
    BadInteger,
    /// A pid or reference is not of the Erlang node `nonode@nohost`, or a part of it other than its number is not 0.
    ForeignIdentifier,
    /// A whole term that is not a tuple of an atom and a list.
    NotACall,
    /// More bytes after the term.
    TrailingBytes,
}

impl CallProblem {
    /// Returns in words what is wrong.
    pub fn text(self) -> &'static str
        ensures { result.now ≡ words_of self }
    {
        match self {
            CallProblem::Truncated => "the bytes end inside a term",
            CallProblem::BadVersion => "the first byte is not the version 131",
            CallProblem::UnsupportedTag => "unsupported tag",
            CallProblem::TooDeep => "more than 128 levels deep",
            CallProblem::ImproperList => "improper lists are not supported",
            CallProblem::BadAtom => "not an atom of at most 255 printable ASCII characters",
            CallProblem::BadInteger => "integer out of range",
            CallProblem::ForeignIdentifier => "a pid or reference of another node",
            CallProblem::NotACall =>
                "expected a tuple of the call's name and the list of its arguments",
            CallProblem::TrailingBytes => "unexpected bytes after the call",
        }
    }
}
