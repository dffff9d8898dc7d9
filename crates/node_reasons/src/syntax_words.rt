//! The text of each syntax problem. A problem is a guess at what the author meant.
ghost use Rattle.std.specs.Prelude.{◌≡◌};
ghost use Rattle.node_reasons.specs.SyntaxWords.{words_of};

use crate::syntax_problem::SyntaxProblem;
use std::fmt;

impl SyntaxProblem {
    /// Returns the text of what is wrong, without the byte that some texts name.
    pub fn words(&self) -> &'static str
        ensures { result.now ≡ words_of self.now }
    {
        match self {
            SyntaxProblem::EndOfLine => "unexpected end of line",
            SyntaxProblem::EndOfLineInCall => "unexpected end of line inside a call",
            SyntaxProblem::EndOfLineInTerm => "unexpected end of line inside a term",
            SyntaxProblem::NotPrintable(_) => "not a printable ASCII character",
            SyntaxProblem::FullStop => "unexpected '.'",
            SyntaxProblem::Comment => "comments must be on their own line",
            SyntaxProblem::TrailingText => "unexpected text after the call",
            SyntaxProblem::Variable => "variables are not supported",
            SyntaxProblem::Float => "floats are not supported",
            SyntaxProblem::Map => "maps are not supported",
            SyntaxProblem::UnsupportedReference =>
                "references other than #Tid<N> are not supported",
            SyntaxProblem::Character => "character literals are not supported",
            SyntaxProblem::BasedInteger => "integers with a base are not supported",
            SyntaxProblem::ImproperList => "improper lists are not supported",
            SyntaxProblem::Colon => "unexpected ':' (calls have no module)",
            SyntaxProblem::PlusSign => "unexpected '+'",
            // The end of a sentence: `fmt` writes `only`, the quote and the backslash before it.
            SyntaxProblem::Escape(_) => "can be escaped",
            SyntaxProblem::IntegerOutOfRange => "integer out of range",
            SyntaxProblem::LongName => "atom longer than 255 characters",
            SyntaxProblem::TooDeep => "more than 128 levels deep",
            SyntaxProblem::NotACall => "expected a tuple that begins with the call's name",
            SyntaxProblem::Other(_) => "unexpected",
        }
    }
}

/// Writes what is wrong, such as `unexpected '.'`. Three problems have their byte in the text, as
/// `not a printable ASCII character (195)`, `only \' and \\ can be escaped` and `unexpected ';'`.
impl fmt::Display for SyntaxProblem {
    ghost use Rattle.std.specs.Prelude.{Some};
    ghost use Rattle.node_reasons.specs.SyntaxWords.{problem_text};

    ghost output = { λ problem. Some (problem_text problem) };

    fn fmt<W: fmt::Write>(&self, f: &mut fmt::Formatter<W>) -> fmt::Result {
        match self {
            SyntaxProblem::NotPrintable(byte) => write!(f, "{} ({byte})", self.words()),
            SyntaxProblem::Escape(quote) => {
                write!(f, "only \\{} and \\\\ {}", *quote as char, self.words())
            }
            SyntaxProblem::Other(byte) => write!(f, "{} '{}'", self.words(), *byte as char),
            _ => write!(f, "{}", self.words()),
        }
    }
}
