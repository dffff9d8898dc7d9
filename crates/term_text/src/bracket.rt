//! The brackets of lists and tuples.
ghost use Rattle.std.specs.Prelude.{◌≡◌};
ghost use Rattle.term_text.specs.Forms.{bracket};
ghost use Rattle.term_text.specs.Text.{closes};
ghost use Rattle.term_text.specs.inside.Parts.{is_square};

use ets_term::{Items, Term};

/// A kind of bracket around terms.
#[derive(Clone, Copy)]
pub(crate) enum Bracket {
    /// `[` and `]`, of a list.
    Square,
    /// `{` and `}`, of a tuple.
    Brace,
}

impl Bracket {
    /// Returns whether the byte closes the bracket.
    #[tactic(auto, unfolding(crate::specs::Text::closes))]
    pub(crate) fn is_closed_by(self, b: u8) -> bool
        ensures { result ≡ closes (is_square self) b }
    {
        match self {
            Bracket::Square => b == b']',
            Bracket::Brace => b == b'}',
        }
    }

    /// Returns the list or tuple with these elements.
    pub(crate) fn enclose(self, terms: Items<Term>) -> Term
        ensures { result ≡ bracket (record { square = is_square self; terms = terms }) }
    {
        match self {
            Bracket::Square => Term::List(terms),
            Bracket::Brace => Term::Tuple(terms),
        }
    }
}
