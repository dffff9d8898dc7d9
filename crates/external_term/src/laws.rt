//! The law that relates the reader to the writer: the contract of a function with an empty body.
ghost use Rattle.std.specs.Prelude.{ℕ, List};
ghost use Rattle.ets_term.specs.declared.term.Term.{Term};
ghost use Rattle.external_term.specs.RoundTrip.{ReadsBack};

/// The bytes that are written for a term are read as this term, to their last byte, whatever follows. The term must
/// have at most 128 levels.
pub fn written_terms_read_as_themselves()
    ensures { (t : Term) (rest : List ℕ) → ReadsBack t rest }
{}
