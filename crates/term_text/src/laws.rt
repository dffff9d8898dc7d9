//! The laws that relate the reader to the grammar and to the table of faults. Each law is the contract of a function
//! with an empty body.
ghost use Rattle.std.specs.Prelude.{◌≡◌, ◌++◌, ℕ, List};
ghost use Rattle.term_text.specs.Faults.{IsFault};
ghost use Rattle.term_text.specs.Prefixes.{CanReachTerm, HasNoFault, so_far};
ghost use Rattle.term_text.specs.inside.Reader.{fails, found, reading};
ghost use Rattle.term_text.specs.Grammar.{Front};
ghost use Rattle.term_text.specs.RoundTrip.{ReadsBack};
ghost use Rattle.ets_term.specs.declared.term.Term.{Term};
ghost use Rattle.term_text.specs.declared.fault.TextFault.{TextFault};

/// The reader notices a fault at the earliest byte. The text before this byte can be completed to a term, and no text
/// that also contains this byte can.
pub fn faults_are_noticed_first()
    ensures before { (bs : List ℕ) → HasNoFault (so_far bs) → CanReachTerm bs }
    ensures from { (bs : List ℕ) (f : TextFault) (more : List ℕ) → so_far bs ≡ fails f
        → reading (bs ++ more) ≡ fails f }
{}

/// The reader finds a term if and only if the text begins with blanks and a spelling of it. The term has at most 128
/// levels.
pub fn reader_finds_spelled_terms()
    ensures spelled { (text : List ℕ) (t : Term) (n : ℕ) → reading text ≡ found t n → Front text t n }
    ensures found { (text : List ℕ) (t : Term) (n : ℕ) → Front text t n → reading text ≡ found t n }
{}

/// If a term has at most 128 levels, its printed text is read as the same term, to the last byte. The text after it
/// must not continue its last integer or unquoted atom.
pub fn printed_term_reads_back()
    ensures same { (t : Term) (rest : List ℕ) → ReadsBack t rest }
{}

/// The reader returns a fault if and only if the fault's row in the table of faults holds for the text. Either the text
/// ends before a term is complete, or the fault is that of the first byte with which no text of a term can continue.
pub fn faults_say_why()
    ensures noticed { (text : List ℕ) (f : TextFault) → reading text ≡ fails f → IsFault text f }
    ensures reported { (text : List ℕ) (f : TextFault) → IsFault text f → reading text ≡ fails f }
{}
