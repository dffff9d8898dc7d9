//! Reads a term from its text or reports the first syntax error, and prints each term in one form.
//!
//! *Guarantee.* `read_term` returns a term and a number of bytes only if these bytes are blanks and a spelling of the
//! term. Otherwise it returns the fault of the first byte with which no text of a term can continue, or of the end of
//! the text. `print_term`, `append_term` and `write_term` print one text per term: into a string, into bytes, or into a
//! writer. If the term has at most 128 levels, `read_term` reads this text as the term again.
//!
//! *Weakness.* Every function that allocates may run out of memory: no contract says when memory is available. No
//! contract says when `write_term` fails, only that a prefix of the text is then written.
//!
//! *Mechanism.* The code is a recursive descent in one pass, without backtracking, which counts how many more levels it
//! may open. Digits, names and blanks are read in loops. The proofs go through a second definition: an automaton that
//! takes one byte after another and has a fault where no next state exists. Laws relate the automaton to the grammar.
//!
//! *Limits.* `read_term` reads at most 128 levels, so its stack is bounded. The printer also prints deeper terms, by a
//! recursion as deep as the term. An atom has at most 255 characters, an integer 128 bits.
#![tactic(auto)]

// The modules of the reader: `reading`, classes of `bytes`, a `bracket`, a `number`, an `integer`, an atom without
// quotes (`name`), a text in quotes (`quoted`, `quote_form`), a `binary`, and faults (`fault`). Of the printer: the
// public functions (`print`), the text of a term (`printer`), and where it is printed (`sink`). Of both: `laws`.
mod binary;
mod bracket;
mod bytes;
mod fault;
mod integer;
mod laws;
mod name;
mod number;
mod print;
mod printer;
mod quote_form;
mod quoted;
mod reading;
mod sink;

pub use bytes::{is_character_byte, is_digit_byte, is_lowercase_byte, is_name_byte};
pub use fault::TextFault;
pub use laws::{
    faults_are_noticed_first, faults_say_why, printed_term_reads_back, reader_finds_spelled_terms,
};
pub use number::{Magnitude, digits_at};
pub use print::{append_term, print_term, write_term};
pub use reading::{read_term, read_term_bytes};
pub use sink::{WriteFault, write_bytes};
