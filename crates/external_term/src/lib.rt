//! Reads a term from Erlang's External Term Format or reports the first fault, and writes terms in this format into
//! memory or a writer.
//!
//! *Guarantee.* `read_external` returns the result that `specs/Reader.antt` defines for the bytes: a term with the
//! number of its bytes, or a fault with its offset. It returns `Memory` if memory runs out. If `read_pair` returns two
//! terms, `read_external` reads the tuple of them, and the number of bytes is the same. `write_external` appends the
//! bytes that `specs/Encoding.antt` defines, or changes nothing. `write_external_to` writes the same bytes into a
//! writer. If the writer fails, it has taken a prefix of them; if the term is too large, or memory runs out, it has
//! taken none. If a term has at most 128 levels, `read_external` reads the bytes that were written as this term again,
//! whatever follows.
//!
//! *Weakness.* No proof shows that the definitions in `specs/` are those of Erlang: they follow the chapter External
//! Term Format of the ERTS User's Guide. No contract says when memory is available, or when `read_pair` returns `None`.
//!
//! *Mechanism.* The reader is a recursive descent in one pass, which counts how many more levels it may open. It
//! compares each number of items with the number of remaining bytes before it takes memory. Both writing functions
//! count the bytes first. `write_external` takes memory for all of them at once. `write_external_to` takes a block of
//! 320 bytes, builds one form after another in it, and passes each to the writer. The bytes of a binary are passed to
//! the writer without a copy.
//!
//! *Limits.* The reader takes no floats, maps, funs, bit strings, ports or improper lists, no compressed terms, no
//! atoms that are not printable ASCII, no integers beyond 128 bits, and no terms deeper than 128 levels. A pid or table
//! identifier is of the node `nonode@nohost`: its number is the id or the first word, and all other parts are 0. Both
//! writing functions refuse a term of more than `MAX_BYTES`, and their recursion is as deep as the term. A writer gets
//! many small pieces: if each call of it is slow, it needs a buffer.
#![tactic(auto)]

// The modules of the reader: `reading`, each `tag`, a `field`, an `integer`, an atom or string (`text`), a pid or
// reference (`identifier`), and faults (`fault`). Of the writer into memory: `writing`, `append` and `put`; into a
// writer: `sending` and `send`. Of both: `sizes`, bytes as elements (`small`), and `laws`.
mod append;
mod fault;
mod field;
mod identifier;
mod integer;
mod laws;
mod put;
mod reading;
mod send;
mod sending;
mod sizes;
mod small;
mod tag;
mod text;
mod writing;

pub use fault::{ExternalFault, ExternalSendFault, ExternalWriteFault};
pub use laws::written_terms_read_as_themselves;
pub use reading::{read_external, read_pair};
pub use sending::write_external_to;
pub use writing::{MAX_BYTES, external_size, write_external};
