//! Why the parsing of a line stops.

/// Why the parsing of a line stops.
#[derive(Debug, Drop)]
pub enum ParseStop<'a> {
    /// At a syntax error: the text from there on.
    Fault(&'a [u8]),
    /// Out of memory.
    Memory,
}
