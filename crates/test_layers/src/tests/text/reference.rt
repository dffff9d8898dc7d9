//! A slow reader of terms, written from the grammar alone, with which the tests compare `term_text`: one loop, with a
//! stack of the open brackets. It reads the first term of a text, and prints the term as it reads. To *pass* a byte
//! means to move past it.
use std::alloc::Global;
use term_text::TextFault;

// Blanks, names, digits and quoted characters.
mod pieces;
// Printing of parts of terms.
mod printer;
// Terms other than tuples and lists in brackets.
mod singles;

/// The greatest depth of a term.
const MAX_LEVELS: usize = 128;

/// The greatest number of characters of an atom.
const MAX_CHARACTERS: usize = 255;

/// A reader, and its state after the bytes that it has read.
#[derive(Drop)]
struct Reader<'t> {
    /// What allocates `out`, `quoted` and `closing`.
    alloc: Global,
    /// The text that it reads.
    text: &'t [u8],
    /// The offset of the next byte.
    at: usize,
    /// The part of the term that is printed so far.
    out: String,
    /// The characters between the last quotes, or the bytes of the last binary.
    quoted: Vec<u8>,
    /// The closing bracket of each open bracket, that of the innermost last.
    closing: Vec<u8>,
    /// Whether a term must follow, unless a bracket closes.
    term_must_follow: bool,
    /// Whether only blanks have followed the last opening bracket.
    bracket_just_opened: bool,
}

impl<'t> Reader<'t> {
    /// Builds a reader at the start of a text.
    fn new(alloc: Global, text: &'t [u8]) -> Reader<'t> {
        Reader {
            alloc,
            text,
            at: 0,
            out: String::new(alloc),
            quoted: Vec::new(alloc),
            closing: Vec::new(alloc),
            term_must_follow: true,
            bracket_just_opened: false,
        }
    }

    /// Prints a byte of the text and passes it. The other parameters are the new state of the fields of these names.
    fn print_byte(
        &mut self,
        byte: u8,
        term_must_follow: bool,
        bracket_just_opened: bool,
    ) -> Result<(), TextFault> {
        self.out.push(byte as char)?;
        self.at = self.at.saturating_add(1);
        self.term_must_follow = term_must_follow;
        self.bracket_just_opened = bracket_just_opened;
        Ok(())
    }

    /// Returns whether a byte closes the last open bracket. No bracket may close after a comma.
    fn may_close(&self, byte: u8) -> bool {
        self.closing.last() == Some(&byte) && (self.bracket_just_opened || !self.term_must_follow)
    }

    /// Passes a closing bracket.
    fn close_bracket(&mut self, byte: u8) -> Result<(), TextFault> {
        self.closing.pop();
        // A term ends here, so none must follow, and no bracket was just opened.
        self.print_byte(byte, false, false)
    }

    /// Passes the comma that must follow a term within brackets.
    fn pass_comma(&mut self, byte: u8) -> Result<(), TextFault> {
        if byte != b',' {
            return Err(TextFault::Unexpected(self.at));
        }
        // A term must follow the comma, and no bracket was just opened.
        self.print_byte(byte, true, false)
    }

    /// Passes an opening bracket.
    fn open_bracket(&mut self, byte: u8) -> Result<(), TextFault> {
        self.closing.push(if byte == b'{' { b'}' } else { b']' })?;
        // A term must follow, unless the bracket that was just opened is closed.
        self.print_byte(byte, true, true)
    }

    /// Reads what a term begins with: an opening bracket, or a whole term other than a tuple or a list in brackets.
    fn begin_term(&mut self, byte: u8) -> Result<(), TextFault> {
        if self.closing.len() >= MAX_LEVELS {
            return Err(TextFault::TooDeep(self.at));
        }
        if byte == b'{' || byte == b'[' {
            return self.open_bracket(byte);
        }
        self.term_must_follow = false;
        self.bracket_just_opened = false;
        self.read_single_term(byte)
    }

    /// Reads what begins with the next byte, in the present state: a bracket, a comma or a term.
    fn read_byte(&mut self, byte: u8) -> Result<(), TextFault> {
        if self.may_close(byte) {
            self.close_bracket(byte)
        } else if !self.term_must_follow {
            self.pass_comma(byte)
        } else if matches!(byte, b'{' | b'[' | b'-' | b'\'' | b'"' | b'<' | b'#' | b'0'..=b'9' | b'a'..=b'z')
        {
            self.begin_term(byte)
        } else {
            Err(TextFault::Unexpected(self.at))
        }
    }

    /// Reads a term.
    fn read_term(&mut self) -> Result<(), TextFault> {
        for _ in 0..=self.text.len() {
            self.skip_blanks();
            let byte = self.next_byte()?;
            self.read_byte(byte)?;
            if !self.term_must_follow && self.closing.is_empty() {
                return Ok(());
            }
        }
        // This cannot happen: each round of the loop passes at least one byte, or returns.
        Err(TextFault::Memory)
    }
}

/// Reads the first term of a text by the rules. Returns the printed term, and how many bytes of the text it took.
pub fn read_by_rules(alloc: Global, text: &[u8]) -> Result<(String, usize), TextFault> {
    let mut reader = Reader::new(alloc, text);
    match reader.read_term() {
        Ok(()) => Ok((reader.out, reader.at)),
        Err(fault) => {
            drop(reader);
            Err(fault)
        }
    }
}
