//! How the plain reader reads and prints terms other than tuples and lists in brackets.
use super::printer::{put_atom, put_number, put_numbers};
use super::{MAX_CHARACTERS, MAX_LEVELS, Reader};
use term_text::TextFault;

/// The greatest integer, 2^127 - 1. The least is one further from 0.
const MAX_INTEGER: u128 = 170_141_183_460_469_231_731_687_303_715_884_105_727;

/// The greatest number of a pid and of an identifier, 2^32 - 1.
const MAX_U32: u128 = 4_294_967_295;

/// The greatest byte of a binary.
const MAX_BYTE: u128 = 255;

impl Reader<'_> {
    /// Reads a term with this first byte.
    pub(super) fn read_single_term(&mut self, byte: u8) -> Result<(), TextFault> {
        match byte {
            b'-' => self.read_negative(),
            b'0'..=b'9' => self.read_number(self.at, MAX_INTEGER),
            b'\'' => self.read_quoted_atom(),
            b'"' => self.read_string(),
            b'#' => self.read_identifier(),
            b'<' => self.read_pid_or_binary(),
            _ => self.read_plain_atom(),
        }
    }

    /// Prints a text.
    fn put_text(&mut self, text: &str) -> Result<(), TextFault> {
        Ok(self.out.push_str(text)?)
    }

    /// Prints a number.
    fn put_number(&mut self, n: u128) -> Result<(), TextFault> {
        Ok(put_number(self.alloc, &mut self.out, n)?)
    }

    /// Prints the bytes in `quoted` as numbers with commas between them.
    fn put_quoted_numbers(&mut self) -> Result<(), TextFault> {
        Ok(put_numbers(self.alloc, &mut self.out, self.quoted.as_slice())?)
    }

    /// Prints the characters in `quoted` as an atom.
    fn put_quoted_atom(&mut self) -> Result<(), TextFault> {
        Ok(put_atom(&mut self.out, self.quoted.as_slice())?)
    }

    /// Reads the digits of a number, and prints the number. If it is greater than `limit`, fails with the offset
    /// `start`.
    fn read_number(&mut self, start: usize, limit: u128) -> Result<(), TextFault> {
        let n = self.read_digits(start, limit)?;
        self.put_number(n)
    }

    /// Reads a minus and digits, and prints the number. The minus of 0 is not printed.
    fn read_negative(&mut self) -> Result<(), TextFault> {
        let start = self.at;
        self.at = self.at.saturating_add(1);
        let n = self.read_digits(start, MAX_INTEGER + 1)?;
        self.put_text(if n == 0 { "" } else { "-" })?;
        self.put_number(n)
    }

    /// Reads an atom in quotes, and prints it.
    fn read_quoted_atom(&mut self) -> Result<(), TextFault> {
        self.read_quoted(b'\'', MAX_CHARACTERS, TextFault::AtomTooLong(self.at))?;
        self.put_quoted_atom()
    }

    /// Reads a string, and prints it as a list of bytes. The bytes are one level deeper than the list, so at the
    /// greatest depth only the empty string is a term.
    fn read_string(&mut self) -> Result<(), TextFault> {
        let max_bytes = if self.closing.len() < MAX_LEVELS - 1 {
            self.text.len()
        } else {
            0
        };
        let fault = TextFault::TooDeep(self.at.saturating_add(1));
        self.read_quoted(b'"', max_bytes, fault)?;
        self.put_text("[")?;
        self.put_quoted_numbers()?;
        self.put_text("]")
    }

    /// Reads and prints a number of 32 bits between two texts.
    fn read_number_between(&mut self, before: &str, after: &str) -> Result<(), TextFault> {
        self.pass_bytes(before.as_bytes())?;
        self.put_text(before)?;
        self.read_number(self.at, MAX_U32)?;
        self.pass_bytes(after.as_bytes())?;
        self.put_text(after)
    }

    /// Reads and prints the identifier of a table.
    fn read_identifier(&mut self) -> Result<(), TextFault> {
        self.read_number_between("#Tid<", ">")
    }

    /// Reads what begins with `<`: a binary if `<` follows, else a pid.
    fn read_pid_or_binary(&mut self) -> Result<(), TextFault> {
        match self.text.get(self.at.saturating_add(1)) {
            Some(b'<') => self.read_binary(),
            _ => self.read_number_between("<0.", ".0>"),
        }
    }

    /// Passes the next byte and the blanks after it if the byte is a comma. Returns whether it is.
    fn passes_comma(&mut self) -> Result<bool, TextFault> {
        let is_comma = self.next_byte()? == b',';
        if is_comma {
            self.at = self.at.saturating_add(1);
            self.skip_blanks();
        }
        Ok(is_comma)
    }

    /// Reads a byte into `quoted`. Returns whether a comma follows.
    fn read_byte_of_binary(&mut self) -> Result<bool, TextFault> {
        let n = self.read_digits(self.at, MAX_BYTE)?;
        // `min` changes nothing, because `read_digits` refuses a greater number.
        self.quoted.push(n.min(MAX_BYTE) as u8)?;
        self.skip_blanks();
        self.passes_comma()
    }

    /// Reads bytes with commas between them into `quoted`. A text has fewer numbers than bytes, which bounds the loop.
    fn read_bytes(&mut self) -> Result<(), TextFault> {
        for _ in 0..self.text.len() {
            if !self.read_byte_of_binary()? {
                return Ok(());
            }
        }
        Ok(())
    }

    /// Reads what is between `<<` and `>>` into `quoted`.
    fn read_binary_parts(&mut self) -> Result<(), TextFault> {
        self.quoted.clear();
        self.skip_blanks();
        match self.next_byte()? {
            b'>' => Ok(()),
            // The fault cannot happen: a string in the text is shorter than the text.
            b'"' => self.read_quoted(b'"', self.text.len(), TextFault::Memory),
            _ => self.read_bytes(),
        }
    }

    /// Reads a binary, and prints it as bytes.
    fn read_binary(&mut self) -> Result<(), TextFault> {
        self.at = self.at.saturating_add(2);
        self.read_binary_parts()?;
        self.skip_blanks();
        self.pass_bytes(b">>")?;
        self.put_text("<<")?;
        self.put_quoted_numbers()?;
        self.put_text(">>")
    }

    /// Reads an atom without quotes, and prints it.
    fn read_plain_atom(&mut self) -> Result<(), TextFault> {
        let from = self.skip_name();
        if self.at.saturating_sub(from) > MAX_CHARACTERS {
            return Err(TextFault::AtomTooLong(from));
        }
        match self.text.get(from..self.at) {
            Some(name) => Ok(put_atom(&mut self.out, name)?),
            // This cannot happen: `from` and `at` are offsets of the text, in this order.
            None => Err(TextFault::Memory),
        }
    }
}
