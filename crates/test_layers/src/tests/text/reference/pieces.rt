//! How the plain reader reads parts of a term: blanks, names, digits and quoted characters.
use super::Reader;
use term_text::TextFault;

/// Returns whether a byte may be in an atom without quotes, after its first.
pub(super) fn is_name_byte(byte: u8) -> bool {
    matches!(byte, b'a'..=b'z' | b'A'..=b'Z' | b'0'..=b'9' | b'_' | b'@')
}

/// Returns the offset of the first byte at or after `from` that is not a blank, a tab or an end of a line.
fn end_of_blanks(text: &[u8], from: usize) -> usize {
    for at in from..text.len() {
        if !matches!(text.get(at), Some(b' ' | b'\t' | b'\n' | b'\r')) {
            return at;
        }
    }
    text.len()
}

/// Returns the offset of the first byte at or after `from` that may not be in an atom without quotes.
fn end_of_name(text: &[u8], from: usize) -> usize {
    for at in from..text.len() {
        if !matches!(text.get(at), Some(b) if is_name_byte(*b)) {
            return at;
        }
    }
    text.len()
}

/// Returns the offset of the first byte at or after `from` that is not a digit.
fn end_of_digits(text: &[u8], from: usize) -> usize {
    for at in from..text.len() {
        if !matches!(text.get(at), Some(b'0'..=b'9')) {
            return at;
        }
    }
    text.len()
}

/// Returns the number that these decimal digits spell, or the greatest number of 128 bits if that is smaller.
fn number_of(digits: &[u8]) -> u128 {
    let mut n: u128 = 0;
    for digit in digits {
        n = n
            .saturating_mul(10)
            .saturating_add(u128::from(digit.wrapping_sub(b'0')));
    }
    n
}

impl Reader<'_> {
    /// Returns the next byte, without passing it. At the end of the text it is a syntax error.
    pub(super) fn next_byte(&self) -> Result<u8, TextFault> {
        match self.text.get(self.at) {
            Some(b) => Ok(*b),
            None => Err(TextFault::Unclosed(self.text.len())),
        }
    }

    /// Passes blanks, tabs and ends of lines.
    pub(super) fn skip_blanks(&mut self) {
        self.at = end_of_blanks(self.text, self.at);
    }

    /// Passes the bytes of an atom without quotes. Returns the offset of the first.
    pub(super) fn skip_name(&mut self) -> usize {
        let from = self.at;
        self.at = end_of_name(self.text, from);
        from
    }

    /// Reads one digit or more, and returns their number. If it is greater than `limit`, fails with the offset `start`,
    /// where the number begins: at its minus or its first digit.
    pub(super) fn read_digits(&mut self, start: usize, limit: u128) -> Result<u128, TextFault> {
        // At the end of the text this is the error `Unclosed`.
        let _first = self.next_byte()?;
        let from = self.at;
        self.at = end_of_digits(self.text, from);
        let n = number_of(self.text.get(from..self.at).unwrap_or(&[]));
        if self.at == from {
            Err(TextFault::Unexpected(from))
        } else if n > limit {
            Err(TextFault::OutOfRange(start))
        } else {
            Ok(n)
        }
    }

    /// Passes the next byte, which must be `wanted`.
    fn pass_byte(&mut self, wanted: u8) -> Result<(), TextFault> {
        if self.next_byte()? != wanted {
            return Err(TextFault::Unexpected(self.at));
        }
        self.at = self.at.saturating_add(1);
        Ok(())
    }

    /// Passes the next bytes, which must be `wanted`.
    pub(super) fn pass_bytes(&mut self, wanted: &[u8]) -> Result<(), TextFault> {
        for byte in wanted {
            self.pass_byte(*byte)?;
        }
        Ok(())
    }

    /// Pushes a character between quotes, or fails with `fault` if `max_bytes` were pushed. Returns whether it is the
    /// backslash of an escape, which is not pushed.
    fn push_character(
        &mut self,
        b: u8,
        max_bytes: usize,
        fault: TextFault,
    ) -> Result<bool, TextFault> {
        if !matches!(b, b' '..=b'~') {
            return Err(TextFault::Unexpected(self.at));
        }
        if self.quoted.len() >= max_bytes {
            return Err(fault);
        }
        if b != b'\\' {
            self.quoted.push(b)?;
        }
        Ok(b == b'\\')
    }

    /// Pushes the character after a backslash: the quote or a backslash.
    fn push_escaped(&mut self, b: u8, quote: u8) -> Result<(), TextFault> {
        if b != quote && b != b'\\' {
            return Err(TextFault::Unexpected(self.at));
        }
        Ok(self.quoted.push(b)?)
    }

    /// Reads the next character between quotes. Returns whether it is the backslash of an escape, or None for the
    /// closing quote.
    fn read_character(
        &mut self,
        is_escaped: bool,
        quote: u8,
        max_bytes: usize,
        fault: TextFault,
    ) -> Result<Option<bool>, TextFault> {
        let b = self.next_byte()?;
        if is_escaped {
            self.push_escaped(b, quote)?;
            Ok(Some(false))
        } else if b == quote {
            Ok(None)
        } else {
            Ok(Some(self.push_character(b, max_bytes, fault)?))
        }
    }

    /// Reads the characters from a quote up to the closing quote into `quoted`, or fails with `fault` if there are more
    /// than `max_bytes`.
    pub(super) fn read_quoted(
        &mut self,
        quote: u8,
        max_bytes: usize,
        fault: TextFault,
    ) -> Result<(), TextFault> {
        self.quoted.clear();
        let mut is_escaped = false;
        for _ in self.at..self.text.len() {
            // Passes the opening quote, or the character that the previous round has read.
            self.at = self.at.saturating_add(1);
            let Some(begins_escape) = self.read_character(is_escaped, quote, max_bytes, fault)?
            else {
                self.at = self.at.saturating_add(1);
                return Ok(());
            };
            is_escaped = begins_escape;
        }
        Err(TextFault::Unclosed(self.text.len()))
    }
}
