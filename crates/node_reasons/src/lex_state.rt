//! The lexical state of a line at an offset: which quotes and brackets are open there.
ghost use Rattle.std.specs.Prelude.{◌≡◌, ◌+◌, ◌^◌, ◌<◌};
ghost use Rattle.node_reasons.specs.LexStates as spec;
ghost use Rattle.node_reasons.specs.inside.Advance.{advance};

/// Whether a text ends inside quotes, and in which.
#[derive(Clone, Copy)]
pub enum QuoteState {
    /// Not inside quotes.
    Outside,
    /// Inside quotes, which this byte closes: a single or a double quote.
    Inside(u8),
    /// Inside quotes, which this byte closes, directly after a backslash.
    Escaped(u8),
}

impl QuoteState {
    /// Checks whether the text ends inside quotes.
    pub fn is_quoted(self) -> bool
        ensures { result ≡ spec.is_quoted self }
    {
        match self {
            QuoteState::Outside => false,
            QuoteState::Inside(_) | QuoteState::Escaped(_) => true,
        }
    }

    /// Returns the state after one more byte. Inside quotes, the byte after a backslash closes nothing.
    fn next_state(self, byte: u8) -> QuoteState
        ensures { result ≡ spec.next_quote_state self byte }
    {
        match self {
            QuoteState::Outside if byte == b'\'' || byte == b'"' => QuoteState::Inside(byte),
            QuoteState::Outside => QuoteState::Outside,
            QuoteState::Inside(quote) if byte == quote => QuoteState::Outside,
            QuoteState::Inside(quote) if byte == b'\\' => QuoteState::Escaped(quote),
            QuoteState::Inside(quote) => QuoteState::Inside(quote),
            QuoteState::Escaped(quote) => QuoteState::Inside(quote),
        }
    }
}

/// The lexical state of a line at an offset.
#[derive(Clone, Copy)]
pub struct LexState {
    /// Whether the offset is inside quotes, and in which.
    pub quotes: QuoteState,
    /// The number of open brackets of lists and tuples.
    pub levels: usize,
    /// Whether `(` was read outside quotes, as before the call's arguments.
    pub has_opened: bool,
    /// Whether `)` was read outside quotes, as after the call's arguments.
    pub has_closed: bool,
}

impl LexState {
    /// Returns the state at the end of a text, whose start is outside quotes and brackets.
    pub fn of_text(text: &[u8]) -> LexState
        ensures { result ≡ spec.lex_state_of text.now }
    {
        let mut state = LexState {
            quotes: QuoteState::Outside,
            levels: 0,
            has_opened: false,
            has_closed: false,
        };
        for byte in text {
            state.advance(*byte);
        }
        state
    }

    /// Updates the state by the next byte.
    fn advance(&mut self, byte: u8)
        requires { self.old.levels + 1 < 2 ^ 64 }
        ensures { self.new ≡ advance self.old byte }
    {
        if !self.quotes.is_quoted() {
            self.levels = next_levels(self.levels, byte);
            self.has_opened |= byte == b'(';
            self.has_closed |= byte == b')';
        }
        self.quotes = self.quotes.next_state(byte);
    }
}

/// Returns the number of open brackets after one more byte, which is outside quotes. The kind of bracket is not
/// compared.
fn next_levels(levels: usize, byte: u8) -> usize
    requires { levels + 1 < 2 ^ 64 }
    ensures { result ≡ spec.next_levels levels byte }
{
    match byte {
        b'[' | b'{' => levels + 1,
        b']' | b'}' => levels.saturating_sub(1),
        _ => levels,
    }
}
