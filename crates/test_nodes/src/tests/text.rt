//! A reader of texts as terms, as the store prints them: `{a,-1}`, `['$1',[]]`, `#Tid<7>`, `<0.7.0>`.
// The text `deep(7)` is the empty list within six lists, seven levels deep. Most texts that are not a term are a fault
// of their test, reported as out of memory. The reader does not check that brackets are closed, nor that an opening and
// a closing bracket are of one kind.
use crate::tests::keep_if_ok;
use ets_term::{Atom, Integer, Items, Term};
use std::alloc::{AllocError, Global};
use std::mem;

/// What is read of a text so far.
#[derive(Drop)]
struct Reader {
    alloc: Global,
    /// For each open bracket, the terms before it that are in the same tuple or list.
    open: Vec<Items<Term>>,
    /// The terms read so far in the innermost open bracket, or in the whole text if none is open.
    terms: Items<Term>,
    /// The letters of the word in progress.
    word: String,
}

impl Reader {
    /// Reads a whole text.
    fn read_text(&mut self, text: &str) -> Result<(), AllocError> {
        for letter in text.chars() {
            self.read_letter(letter)?;
        }
        self.end_word()
    }

    /// Reads a letter: a bracket, a separator, or a part of a word, such as an atom or an integer.
    fn read_letter(&mut self, letter: char) -> Result<(), AllocError> {
        match letter {
            '{' | '[' => self.open_bracket(),
            // `true` makes a tuple, `false` a list.
            '}' => self.close_bracket(true),
            ']' => self.close_bracket(false),
            ',' | ' ' => self.end_word(),
            _ => Ok(self.word.push(letter)?),
        }
    }

    /// Sets the terms read so far aside until the bracket is closed.
    fn open_bracket(&mut self) -> Result<(), AllocError> {
        self.end_word()?;
        // First, so that `push_reserved` cannot run out of memory.
        self.open.reserve(1)?;
        let before = mem::replace(&mut self.terms, Items::new(self.alloc));
        self.open.push_reserved(before);
        Ok(())
    }

    /// Puts the terms since the open bracket into a tuple or a list, and appends it to the terms before the bracket.
    fn close_bracket(&mut self, is_tuple: bool) -> Result<(), AllocError> {
        self.end_word()?;
        let Some(before) = self.open.pop() else {
            // No bracket is open.
            return Err(AllocError);
        };
        let terms = mem::replace(&mut self.terms, before);
        let term = if is_tuple {
            Term::Tuple(terms)
        } else {
            Term::List(terms)
        };
        self.terms.push(term)
    }

    /// Appends the term of the word in progress, if there is one.
    fn end_word(&mut self) -> Result<(), AllocError> {
        if self.word.is_empty() {
            return Ok(());
        }
        let term = term_of_word(self.alloc, self.word.as_str())?;
        self.word.clear();
        self.terms.push(term)
    }
}

/// Returns the terms that a text spells, between commas or spaces.
pub fn terms(alloc: Global, text: &str) -> Result<Vec<Term>, AllocError> {
    let mut reader = Reader {
        alloc,
        open: Vec::new(alloc),
        terms: Items::new(alloc),
        word: String::new(alloc),
    };
    match reader.read_text(text) {
        Ok(()) => Ok(reader.terms.into_vec()),
        Err(error) => {
            drop(reader);
            Err(error)
        }
    }
}

/// Returns the term that a text spells: the last term, if there are several.
pub fn term(alloc: Global, text: &str) -> Result<Term, AllocError> {
    let mut terms = terms(alloc, text)?;
    let last_term = terms.pop();
    drop(terms);
    last_term.ok_or(AllocError)
}

/// Returns whether a text spells this term.
pub fn is_spelled(alloc: Global, value: &Term, text: &str) -> Result<bool, AllocError> {
    let expected = term(alloc, text)?;
    let same = *value == expected;
    drop(expected);
    Ok(same)
}

/// Returns the term that a word spells: an integer, an identifier, a pid, a deep list or an atom.
fn term_of_word(alloc: Global, word: &str) -> Result<Term, AllocError> {
    if let Ok(n) = word.parse::<Integer>() {
        return Ok(Term::Int(n));
    }
    if let Some(n) = number_between(word, "#Tid<", ">") {
        return Ok(Term::Tid(n));
    }
    if let Some(n) = number_between(word, "<0.", ".0>") {
        return Ok(Term::Pid(n));
    }
    if let Some(depth) = number_between(word, "deep(", ")") {
        return nested_list(alloc, depth);
    }
    match text_between(word, "'", "'") {
        Some(quoted) => atom(alloc, quoted),
        None => atom(alloc, word),
    }
}

/// Returns the atom with this text.
fn atom(alloc: Global, word: &str) -> Result<Term, AllocError> {
    match Atom::new(alloc, word) {
        Ok(atom) => Ok(Term::Atom(atom)),
        Err(_) => Err(AllocError),
    }
}

/// Returns the part of a word between this start and this end, or `None` if the word lacks one of them.
fn text_between<'a>(word: &'a str, start: &str, end: &str) -> Option<&'a str> {
    word.strip_prefix(start)?.strip_suffix(end)
}

/// Returns the number between this start and this end of a word. `None` means that the word lacks one of them, or that
/// there is no number between them.
fn number_between(word: &str, start: &str, end: &str) -> Option<u32> {
    text_between(word, start, end)?.parse::<u32>().ok()
}

/// Returns the empty list within lists, a term of this depth. The empty list alone has the depth 1.
fn nested_list(alloc: Global, depth: u32) -> Result<Term, AllocError> {
    let mut term = Term::List(Items::new(alloc));
    for _ in 1..depth {
        term = list_of_one(alloc, term)?;
    }
    Ok(term)
}

/// Returns a list of one term.
fn list_of_one(alloc: Global, term: Term) -> Result<Term, AllocError> {
    let mut items = Items::new(alloc);
    Ok(Term::List(keep_if_ok(items.push(term), items)?))
}
