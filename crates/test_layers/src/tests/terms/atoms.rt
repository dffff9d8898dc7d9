//! The limits of atoms: how many characters an atom may have, and which.
use crate::tests::text::past_limits::repeat_text;
use ets_term::{Atom, AtomFault};
use std::alloc::Global;
use std::process::Abort;

/// Returns whether a copy of an atom has this text.
fn copy_has_text(alloc: Global, atom: &Atom, text: &str) -> Option<bool> {
    let copy = atom.try_clone(alloc).ok()?;
    let same = copy.text() == text;
    drop(copy);
    Some(same)
}

/// Returns whether the atom of a text and a copy of the atom have this text.
fn atom_and_copy_keep_text(alloc: Global, text: &str) -> Option<bool> {
    let atom = Atom::new(alloc, text).ok()?;
    let atom_keeps_text = atom.text() == text;
    let copy_keeps_text = copy_has_text(alloc, &atom, text);
    drop(atom);
    Some(copy_keeps_text? && atom_keeps_text)
}

/// Returns whether an atom with `count` characters and its copy have the text that the atom was built from.
fn keeps_text_of_length(alloc: Global, count: usize) -> Option<bool> {
    let text = repeat_text(alloc, "a", count).ok()?;
    let same = atom_and_copy_keep_text(alloc, text.as_str());
    drop(text);
    same
}

/// Returns whether an atom keeps its text for each of these numbers of characters.
fn keep_texts_of_lengths(alloc: Global, counts: &[usize]) -> Option<bool> {
    for count in counts {
        if !keeps_text_of_length(alloc, *count)? {
            return Some(false);
        }
    }
    Some(true)
}

/// Returns whether an atom with `count` characters is refused as too long.
fn is_refused_as_too_long(alloc: Global, count: usize) -> Option<bool> {
    let long = repeat_text(alloc, "a", count).ok()?;
    let fault = Atom::new(alloc, long.as_str()).err();
    drop(long);
    Some(matches!(fault, Some(AtomFault::TooLong)))
}

/// The greatest number of characters of an atom whose text is inline.
const MAX_INLINE: usize = 22;

/// The greatest number of characters of an atom.
const MAX_LENGTH: usize = 255;

#[test]
fn atoms_have_up_to_255_characters(rt: HostRuntime) {
    let alloc = rt.alloc();
    assert!(rt;
        keep_texts_of_lengths(alloc, &[0, MAX_INLINE, MAX_INLINE + 1, MAX_LENGTH]) == Some(true)
    );
    assert!(rt; is_refused_as_too_long(alloc, MAX_LENGTH + 1) == Some(true));
}

/// Returns whether a text is refused because it has a character that is not printable ASCII.
fn is_refused_as_unprintable(alloc: Global, text: &str) -> bool {
    matches!(Atom::new(alloc, text).err(), Some(AtomFault::BadCharacter))
}

#[test]
fn characters_of_atoms_are_printable(rt: HostRuntime) {
    assert!(rt;
        is_refused_as_unprintable(rt.alloc(), "\t") && is_refused_as_unprintable(rt.alloc(), "é")
    );
}
