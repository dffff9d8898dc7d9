//! What a term writes to any hasher.
ghost use Rattle.std.specs.Prelude.{◌≡◌, [], ◌∷◌, fold, map};
ghost use Rattle.std.specs.Int.{to_be_bytes, w64};
ghost use Rattle.ets_term.specs.Encoding.{concat};
ghost use Rattle.ets_term.specs.Writes.{writes};
ghost use Rattle.ets_term.specs.laws.Hashed.{writes-same};

use crate::integer::integer_bytes;
use crate::term::Term;
use std::hash::{Hash, Hasher};

// `hash_input` is the list of all writes. `respects_eq` proves that equal terms make the same writes.
impl Hash for Term {
    ghost hash_input = { writes };

    ghost respects_eq = { writes-same };

    fn hash<H: Hasher>(&self, state: &mut H) {
        feed(self, state)
    }
}

/// Writes a term to a hasher. The bytes are those of the encoding that `Fnv` describes: first the byte of the kind,
/// from 1 to 7.
#[cycle(feed)]
fn feed<H: Hasher>(term: &Term, state: &mut H)
    ensures { state.new ≡ fold H.write state.old (writes term.now) }
{
    match term {
        Term::Int(n) => {
            state.write(&[1]);
            state.write(&integer_bytes(*n));
        }
        Term::Atom(atom) => {
            // An atom has at most 255 characters, so its length fits in a byte.
            let text = atom.text().as_bytes();
            state.write(&[2, text.len() as u8]);
            state.write(text);
        }
        Term::Pid(n) => {
            state.write(&[3]);
            state.write(&n.to_be_bytes());
        }
        Term::Tid(n) => {
            state.write(&[4]);
            state.write(&n.to_be_bytes());
        }
        Term::Tuple(items) => {
            feed_count(5, items.len(), state);
            feed_items(items.as_slice(), state);
        }
        Term::List(items) => {
            feed_count(6, items.len(), state);
            feed_items(items.as_slice(), state);
        }
        Term::Binary(bytes) => {
            feed_count(7, bytes.len(), state);
            state.write(bytes.as_slice());
        }
    }
}

/// Writes some terms to a hasher, one after another.
#[cycle(feed)]
fn feed_items<H: Hasher>(items: &[Term], state: &mut H)
    ensures { state.new ≡ fold H.write state.old (concat (map writes items.now)) }
{
    for item in items {
        feed(item, state);
    }
}

/// Writes the byte of a kind and the eight bytes of a count to a hasher.
fn feed_count<H: Hasher>(kind: u8, count: usize, state: &mut H)
    ensures { state.new ≡ fold H.write state.old ((kind ∷ []) ∷ to_be_bytes w64 count ∷ []) }
{
    state.write(&[kind]);
    state.write(&(count as u64).to_be_bytes());
}
