//! The laws of hashes. Each law is the contract of a function with an empty body.
ghost use Rattle.std.specs.Prelude.{◌≡◌, [], codes};
ghost use Rattle.ets_term.specs.Encoding.{encoding, concat, fnv};
ghost use Rattle.ets_term.specs.Writes.{writes};

use crate::term::Term;

/// The writes of a term to a hasher, joined to one list of bytes, are the term's encoding.
pub fn hash_writes_encoding(term: &Term)
    ensures { concat (writes term.now) ≡ encoding term.now }
{}

/// `fnv` gives the published FNV-1a hashes of no bytes, of `a` and of `foobar`.
pub fn fnv_gives_published_hashes()
    ensures none { fnv [] ≡ 2166136261 }
    ensures a { fnv (codes "a") ≡ 3826002220 }
    ensures foobar { fnv (codes "foobar") ≡ 3214735720 }
{}
