//! Reads terms by recursive descent. `levels_left` is the number of levels that may still be opened. The offset that a
//! function returns is the one after what it read.
ghost use Rattle.std.specs.Prelude.{◌≡◌, ◌+◌, ◌≤◌, ◌<◌, ◌^◌, length, IfOk, IfSome, Ok, [], ◌∷◌};
ghost use Rattle.ets_term.specs.declared.term.Term.TheVariants.{Tuple as TupleOf};
ghost use Rattle.external_term.specs.Faults.{ReturnsOrMemory};
ghost use Rattle.external_term.specs.Reader.{term_at as read_term, items_at as read_items, tuple_at as read_tuple, long_list_at as read_list, form, read};

use crate::fault::ExternalFault;
use crate::field::{Width, number_at};
use crate::identifier::{old_reference_at, pid_at, reference_at};
use crate::integer::{big_at, integer_at, small_integer_at};
use crate::tag::{NIL_EXT, Tag, VERSION, tag_of};
use crate::text::{atom_at, binary_at, string_at};
use ets_term::{Items, MAX_DEPTH, Term};
use std::alloc::Global;

/// The greatest number of items for which memory is reserved before the first is read. So a count without its items
/// takes little memory before the fault is found.
const MAX_RESERVED: usize = 64;

/// Reads the version and the term at the start of the bytes. Returns the term and the number of bytes of both, or the
/// first fault. Returns `Memory` if memory runs out.
pub fn read_external(alloc: Global, bytes: &[u8]) -> Result<(Term, usize), ExternalFault>
    ensures { ReturnsOrMemory (read bytes.now) result }
{
    let (version, next) = number_at(bytes, 0, Width::One)?;
    if version != VERSION as usize {
        return Err(ExternalFault::BadVersion(0));
    }
    term_at(alloc, bytes, next, MAX_DEPTH)
}

/// Reads the version and a SMALL_TUPLE_EXT of two elements at the start of the bytes. Returns the elements and the
/// number of bytes of the version and the tuple. Returns `None` if the bytes begin with anything else, if they have a
/// fault, or if memory runs out. `read_external` then returns the reason.
#[tactic(auto, using(crate::proofs::Pairs::pair_read))]
pub fn read_pair(alloc: Global, bytes: &[u8]) -> Option<(Term, Term, usize)>
    ensures { IfSome result (λ x. read bytes.now ≡ Ok (TupleOf (x.0 ∷ x.1 ∷ []), x.2)) }
{
    // The bytes are the version, the tag SMALL_TUPLE_EXT and the number of elements. The first element is at offset 3,
    // and both elements have at least one byte.
    if bytes.len() < 5 || bytes[0] != 131 || bytes[1] != 104 || bytes[2] != 2 {
        return None;
    }
    // The tuple is one level, so each element may have one level less.
    let Ok((first, next)) = term_at(alloc, bytes, 3, MAX_DEPTH - 1) else {
        return None;
    };
    let Ok((second, end)) = term_at(alloc, bytes, next, MAX_DEPTH - 1) else {
        return None;
    };
    Some((first, second, end))
}

/// Reads the term whose tag is at the offset. It may have at most `levels_left` levels.
#[cycle(term)]
fn term_at(
    alloc: Global,
    bytes: &[u8],
    at: usize,
    levels_left: usize,
) -> Result<(Term, usize), ExternalFault>
    requires { at ≤ length bytes.now }
    ensures within { IfOk result (λ x. x.1 ≤ length bytes.now) }
    ensures reads { ReturnsOrMemory (read_term bytes.now levels_left at) result }
{
    if levels_left == 0 {
        return Err(ExternalFault::TooDeep(at));
    }
    if at >= bytes.len() {
        return Err(ExternalFault::Truncated(at));
    }
    form_at(alloc, bytes, at, tag_of(bytes[at]), levels_left - 1)
}

/// Reads the term whose tag, `tag`, is at the offset. The terms inside may have at most `levels_left` levels.
#[cycle(term)]
fn form_at(
    alloc: Global,
    bytes: &[u8],
    at: usize,
    tag: Tag,
    levels_left: usize,
) -> Result<(Term, usize), ExternalFault>
    requires { at < length bytes.now }
    ensures within { IfOk result (λ x. x.1 ≤ length bytes.now) }
    ensures reads { ReturnsOrMemory (form bytes.now levels_left (read_term bytes.now levels_left) at tag) result }
{
    match tag {
        Tag::SmallInteger => small_integer_at(bytes, at),
        Tag::Integer => integer_at(bytes, at),
        Tag::SmallBig => big_at(bytes, at),
        Tag::Atom(width) => atom_at(alloc, bytes, at, width),
        Tag::Tuple(width) => tuple_at(alloc, bytes, at, width, levels_left),
        Tag::Nil => Ok((Term::List(Items::new(alloc)), at + 1)),
        Tag::String => string_at(alloc, bytes, at, levels_left),
        Tag::List => list_at(alloc, bytes, at, levels_left),
        Tag::Binary => binary_at(alloc, bytes, at),
        // A pid has a serial of 4 bytes, and then a creation of 4 bytes or 1 byte. The creation of a reference has 4
        // bytes or 1 byte.
        Tag::NewPid => pid_at(bytes, at, 8),
        Tag::Pid => pid_at(bytes, at, 5),
        Tag::NewerReference => reference_at(bytes, at, 4),
        Tag::NewReference => reference_at(bytes, at, 1),
        Tag::Reference => old_reference_at(bytes, at),
        Tag::Unknown => Err(ExternalFault::UnsupportedTag(at)),
    }
}

/// Reads the tuple whose tag is at the offset. Its elements may have at most `levels_left` levels. `width` is that of
/// the number of elements.
#[cycle(term)]
fn tuple_at(
    alloc: Global,
    bytes: &[u8],
    at: usize,
    width: Width,
    levels_left: usize,
) -> Result<(Term, usize), ExternalFault>
    requires { at < length bytes.now }
    ensures within { IfOk result (λ x. x.1 ≤ length bytes.now) }
    ensures reads { ReturnsOrMemory (read_tuple width bytes.now (read_term bytes.now levels_left) at) result }
{
    let (count, next) = number_at(bytes, at + 1, width)?;
    match items_at(alloc, bytes, next, count, levels_left) {
        Ok((items, end)) => Ok((Term::Tuple(items), end)),
        Err(fault) => Err(fault),
    }
}

/// Reads the list whose tag is at the offset. Its elements may have at most `levels_left` levels.
#[cycle(term)]
fn list_at(
    alloc: Global,
    bytes: &[u8],
    at: usize,
    levels_left: usize,
) -> Result<(Term, usize), ExternalFault>
    requires { at < length bytes.now }
    ensures within { IfOk result (λ x. x.1 ≤ length bytes.now) }
    ensures reads { ReturnsOrMemory (read_list bytes.now (read_term bytes.now levels_left) at) result }
{
    let (count, next) = number_at(bytes, at + 1, Width::Four)?;
    let (items, last) = match items_at(alloc, bytes, next, count, levels_left) {
        Ok(found) => found,
        Err(fault) => return Err(fault),
    };
    // The tail is after the items. It must be the empty list, whose only byte is its tag.
    let (tail, end) = number_at(bytes, last, Width::One)?;
    if tail != NIL_EXT as usize {
        return Err(ExternalFault::ImproperList(last));
    }
    Ok((Term::List(items), end))
}

/// Reads `count` terms, one after another. Each may have at most `levels_left` levels.
#[cycle(term)]
fn items_at(
    alloc: Global,
    bytes: &[u8],
    at: usize,
    count: usize,
    levels_left: usize,
) -> Result<(Items<Term>, usize), ExternalFault>
    requires { at ≤ length bytes.now }
    ensures within { IfOk result (λ x. x.1 ≤ length bytes.now) }
    ensures reads { ReturnsOrMemory (read_items bytes.now (read_term bytes.now levels_left) count at) result }
{
    // Each term has at least one byte.
    if count > bytes.len() - at {
        return Err(ExternalFault::Truncated(at));
    }
    let mut items = Vec::with_capacity(alloc, count.min(MAX_RESERVED))?;
    let mut next = at;
    for _ in 0..count {
        let (item, end) = match term_at(alloc, bytes, next, levels_left) {
            Ok(found) => found,
            Err(fault) => return Err(fault),
        };
        items.reserve(1)?;
        items.push_reserved(item);
        next = end;
    }
    Ok((Items::from_vec(items), next))
}
