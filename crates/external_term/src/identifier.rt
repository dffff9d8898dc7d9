//! Reads pids, and the references that encode table identifiers.
ghost use Rattle.std.specs.Prelude.{◌≡◌, ◌+◌, ◌≤◌, ◌<◌, ◌^◌, length, IfOk};
ghost use Rattle.external_term.specs.Faults.{ReturnsOrMemory};
ghost use Rattle.external_term.specs.Identifiers.{are_zero, is_own, node_name_at as read_node, identifier_at as read_identifier, pid_at as read_pid, old_reference_at as read_old, reference_at as read_reference};

use crate::fault::ExternalFault;
use crate::field::{Width, number_at, number32, piece_at};
use crate::tag::{Tag, tag_of};
use crate::text::name_at;
use ets_term::Term;

/// The name of the node of every pid and table identifier.
pub(crate) const NODE: &[u8] = b"nonode@nohost";

/// Reads the name of a node, an atom whose tag is at the offset. Returns where its characters begin and end.
fn node_at(bytes: &[u8], at: usize) -> Result<(usize, usize), ExternalFault>
    requires { at ≤ length bytes.now }
    ensures within { IfOk result (λ x. (x.0 ≤ x.1) × (x.1 ≤ length bytes.now)) }
    ensures reads { ReturnsOrMemory (read_node bytes.now at) result }
{
    if at >= bytes.len() {
        return Err(ExternalFault::Truncated(at));
    }
    match tag_of(bytes[at]) {
        Tag::Atom(width) => name_at(bytes, at + 1, width),
        _ => Err(ExternalFault::BadAtom(at)),
    }
}

/// Returns whether all bytes are 0.
fn are_all_zero(bytes: &[u8]) -> bool
    ensures { result ≡ are_zero bytes.now }
{
    bytes.iter().all(|b| *b == 0)
}

/// Returns whether the name of the node is `NODE`, and all bytes before and after the number are 0.
fn is_ours(node: &[u8], before: &[u8], behind: &[u8]) -> bool
    ensures { result ≡ is_own node.now before.now behind.now }
{
    node == NODE && are_all_zero(before) && are_all_zero(behind)
}

/// Reads the number of a pid or reference. Its tag is at `start`, and the name of the node is at `at`. Then come
/// `before` bytes, the number (4 bytes) and `behind` bytes. Returns the number and the offset after all of them.
fn identifier_at(
    bytes: &[u8],
    start: usize,
    at: usize,
    before: usize,
    behind: usize,
) -> Result<(u32, usize), ExternalFault>
    requires within { at ≤ length bytes.now }
    requires short { before + behind < 2 ^ 32 }
    ensures within { IfOk result (λ x. x.1 ≤ length bytes.now) }
    ensures reads { ReturnsOrMemory (read_identifier bytes.now start at before behind) result }
{
    // The characters of the node are from `from` up to `to`, the other fields from `first` up to `end`.
    let (from, to) = node_at(bytes, at)?;
    let (first, end) = piece_at(bytes, to, before + 4 + behind)?;
    // The offset of the number.
    let n = first + before;
    if !is_ours(&bytes[from..to], &bytes[first..n], &bytes[n + 4..end]) {
        return Err(ExternalFault::ForeignIdentifier(start));
    }
    Ok((number32(bytes, n) as u32, end))
}

/// Reads the pid whose tag is at the offset. After its number come `behind` bytes: the serial and the creation. Returns
/// the pid and the offset after it.
pub(crate) fn pid_at(bytes: &[u8], at: usize, behind: usize) -> Result<(Term, usize), ExternalFault>
    requires within { at < length bytes.now }
    requires short { behind < 2 ^ 32 }
    ensures within { IfOk result (λ x. x.1 ≤ length bytes.now) }
    ensures reads { ReturnsOrMemory (read_pid bytes.now at behind) result }
{
    let (n, end) = identifier_at(bytes, at, at + 1, 0, behind)?;
    Ok((Term::Pid(n), end))
}

/// Reads the reference in the old form REFERENCE_EXT whose tag is at the offset. Returns the table identifier and the
/// offset after it.
pub(crate) fn old_reference_at(bytes: &[u8], at: usize) -> Result<(Term, usize), ExternalFault>
    requires { at < length bytes.now }
    ensures within { IfOk result (λ x. x.1 ≤ length bytes.now) }
    ensures reads { ReturnsOrMemory (read_old bytes.now at) result }
{
    // The number follows the node at once, and a creation of 1 byte follows the number.
    let (n, end) = identifier_at(bytes, at, at + 1, 0, 1)?;
    Ok((Term::Tid(n), end))
}

/// Reads the reference whose tag is at the offset, with a creation of `creation` bytes and a number of words of 4
/// bytes. The first word is the number of the table identifier. Returns the table identifier and the offset after it.
pub(crate) fn reference_at(
    bytes: &[u8],
    at: usize,
    creation: usize,
) -> Result<(Term, usize), ExternalFault>
    requires within { at < length bytes.now }
    requires short { creation < 2 ^ 30 }
    ensures within { IfOk result (λ x. x.1 ≤ length bytes.now) }
    ensures reads { ReturnsOrMemory (read_reference bytes.now at creation) result }
{
    let (words, next) = number_at(bytes, at + 1, Width::Two)?;
    if words == 0 {
        return Err(ExternalFault::ForeignIdentifier(at));
    }
    // `4 * words - 4` is the number of bytes of the words after the first.
    let (n, end) = identifier_at(bytes, at, next, creation, 4 * words - 4)?;
    Ok((Term::Tid(n), end))
}
