//! The removal of a node: a search from a start node finds its predecessor, which gets the node's link. `unlink_from`
//! returns the node; `delete_from` drops its item without moving it. A place is the number of a node. The head of the
//! list is at place 0, so `cells_from nodes (Some 0)` is the whole list.
ghost use Rattle.std.specs.Prelude.{◌≡◌, ◌+◌, Some};
ghost use Rattle.slab.specs.Slab.{get, slab_len};
ghost use Rattle.node_list.specs.Places.{all_but_first, cells_after};
ghost use Rattle.node_list.specs.Changes.{without};
ghost use Rattle.node_list.specs.inside.Walks.{cells_from, IsLinked, HasPlace, IsPredecessor};
ghost use Rattle.node_list.specs.inside.Slots.{HasItemIn, HasChainLength};

use crate::node::ListNode;
use crate::nodes::Nodes;

/// Returns the place of the predecessor of the node at `at`: the node, from `start` on, whose link leads to `at`. The
/// node at `at` must be after the node at `start`.
fn predecessor(nodes: &Nodes, start: usize, at: usize) -> usize
    requires linked { IsLinked nodes.now (Some start) }
    requires after { HasPlace at (all_but_first (cells_from nodes.now (Some start))) }
    ensures { IsPredecessor result at (cells_from nodes.now (Some start)) }
{
    let mut before = start;
    while let Some(place) = nodes.header(before).next.get() {
        if place == at {
            return before;
        }
        before = place;
    }
    // The node at `at` is after the node at `start`, so the loop returns before the list ends.
    unreachable!()
}

/// Removes the node at `at`, an item after the node at `start`, and returns the removed node.
pub fn unlink_from(nodes: &mut Nodes, start: usize, at: usize) -> ListNode
    requires linked { IsLinked nodes.old (Some 0) }
    requires after { HasPlace at (cells_after start (cells_from nodes.old (Some 0))) }
    requires item { HasItemIn nodes.old at }
    ensures node { get nodes.old at ≡ Some result }
    ensures linked { IsLinked nodes.new (Some 0) }
    ensures cells { cells_from nodes.new (Some 0) ≡ without at (cells_from nodes.old (Some 0)) }
    ensures capacity { nodes.new.capacity ≡ nodes.old.capacity }
    ensures len { slab_len nodes.new + 1 ≡ slab_len nodes.old }
{
    let before = predecessor(nodes, start, at);
    let node = nodes.remove(at);
    // The predecessor now leads to the node after the removed node.
    nodes.set_next(before, node.next);
    node
}

/// Removes the node at `at`, an item after the node at `start`, and drops the item without moving it. Returns the
/// number of terms in the item's chain.
pub fn delete_from(nodes: &mut Nodes, start: usize, at: usize) -> usize
    requires linked { IsLinked nodes.old (Some 0) }
    requires after { HasPlace at (cells_after start (cells_from nodes.old (Some 0))) }
    requires item { HasItemIn nodes.old at }
    ensures count { HasChainLength nodes.old at result }
    ensures linked { IsLinked nodes.new (Some 0) }
    ensures cells { cells_from nodes.new (Some 0) ≡ without at (cells_from nodes.old (Some 0)) }
    ensures capacity { nodes.new.capacity ≡ nodes.old.capacity }
    ensures len { slab_len nodes.new + 1 ≡ slab_len nodes.old }
{
    let before = predecessor(nodes, start, at);
    // The link is read first, because `discard` replaces the header.
    let next = nodes.header(at).next;
    let count = nodes.discard(at);
    nodes.set_next(before, next);
    count
}
