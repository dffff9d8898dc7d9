//! The search for the item with a split key and a key (a term). A search reads nodes through the counting reader only,
//! which counts each node that the search reads.
ghost use Rattle.std.specs.Prelude.{◌≡◌, Some, length};
ghost use Rattle.node_list.specs.Cells.{Sorted};
ghost use Rattle.node_list.specs.Search.{place_of, visited_cells};
ghost use Rattle.node_list.specs.Ticks.{ticks};
ghost use Rattle.node_list.specs.inside.Walks.{cells_from, IsLinked};

use crate::reader::CountingReader;
use crate::steps::Steps;
use ets_term::Term;

/// Returns the place of the first node from `start` on with this split key whose item has the key `term`, or `None` if
/// no node has both. Adds the number of nodes that it reads to `steps`. Ends at the first node with a greater split
/// key.
#[inline(always)]
pub fn find_from(
    nodes: CountingReader<'_>,
    start: usize,
    split_key: u64,
    term: &Term,
    steps: &mut Steps,
) -> Option<usize>
    requires linked { IsLinked nodes.nodes.now (Some start) }
    requires sorted { Sorted (cells_from nodes.nodes.now (Some start)) }
    ensures found { result ≡ place_of split_key term.now (cells_from nodes.entry.nodes.now (Some start)) }
    ensures ticks { steps.new
        ≡ ticks (length (visited_cells split_key term.now (cells_from nodes.entry.nodes.now (Some start)))) steps.old }
{
    // The place of the node to read next, or `None` after the last node.
    let mut at = Some(start);
    while let Some(place) = at {
        let header = nodes.read(place, steps);
        if split_key < header.split_key {
            // Split keys never fall along the list, so no later node has this split key.
            return None;
        }
        if header.split_key == split_key && nodes.holds(place, term) {
            return Some(place);
        }
        at = header.next.get();
    }
    None
}
