//! The counting reader: the only way for a search to read a node, so that a search counts the nodes that it reads.
ghost use Rattle.std.specs.Prelude.{◌≡◌};
ghost use Rattle.slab.specs.Slab.{ContainsKey};
ghost use Rattle.node_list.specs.inside.Slots.{HasHeader, HoldsAt};
ghost use Rattle.node_list.specs.Ticks.{tick};

use crate::header::NodeHeader;
use crate::nodes::Nodes;
use crate::steps::Steps;
use ets_term::Term;

/// The nodes of a list, for a search. `read` counts the node that it reads.
#[derive(Clone, Copy)]
pub struct CountingReader<'a> {
    /// The nodes to read, by place.
    nodes: &'a Nodes,
}

impl<'a> CountingReader<'a> {
    /// Returns a reader of these nodes.
    pub fn new(nodes: &'a Nodes) -> CountingReader<'a>
        ensures { result.nodes.now ≡ nodes.now }
    {
        CountingReader { nodes }
    }

    /// Returns the header of the node at a place, and adds 1 to `steps`.
    #[inline(always)]
    pub fn read(self, at: usize, steps: &mut Steps) -> NodeHeader
        requires { ContainsKey self.nodes.now at }
        ensures header { HasHeader self.entry.nodes.now at result }
        ensures ticks { steps.new ≡ tick steps.old }
    {
        steps.tick();
        self.nodes.header(at)
    }

    /// Checks whether the node at a place, which was read before, is an item whose key is `term`.
    #[inline(always)]
    pub fn holds(self, at: usize, term: &Term) -> bool
        requires { ContainsKey self.nodes.now at }
        ensures { HoldsAt self.entry.nodes.now at term.now result }
    {
        match self.nodes.item(at) {
            Some(item) => item.term.is_equal(term),
            None => false,
        }
    }
}
