// The spare nodes of a seat.
ghost use Rattle.std.specs.Prelude.{◌≡◌, ◌+◌, ◌<◌, ◌≤◌};
ghost use Rattle.sh_alloc.specs.Spares.{range_of, no_nodes, nodes_from, lowest, without_lowest, MayPutBack, with_lowest};

use crate::Spare;
use crate::state::NodeRange;

impl Spare {
    /// No spare node.
    pub fn none() -> Spare
        ensures { range_of result ≡ no_nodes }
    {
        Spare {
            range: NodeRange { first: 1, count: 0 },
        }
    }

    /// Takes the lowest spare node. `None` exactly where none is left.
    pub fn take(&mut self) -> Option<u32>
        ensures node { result ≡ lowest (range_of self.old) }
        ensures rest { range_of self.new ≡ without_lowest (range_of self.old) }
    {
        let NodeRange { first, count } = self.range;
        if count == 0 {
            return None;
        }
        self.range = NodeRange {
            first: first + 1,
            count: count - 1,
        };
        Some(first)
    }

    /// Makes a node the lowest spare one again. Condition: it was the last one taken, and neither `fill` nor `put_back`
    /// was called since; so its number is the one below the lowest spare node's.
    pub fn put_back(&mut self, node: u32)
        requires { MayPutBack node (range_of self.old) }
        ensures { range_of self.new ≡ with_lowest node (range_of self.old) }
    {
        self.range = NodeRange {
            first: node,
            count: self.range.count + 1,
        };
    }

    /// Takes in `count` nodes of rising numbers, from `first` on. Conditions: no spare node is left, nodes are numbered
    /// from 1, and `first + count` is below 2^32.
    pub fn fill(&mut self, first: u32, count: u32)
        requires none { (range_of self.old).count ≡ 0 }
        requires low { 1 ≤ first }
        requires high { first + count < 4294967296 }
        ensures { range_of self.new ≡ nodes_from first count }
    {
        self.range = NodeRange { first, count };
    }
}
