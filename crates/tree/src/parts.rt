// Runs of nodes, and how they split (rule T3).

ghost use Rattle.std.specs.Prelude.{◌≤◌, ◌<◌};
ghost use Rattle.base.specs.Limits.{base};

// The nodes low to high, of a board that the largest build has room for.
#[derive(Clone, Copy)]
pub struct Run {
    pub low: u32,
    pub high: u32,
    ghost in_range: { (low ≤ base.nodes) × (high < base.nodes) },
}

impl Run {
    ghost use Rattle.std.specs.Prelude.{◌≡◌};
    ghost use Rattle.tree.specs.Tree.{middle, part, inside};
    ghost use Rattle.tree.specs.Lookups.{nodes_of};

    // The last node of the left part.
    pub fn middle(self) -> u32
        ensures { (result ≡ middle (nodes_of self)) × (result < base.nodes) }
    {
        (self.low + self.high) / 2
    }

    // The part that has the node.
    pub fn part(self, node: u32) -> Run
        ensures { nodes_of result ≡ part (nodes_of self) node }
    {
        let middle = self.middle();
        if node <= middle {
            return Run {
                low: self.low,
                high: middle,
            };
        }
        Run {
            low: middle + 1,
            high: self.high,
        }
    }

    // Whether it has the node.
    pub fn has(self, node: u32) -> bool
        ensures { result ≡ inside (nodes_of self) node }
    {
        self.low <= node && node <= self.high
    }
}
