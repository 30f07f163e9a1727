// Whether a circuit whose length is null is reached.
ghost use Rattle.std.specs.Prelude.{◌≤◌, length};
ghost use Rattle.sweeps.specs.Nodes.{IsNode};
ghost use Rattle.sweeps.specs.Ranks.{FreeOr, Climbs, Scanned, Ranked};
ghost use Rattle.sweeps.specs.Inwards.{net_of};

use super::firsts::Rows;
use super::orders::MOST_NODES;
use measure::Measure;
use std::cmp::Ordering;

impl<M: Measure> Rows<'_, M> {
    // Whether no tight arc, one over which the first length at its end comes, leads to node j from a node that is not ranked.
    fn free(&self, j: usize, ranks: &[usize]) -> bool
        requires node { IsNode self.now.net.now.nodes j }
        requires room { self.now.net.now.nodes ≤ length ranks.now }
        ensures { FreeOr M.Measure.algebra (net_of M.Measure.algebra self.now.net.now) self.now.k self.now.values.now self.now.counts.now ranks.now j result }
    {
        let (arcs, lengths) = self.net.into_node(j);
        for (arc, x) in arcs.iter().zip(lengths) {
            if ranks[arc.start as usize - 1] == 0 && self.over(*arc, *x) == Some(Ordering::Equal) {
                return false;
            }
        }
        true
    }

    // Ranks each node that is free, after those that are ranked, and says how many are ranked then.
    fn scan(&self, ranks: &mut [usize], ranked: usize) -> usize
        requires room { self.now.net.now.nodes ≤ length ranks.old }
        requires climbs { Climbs M.Measure.algebra (net_of M.Measure.algebra self.now.net.now) self.now.k self.now.values.now self.now.counts.now ranks.old ranked }
        ensures { Scanned M.Measure.algebra (net_of M.Measure.algebra self.now.net.now) self.now.k self.now.values.now self.now.counts.now ranked ranks.new result }
    {
        let mut total = ranked;
        // by index, since `free` reads all the ranks
        for i in 0..self.net.nodes {
            if ranks[i] == 0 && self.free(i + 1, ranks) {
                total += 1;
                ranks[i] = total;
            }
        }
        total
    }

    // Whether nodes are left that cannot be ranked along the tight arcs: then a circuit whose length is null is reached.
    pub fn null_circuit(&self) -> bool
        ensures { Ranked M.Measure.algebra (net_of M.Measure.algebra self.now.net.now) self.now.k self.now.values.now self.now.counts.now result }
    {
        // 0 for a node that is not ranked, as the definitions count ranks; an array, since a solve allocates nothing
        let mut ranks = [0usize; MOST_NODES];
        let mut ranked = 0;
        loop {
            let total = self.scan(&mut ranks, ranked);
            if total == ranked {
                break;
            }
            ranked = total;
        }
        ranks[..self.net.nodes].contains(&0)
    }
}
