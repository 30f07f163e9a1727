ghost use Rattle.std.specs.Prelude.{◌≡◌, ◌-◌, ◌≤◌, slice_index, slice_range};
ghost use Rattle.std.proofs.Props.{props};
ghost use Rattle.sweeps.specs.Nodes.{IsNode, Known};

use super::Arc;
use measure::Measure;

// A network in arc tables whose arcs are in order. Cell j of `first`, for 0 and each node j, says how many arcs end at j or below.
#[derive(Drop)]
pub struct Inward<'a, M: Measure> {
    pub nodes: usize,
    pub arcs: &'a [Arc],
    pub lengths: &'a [M],
    pub first: &'a [usize],
    ghost few: { nodes ≤ 1000 },
    ghost known: { Known M.Measure.algebra nodes arcs.now lengths.now first.now } by { Prim.hlevel props },
}

impl<M: Measure> Inward<'_, M> {
    // The arcs into node j, and their lengths. That j is a node is asked of each call, since it speaks of j and not of the network.
    pub fn into_node(&self, j: usize) -> (&[Arc], &[M])
        requires { IsNode self.now.nodes j }
        ensures arcs { result.0.now ≡ slice_range self.now.arcs.now (slice_index self.now.first.now (j - 1)) (slice_index self.now.first.now j) }
        ensures lengths { result.1.now ≡ slice_range self.now.lengths.now (slice_index self.now.first.now (j - 1)) (slice_index self.now.first.now j) }
    {
        let low = self.first[j - 1];
        let high = self.first[j];
        (&self.arcs[low..high], &self.lengths[low..high])
    }
}
