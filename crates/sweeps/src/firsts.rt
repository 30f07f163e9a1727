// First lengths, and what comes over the arcs to them.
ghost use Rattle.std.specs.Prelude.{◌≡◌, ◌≤◌, length};
ghost use Rattle.std.proofs.Props.{props};
ghost use Rattle.sweeps.specs.Nodes.{IsNode, FitsArc, Shape};
ghost use Rattle.sweeps.specs.Firsts.{first_length_of, over_arc, LaggingOr};
ghost use Rattle.sweeps.specs.Inwards.{net_of};

use super::Arc;
use super::inward::Inward;
use measure::Measure;
use std::cmp::Ordering;

// The rows of a network, to be read: at most k lengths for each node.
#[derive(Drop)]
pub struct Rows<'a, M: Measure> {
    pub net: &'a Inward<'a, M>,
    pub k: usize,
    pub values: &'a [M],
    pub counts: &'a [usize],
    ghost some: { 1 ≤ k },
    ghost shape: { Shape net.now.nodes k (length values.now) counts.now } by { Prim.hlevel props },
}

impl<M: Measure> Rows<'_, M> {
    // The first length of node j.
    fn first(&self, j: usize) -> Option<M>
        requires { IsNode self.now.net.now.nodes j }
        ensures { result ≡ first_length_of M.Measure.algebra self.now.k self.now.values.now self.now.counts.now j }
    {
        if self.counts[j - 1] == 0 {
            return None;
        }
        Some(self.values[(j - 1) * self.k])
    }

    // How the first length of an arc's start, joined with the arc's, compares with the first length of its end: none if the arc is
    // closed or one of them is not there.
    pub fn over(&self, arc: Arc, x: M) -> Option<Ordering>
        requires { FitsArc M.Measure.algebra self.now.net.now.nodes arc x }
        ensures { result ≡ over_arc M.Measure.algebra self.now.k self.now.values.now self.now.counts.now arc x }
    {
        if !arc.open {
            return None;
        }
        let there = self.first(arc.start as usize)?;
        let here = self.first(arc.end as usize)?;
        let y = there.join(&x)?;
        Some(y.compare(&here))
    }

    // Whether an arc brings its end a length before the first one there.
    pub fn lagging(&self) -> bool
        ensures { LaggingOr M.Measure.algebra (net_of M.Measure.algebra self.now.net.now) self.now.k self.now.values.now self.now.counts.now result }
    {
        for (arc, x) in self.net.arcs.iter().zip(self.net.lengths) {
            if self.over(*arc, *x) == Some(Ordering::Less) {
                return true;
            }
        }
        false
    }
}
