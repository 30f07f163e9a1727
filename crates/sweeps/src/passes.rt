// Passes over all the nodes. The tables of values and counts are lent as two slices throughout: held as `&mut` in a struct, each
// function would owe a clause that they are still the same slices. `down` is a `bool`, as the definitions tell a direction.
ghost use Rattle.std.specs.Prelude.{length};
ghost use Rattle.sweeps.specs.Nodes.{Shape};
ghost use Rattle.sweeps.specs.Passes.{Passed};
ghost use Rattle.sweeps.specs.Inwards.{net_of};

use super::inward::Inward;
use measure::Measure;

impl<M: Measure> Inward<'_, M> {
    // Works on every node, from the last to the first over the arcs that start above it, or from the first to the last over those
    // that start below it, and says whether a row has changed.
    pub fn pass(&self, down: bool, k: usize, values: &mut [M], counts: &mut [usize]) -> bool
        requires { Shape self.now.nodes k (length values.old) counts.old }
        ensures { Passed M.Measure.algebra (net_of M.Measure.algebra self.now) k down values.old counts.old values.new counts.new result }
    {
        let mut changed = false;
        for i in 0..self.nodes {
            // by a count, since a range and its reverse are two types
            let j = if down { self.nodes - i } else { i + 1 };
            changed |= self.work_node(down, j, k, values, counts);
        }
        changed
    }
}
