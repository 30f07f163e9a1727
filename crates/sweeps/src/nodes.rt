// Working on a node: the lengths of its arcs' starts go on over the arcs, into its row.
ghost use Rattle.std.specs.Prelude.{◌≡◌, ◌&&◌, length};
ghost use Rattle.walks.specs.Method.{takes};
ghost use Rattle.sweeps.specs.Nodes.{IsNode, Shape, TwoRows, ArcWorked, NodeWorked};
ghost use Rattle.sweeps.specs.Inwards.{net_of};

use super::Arc;
use super::inward::Inward;
use super::rows::Filling;
use measure::Measure;

// Works on node `to` over an arc from node `from`, whose row holds so many lengths.
fn work_arc<M: Measure>(
    values: &mut [M],
    k: usize,
    from: usize,
    held: usize,
    to: usize,
    row: &mut Filling,
    x: M,
)
    requires { TwoRows k from held to row.old.held (length values.old) }
    ensures { ArcWorked M.Measure.algebra k from held to row.old.held row.old.changed x values.old values.new row.new.held row.new.changed }
{
    let source = (from - 1) * k;
    let target = (to - 1) * k;
    row.from = 0;
    // by index, since both rows are parts of one table
    for p in 0..held {
        let a = values[source + p];
        if let Some(y) = a.join(&x) {
            row.place(&mut values[target..target + k], y);
        }
    }
}

// Whether a pass takes an arc into node j.
fn taken(arc: Arc, down: bool, j: usize) -> bool
    ensures { result ≡ (arc.«open» && takes down arc.start j) }
{
    let start = arc.start as usize;
    arc.open && if down { j < start } else { start < j }
}

impl<M: Measure> Inward<'_, M> {
    // Works on node j over the arcs into it that a pass takes, and says whether its row has changed.
    pub fn work_node(
        &self,
        down: bool,
        j: usize,
        k: usize,
        values: &mut [M],
        counts: &mut [usize],
    ) -> bool
        requires shape { Shape self.now.nodes k (length values.old) counts.old }
        requires node { IsNode self.now.nodes j }
        ensures { NodeWorked M.Measure.algebra (net_of M.Measure.algebra self.now) k down j values.old counts.old values.new counts.new result }
    {
        let mut row = Filling {
            held: counts[j - 1],
            changed: false,
            from: 0,
        };
        let (arcs, lengths) = self.into_node(j);
        for (arc, x) in arcs.iter().zip(lengths) {
            if taken(*arc, down, j) {
                let from = arc.start as usize;
                work_arc(values, k, from, counts[from - 1], j, &mut row, *x);
            }
        }
        counts[j - 1] = row.held;
        row.changed
    }
}
