// Looking at the arc tables once, before a solve.
ghost use Rattle.std.specs.Prelude.{suc, ◌≤◌, length};
ghost use Rattle.sweeps.specs.Tables.{network, InOrder, Whether};
ghost use Rattle.sweeps.specs.Nodes.{Indexed, FitsArc};

use super::Arc;
use measure::Measure;

// The largest magnitude of an arc's length.
pub const LONGEST: u64 = 1000000000;

// Whether an arc leads from a node to another and is not too long.
fn fits<M: Measure>(nodes: usize, arc: Arc, x: M) -> bool
    ensures { Whether result (FitsArc M.Measure.algebra nodes arc x) }
{
    let start = arc.start as usize;
    let end = arc.end as usize;
    (1..=nodes).contains(&start)
        && (1..=nodes).contains(&end)
        && start != end
        && x.magnitude() <= LONGEST
}

// Whether every arc is as it must be, and ends do not descend.
pub fn in_order<M: Measure>(nodes: usize, arcs: &[Arc], lengths: &[M]) -> bool
    ensures { Whether result (InOrder M.Measure.algebra (network M.Measure.algebra nodes arcs.now lengths.now)) }
{
    // 0 is below every end
    let mut last = 0;
    for (arc, x) in arcs.iter().zip(lengths) {
        if !fits(nodes, *arc, *x) || arc.end < last {
            return false;
        }
        last = arc.end;
    }
    true
}

// Writes into cell j of `first`, for 0 and each node j, how many arcs end at j or below.
pub fn index<M: Measure>(nodes: usize, arcs: &[Arc], lengths: &[M], first: &mut [usize])
    requires room { suc nodes ≤ length first.old }
    requires ordered { InOrder M.Measure.algebra (network M.Measure.algebra nodes arcs.now lengths.now) }
    ensures { Indexed (network M.Measure.algebra nodes arcs.now lengths.now) first.new }
{
    let total = arcs.len().min(lengths.len());
    let mut below = 0;
    for (j, cell) in first[..=nodes].iter_mut().enumerate() {
        // counted on from cell to cell, since a search for each would look at the arcs more often than once
        while below < total && arcs[below].end as usize <= j {
            below += 1;
        }
        *cell = below;
    }
}
