// Solving in the caller's tables.
ghost use Rattle.std.specs.Prelude.{◌≡◌, ◌*◌, length};
ghost use Rattle.sweeps.specs.Tables.{network};
ghost use Rattle.sweeps.specs.Passes.{Bounds, Filled};
ghost use Rattle.sweeps.specs.Answers.{Solves};

use super::firsts::Rows;
use super::inspection::{in_order, index};
use super::inward::Inward;
use super::order::Order;
use super::orders::MOST_NODES;
use super::tables::clear;
use super::{Arc, Refusal, Solved};
use measure::Measure;

// Fills tables of exactly the rows' sizes; or clears them, and says none.
fn fill<M: Measure>(
    nodes: usize,
    order: Order,
    arcs: &[Arc],
    lengths: &[M],
    values: &mut [M],
    counts: &mut [usize],
) -> Option<Solved>
    requires bounds { Bounds nodes order.k order.source }
    requires cells { length values.old ≡ nodes * order.k }
    requires held { length counts.old ≡ nodes }
    ensures { Filled M.Measure.algebra (network M.Measure.algebra nodes arcs.now lengths.now) order.k order.source result values.new counts.new }
{
    if !in_order(nodes, arcs, lengths) {
        clear(values, counts);
        return None;
    }
    // an array, since a solve allocates nothing
    let mut first = [0usize; MOST_NODES + 1];
    index(nodes, arcs, lengths, &mut first);
    let net = Inward {
        nodes,
        arcs,
        lengths,
        first: &first,
    };
    let passes = net.settle(order, values, counts)?;
    let rows = Rows {
        net: &net,
        k: order.k,
        values,
        counts,
    };
    let null = rows.null_circuit();
    Some(Solved { passes, null })
}

// Fills the rows of the network of the arc tables, and says how many passes it took and whether a null circuit is reached;
// or says why not. Arc tables out of order, which no session leaves, are refused as if a circuit before null were reached.
pub fn solve<M: Measure>(
    nodes: usize,
    order: Order,
    arcs: &[Arc],
    lengths: &[M],
    values: &mut [M],
    counts: &mut [usize],
) -> Result<Solved, Refusal>
    ensures { Solves M.Measure.algebra nodes order.k order.source arcs.now lengths.now values.old counts.old result values.new counts.new }
{
    if nodes == 0 || nodes > MOST_NODES {
        return Err(Refusal::NodeCount);
    }
    if order.source > nodes {
        return Err(Refusal::NoSuchNode);
    }
    let cells = nodes * order.k;
    if values.len() < cells || counts.len() < nodes {
        return Err(Refusal::ShortTables);
    }
    fill(
        nodes,
        order,
        arcs,
        lengths,
        &mut values[..cells],
        &mut counts[..nodes],
    )
    .ok_or(Refusal::NegativeCircuit)
}
