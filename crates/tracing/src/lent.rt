// The tables that a trace reads, of the sizes that a settled session has.
ghost use Rattle.tracing.specs.Tables.{tables, Sizes};

use measure::Measure;
use sweeps::{Arc, MOST_NODES, Order};

// The number of nodes, K and the source, and the caller's tables.
#[derive(Drop)]
pub struct Lent<'a, M> {
    pub nodes: usize,
    pub order: Order,
    pub arcs: &'a [Arc],
    pub lengths: &'a [M],
    pub values: &'a [M],
    pub counts: &'a [usize],
    ghost sizes: { Sizes (tables nodes order.k order.source arcs.now lengths.now values.now counts.now) },
}

impl<'a, M: Measure> Lent<'a, M> {
    ghost use Rattle.tracing.specs.Labels.{Taken};

    // The tables, unless their sizes are too small or there are too many nodes.
    pub fn new(
        nodes: usize,
        order: Order,
        arcs: &'a [Arc],
        lengths: &'a [M],
        values: &'a [M],
        counts: &'a [usize],
    ) -> Option<Lent<'a, M>>
        ensures { Taken (tables nodes order.k order.source arcs.now lengths.now values.now counts.now) result }
    {
        if nodes > MOST_NODES
            || arcs.len() > lengths.len()
            || values.len() < nodes * order.k
            || counts.len() < nodes
        {
            return None;
        }
        Some(Lent {
            nodes,
            order,
            arcs,
            lengths,
            values,
            counts,
        })
    }
}
