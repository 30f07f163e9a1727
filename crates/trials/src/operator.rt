// The operator on a drawn network: its tables, its draft, its solve and its paths.
use super::cost::Cost;
use super::networks::Network;
use super::walks_found::Walk;
use columns::Columns;
use measure::Measure;
use session::{Arc, Draft, Order, Refusal, Settled, Solved, Step, Trace};
use std::alloc::{AllocError, Global};

// A network with tables of its size; those of the crate answers have one size and hold no network.
#[derive(Drop)]
pub struct Tables<'a, M: Measure> {
    network: &'a Network,
    arcs: Vec<Arc>,
    lengths: Vec<M>,
    values: Vec<M>,
    counts: Vec<usize>,
    work: Vec<Step>,
    path: Vec<usize>,
}

impl<'a, M: Columns> Tables<'a, M> {
    // Just as many cells as the network needs.
    pub fn sized(heap: Global, network: &'a Network) -> Result<Tables<'a, M>, AllocError> {
        let arcs = network.arcs.len();
        let cells = network.nodes.saturating_mul(network.k);
        Ok(Tables {
            network,
            arcs: vec![in heap; Arc::default(); arcs]?,
            lengths: vec![in heap; M::null(); arcs]?,
            values: vec![in heap; M::null(); cells]?,
            counts: vec![in heap; 0; network.nodes]?,
            work: vec![in heap; Step::default(); cells]?,
            path: vec![in heap; 0; cells]?,
        })
    }

    // How many lengths a row keeps at most.
    pub fn k(&self) -> usize {
        self.network.k
    }

    // A draft with the network's arcs.
    fn draft(&mut self) -> Result<Draft, Refusal> {
        let mut draft = Draft::new(self.network.nodes)?;
        for arc in &self.network.arcs {
            let length = arc.cost.length(self.network.kind).ok_or(Refusal::TooLong)?;
            let number = draft.put(
                &mut self.arcs,
                &mut self.lengths,
                arc.start,
                arc.end,
                length,
            )?;
            if !arc.open {
                draft.close(&mut self.arcs, number)?;
            }
        }
        Ok(draft)
    }

    pub fn solved(&mut self) -> Result<(Settled, Solved), Refusal> {
        let draft = self.draft()?;
        let order = Order::new(self.network.k, self.network.source)?;
        draft
            .solve(
                order,
                &self.arcs,
                &self.lengths,
                &mut self.values,
                &mut self.counts,
            )
            .map_err(|(_, why)| why)
    }

    // The cost at a place of a node's row; none past its end.
    pub fn cost(
        &self,
        settled: &Settled,
        node: usize,
        place: usize,
    ) -> Result<Option<Cost>, Refusal> {
        let length = settled.length(&self.values, &self.counts, node, place)?;
        Ok(length.and_then(|length| Cost::of(self.network.kind, &length)))
    }

    pub fn trace(&self, settled: Settled, node: usize) -> Result<Trace, (Settled, Refusal)> {
        settled.trace(node, &self.work, &self.path)
    }

    // The next path that the trace hands out, as a walk.
    pub fn next(&mut self, heap: Global, trace: &mut Trace) -> Result<Option<Walk>, AllocError> {
        let Some((size, length)) = trace.next(
            &self.arcs,
            &self.lengths,
            &self.values,
            &self.counts,
            &mut self.work,
            &mut self.path,
        ) else {
            return Ok(None);
        };
        let Some(cost) = Cost::of(self.network.kind, &length) else {
            return Ok(None);
        };
        let mut backward: Vec<usize> = self.path.iter().take(size).copied().collect(heap)?;
        backward.reverse();
        Ok(Some(Walk { cost, backward }))
    }
}
