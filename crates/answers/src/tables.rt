// The tables that are lent to the calls of a session.
ghost use Rattle.std.specs.Prelude.{◌≡◌, ℕ, ◌≤◌, List, take, IfOk, vec_len};
ghost use Rattle.walks.specs.Rows.{Table};
ghost use Rattle.session.specs.Nets.{Net};
ghost use Rattle.session.specs.Settled.{SettledHolds};

use super::LIMITS;
use columns::Columns;
use session::{Arc, Settled, Step};
use std::alloc::{AllocError, Global};

// The cells of 100 rows of 20 lengths.
const ROW_CELLS: usize = 2000;

#[derive(Drop)]
pub(crate) struct Tables<M: Columns> {
    pub(crate) arcs: Vec<Arc>,
    pub(crate) lengths: Vec<M>,
    pub(crate) values: Vec<M>,
    pub(crate) counts: Vec<usize>,
    pub(crate) work: Vec<Step>,
    pub(crate) path: Vec<usize>,
}

impl<M: Columns> Tables<M> {
    // Tables of these many cells, whatever stands in them.
    pub(crate) fn new(heap: Global) -> Result<Tables<M>, AllocError>
        ensures arcs { IfOk result (λ t. vec_len t.arcs ≡ 1000) }
        ensures lengths { IfOk result (λ t. vec_len t.lengths ≡ 1000) }
        ensures values { IfOk result (λ t. vec_len t.values ≡ 2000) }
        ensures counts { IfOk result (λ t. vec_len t.counts ≡ 100) }
        ensures work { IfOk result (λ t. vec_len t.work ≡ 2000) }
        ensures path { IfOk result (λ t. vec_len t.path ≡ 2000) }
    {
        Ok(Tables {
            arcs: vec![in heap; Arc::default(); LIMITS.arcs]?,
            lengths: vec![in heap; M::null(); LIMITS.arcs]?,
            values: vec![in heap; M::null(); ROW_CELLS]?,
            counts: vec![in heap; 0; LIMITS.nodes]?,
            work: vec![in heap; Step::default(); ROW_CELLS]?,
            path: vec![in heap; 0; ROW_CELLS]?,
        })
    }

    // The lengths of a node's row.
    pub(crate) fn row(
        &self,
        heap: Global,
        settled: &Settled,
        node: usize,
    ) -> Result<Vec<M>, AllocError>
        ensures { (net : Net M) (k s : ℕ) (t : Table M) (arcs : List Arc) (lengths : List M) → SettledHolds M.Measure.algebra net k s t settled.now arcs lengths self.now.values.items self.now.counts.items → 1 ≤ node → node ≤ net.nodes → IfOk result (λ v. v.items ≡ take k (t node)) }
    {
        // place after place: the next is one past the row so far
        let mut row = Vec::new(heap);
        while let Some(length) = settled
            .length(&self.values, &self.counts, node, row.len() + 1)
            .unwrap_or(None)
        {
            row.push(length)?;
        }
        Ok(row)
    }
}
