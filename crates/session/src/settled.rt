// What a settled session answers.
ghost use Rattle.std.specs.Prelude.{◌≡◌, ℕ, ◌-◌, ◌≤◌, List};
ghost use Rattle.std.specs.List.{slice_get};
ghost use Rattle.sweeps.specs.Tables.{RowsHeld};
ghost use Rattle.walks.specs.Rows.{Table};
ghost use Rattle.session.specs.Nets.{Net};
ghost use Rattle.session.specs.Settled.{SettledHolds, Decided, length_verdict, length_answer, Emptied};

use super::{Draft, Settled};
use measure::Measure;
use sweeps::{Arc, Refusal, clear};

impl Settled {
    // The length at a place of a node's row, counted from 1; none if the row is shorter.
    pub fn length<M: Measure>(
        &self,
        values: &[M],
        counts: &[usize],
        node: usize,
        place: usize,
    ) -> Result<Option<M>, Refusal>
        ensures decided { Decided (length_verdict self.now.draft.nodes self.now.order.k node place) result }
        ensures meant { (net : Net M) (k s : ℕ) (t : Table M) (arcs : List Arc) (lengths : List M) → SettledHolds M.Measure.algebra net k s t self.now arcs lengths values.now counts.now → result ≡ length_answer M.Measure.algebra net.nodes k t node place }
    {
        if node == 0 || node > self.draft.nodes {
            return Err(Refusal::NoSuchNode);
        }
        if place == 0 || place > self.order.k {
            return Err(Refusal::NoSuchPlace);
        }
        if node > counts.len() || place > counts[node - 1] {
            return Ok(None);
        }
        Ok(values.get((node - 1) * self.order.k + (place - 1)).copied())
    }

    // Gives the draft back, with its arcs, and clears the rows.
    pub fn reopen<M: Measure>(self, values: &mut [M], counts: &mut [usize]) -> Draft
        ensures draft { result ≡ self.draft }
        ensures emptied { Emptied M.Measure.algebra self.draft.nodes self.order.k values.old counts.old values.new counts.new }
    {
        let Settled {
            draft,
            order,
            null: _,
        } = self;
        let cells = (draft.nodes * order.k).min(values.len());
        let nodes = draft.nodes.min(counts.len());
        clear(&mut values[..cells], &mut counts[..nodes]);
        draft
    }
}
