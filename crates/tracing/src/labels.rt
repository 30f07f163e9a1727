// Labels, and the arcs that lead back from one to another.
ghost use Rattle.std.specs.Prelude.{◌≡◌};
ghost use Rattle.sweeps.specs.Tables.{Whether};
ghost use Rattle.tracing.specs.Labels.{read, lab, RowOf, Comes, Valued, Linked, Home};

use super::Step;
use super::lent::Lent;
use measure::Measure;
use sweeps::Arc;

// Whether a length joined with that of an arc is another.
fn comes<M: Measure>(there: &M, x: &M, here: &M) -> bool
    ensures { Whether result (Comes M.Measure.algebra there.now x.now here.now) }
{
    there.join(x).is_some_and(|sum| sum.compare(here).is_eq())
}

// A node and a place in its row.
#[derive(Clone, Copy)]
pub struct Label {
    pub node: usize,
    pub place: usize,
}

impl<M: Measure> Lent<'_, M> {
    // The length at a label: a session's own length counts places from 1 and refuses what is none.
    pub fn value(&self, label: Label) -> Option<M>
        ensures { Valued M.Measure.algebra (read self.now) label result }
    {
        let Label { node, place } = label;
        let k = self.order.k;
        if node == 0 || node > self.nodes || place >= k || place >= self.counts[node - 1] {
            return None;
        }
        Some(self.values[(node - 1) * k + place])
    }

    // The lengths in a node's row: none of what is no node.
    fn row(&self, node: usize) -> &[M]
        ensures { RowOf M.Measure.algebra (read self.now) node result.now }
    {
        if node == 0 || node > self.nodes {
            return &[];
        }
        let k = self.order.k;
        let first = (node - 1) * k;
        &self.values[first..first + self.counts[node - 1].min(k)]
    }

    // The place, in the row of the arc's start, of the length that comes over the arc to the length `here` of a node.
    pub fn link(&self, arc: Arc, x: M, node: usize, here: M) -> Option<usize>
        ensures { Linked M.Measure.algebra (read self.now) arc x node here result }
    {
        if !arc.open || arc.end as usize != node {
            return None;
        }
        self.row(arc.start as usize)
            .iter()
            .position(|there| comes(there, &x, &here))
    }

    // Whether a label is null at the source.
    pub fn home(&self, label: Label) -> bool
        ensures { Whether result (Home M.Measure.algebra (read self.now) label) }
    {
        label.node == self.order.source
            && self
                .value(label)
                .is_some_and(|x| x.compare(&M::null()).is_eq())
    }

    // The label that a step leads back to. A step of the caller's table may name no arc: then to node 0, which has no lengths.
    pub fn back(&self, step: Step) -> Label
        ensures { result ≡ lab self.now.arcs.now step }
    {
        let node = if step.arc == 0 || step.arc > self.arcs.len() {
            0
        } else {
            self.arcs[step.arc - 1].start as usize
        };
        Label {
            node,
            place: step.place,
        }
    }
}
