// The arcs into a node: they stand together, since ends do not descend along the arc table.
ghost use Rattle.tracing.specs.Labels.{read, Splits, Sorted, Further};

use super::Step;
use super::labels::Label;
use super::lent::Lent;
use measure::Measure;
use sweeps::Arc;

// The number of arcs that end below a node, which are the first ones.
fn before_node(arcs: &[Arc], node: usize) -> usize
    ensures { Splits arcs.now node result }
{
    arcs.partition_point(|arc| (arc.end as usize) < node)
}

impl<M: Measure> Lent<'_, M> {
    // The lowest arc above a number that leads back from a label.
    pub fn further(&self, label: Label, above: usize) -> Option<Step>
        ensures { Sorted (read self.now) → Further M.Measure.algebra (read self.now) label above result }
    {
        let here = self.value(label)?;
        let from = above.max(before_node(self.arcs, label.node));
        // By index: an arc's number is its place in two tables, so an iterator would be a zip, enumerated and skipped.
        for i in from..self.arcs.len() {
            let arc = self.arcs[i];
            if arc.end as usize != label.node {
                return None;
            }
            if let Some(place) = self.link(arc, self.lengths[i], label.node, here) {
                return Some(Step { arc: i + 1, place });
            }
        }
        None
    }
}
