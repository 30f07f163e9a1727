// The next path, in the work table and then in the path table.
ghost use Rattle.std.specs.Prelude.{◌≤◌, length};
ghost use Rattle.tracing.specs.Labels.{read};
ghost use Rattle.tracing.specs.Nexts.{Opened, Advanced, Written};

use super::labels::Label;
use super::lent::Lent;
use super::{Handed, Step};
use measure::Measure;

impl<M: Measure> Lent<'_, M> {
    // Finds the first path of the length at a label, if there is a length.
    fn open(&self, at: Label, work: &mut [Step]) -> Option<Handed>
        ensures { Opened M.Measure.algebra (read self.now) at work.old work.new result }
    {
        self.value(at)?;
        let depth = self.descend(at, work)?;
        Some(Handed {
            place: at.place,
            depth,
        })
    }

    // Finds the path to a node after the last one, or the first.
    pub fn advance(&self, node: usize, last: Option<Handed>, work: &mut [Step]) -> Option<Handed>
        ensures { Advanced M.Measure.algebra (read self.now) node last work.old work.new result }
    {
        let Some(Handed { place, depth }) = last else {
            return self.open(Label { node, place: 0 }, work);
        };
        if depth > work.len() || place >= self.order.k {
            return None;
        }
        match self.turn(Label { node, place }, depth, work) {
            Some(kept) => {
                let at = self.back(work[kept - 1]);
                let more = self.descend(at, &mut work[kept..])?;
                Some(Handed {
                    place,
                    depth: kept + more,
                })
            }
            None => self.open(
                Label {
                    node,
                    place: place + 1,
                },
                work,
            ),
        }
    }
}

// Writes the arcs of a path from the source on.
pub fn write_path(steps: &[Step], path: &mut [usize])
    requires { length steps.now ≤ length path.old }
    ensures { Written steps.now path.old path.new }
{
    // by number: of cells zipped by `iter_mut` nothing is known afterwards
    for (i, step) in steps.iter().rev().enumerate() {
        path[i] = step.arc;
    }
}
