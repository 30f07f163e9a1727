// Solving: a draft becomes a settled session.
ghost use Rattle.std.specs.Prelude.{length};
ghost use Rattle.session.specs.Nets.{Net};
ghost use Rattle.session.specs.Drafts.{DraftHolds};
ghost use Rattle.session.specs.Solving.{SolveDone, SolveMeant, begin_verdict};

use super::{Draft, Settled};
use measure::Measure;
use sweeps::{Arc, Order, Refusal, Solved, solve};

impl Draft {
    // Fills the rows and settles, telling the passes and whether a null circuit is reached; or gives the draft back with the reason.
    pub fn solve<M: Measure>(
        self,
        order: Order,
        arcs: &[Arc],
        lengths: &[M],
        values: &mut [M],
        counts: &mut [usize],
    ) -> Result<(Settled, Solved), (Draft, Refusal)>
        ensures done { SolveDone M.Measure.algebra self order values.old counts.old result values.new counts.new }
        ensures meant { (net : Net M) → DraftHolds M.Measure.algebra net self arcs.now lengths.now → SolveMeant M.Measure.algebra net order.k order.source (begin_verdict net.nodes order.k order.source (length values.old) (length counts.old)) result arcs.now lengths.now values.new counts.new }
    {
        let (arcs, lengths) = self.parts(arcs, lengths);
        match solve(self.nodes, order, arcs, lengths, values, counts) {
            Ok(found) => {
                let settled = Settled {
                    draft: self,
                    order,
                    null: found.null,
                };
                Ok((settled, found))
            }
            Err(why) => Err((self, why)),
        }
    }
}
