// Passes until nothing changes.
ghost use Rattle.std.specs.Prelude.{◌≡◌, ◌*◌, ◌≤◌, length};
ghost use Rattle.sweeps.specs.Passes.{Settled};
ghost use Rattle.sweeps.specs.Inwards.{net_of};

use super::firsts::Rows;
use super::inward::Inward;
use super::order::Order;
use super::tables::clear;
use measure::Measure;

// The first pass that may end a solve.
const EARLIEST: usize = 2;

impl<M: Measure> Inward<'_, M> {
    // Fills the rows, and says after how many passes they were at rest; or clears them, and says none. Without a circuit before null
    // the first lengths are at rest after as many passes as there are nodes: if an arc still lags then, the solve is refused there.
    pub fn settle(&self, order: Order, values: &mut [M], counts: &mut [usize]) -> Option<usize>
        requires source { order.source ≤ self.now.nodes }
        requires cells { length values.old ≡ self.now.nodes * order.k }
        requires held { length counts.old ≡ self.now.nodes }
        ensures { Settled M.Measure.algebra (net_of M.Measure.algebra self.now) order.k order.source result values.new counts.new }
    {
        clear(values, counts);
        counts[order.source - 1] = 1;
        let most = 2 * (self.nodes * order.k + 1);
        // passes are counted: they alternate, and the answer is their number
        for done in 1..=most {
            let changed = self.pass(done % 2 == 1, order.k, values, counts);
            if done >= EARLIEST && !changed {
                return Some(done);
            }
            if done == self.nodes {
                let rows = Rows {
                    // lent again, since the checker does not take `self` for a shorter life by itself
                    net: &*self,
                    k: order.k,
                    values,
                    counts,
                };
                if rows.lagging() {
                    break;
                }
            }
        }
        clear(values, counts);
        None
    }
}
