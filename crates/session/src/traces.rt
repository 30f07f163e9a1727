// Tracing: the paths to a node, in order.
ghost use Rattle.std.specs.Prelude.{◌≡◌, ℕ, List, length};
ghost use Rattle.walks.specs.Rows.{Table};
ghost use Rattle.session.specs.Nets.{Net};
ghost use Rattle.session.specs.Settled.{SettledHolds};
ghost use Rattle.session.specs.Traces.{trace_verdict, TraceDone, TraceMeant, TraceHolds, NextDone, NextMeant};

use super::{Settled, Trace};
use measure::Measure;
use sweeps::{Arc, Refusal};
use tracing::{Cursor, Step};

impl Settled {
    // Opens a trace of the paths to a node; or gives the session back with the reason.
    pub fn trace(
        self,
        target: usize,
        work: &[Step],
        path: &[usize],
    ) -> Result<Trace, (Settled, Refusal)>
        ensures { TraceDone (trace_verdict self.draft.nodes self.order.k self.null target (length work.now) (length path.now)) self target result }
    {
        if target == 0 || target > self.draft.nodes {
            return Err((self, Refusal::NoSuchNode));
        }
        if self.null {
            return Err((self, Refusal::NullCircuit));
        }
        let cells = self.draft.nodes * self.order.k;
        if work.len() < cells || path.len() < cells {
            return Err((self, Refusal::ShortTraceTables));
        }
        Ok(Trace {
            settled: self,
            cursor: Cursor::new(target),
        })
    }
}

impl Trace {
    // Hands out the next path: its arc numbers, from the source on, into the first cells of the path table; answers how many
    // they are and the path's length. None when no path is left.
    pub fn next<M: Measure>(
        &mut self,
        arcs: &[Arc],
        lengths: &[M],
        values: &[M],
        counts: &[usize],
        work: &mut [Step],
        path: &mut [usize],
    ) -> Option<(usize, M)>
        ensures done { NextDone M.Measure.algebra self.old work.old path.old result self.new work.new path.new }
        ensures meant { (net : Net M) (k s : ℕ) (t : Table M) (target : ℕ) (handed : List (List ℕ)) → TraceHolds M.Measure.algebra net k s t target handed self.old arcs.now lengths.now values.now counts.now work.old path.old → NextMeant M.Measure.algebra net k s t target handed result self.new arcs.now lengths.now values.now counts.now work.new path.new }
    {
        let Settled { draft, order, .. } = &self.settled;
        let (arcs, lengths) = draft.parts(arcs, lengths);
        self.cursor.next(
            draft.nodes,
            *order,
            arcs,
            lengths,
            values,
            counts,
            work,
            path,
        )
    }

    // Gives the settled session back.
    pub fn finish(self) -> Settled
        ensures { result ≡ self.settled }
    {
        let Trace { settled, cursor: _ } = self;
        settled
    }
}
