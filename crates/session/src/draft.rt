// What a draft takes: arcs, other lengths for them, and marks.
ghost use Rattle.std.specs.Prelude.{◌≡◌, true, false, min, List, length, take};
ghost use Rattle.session.specs.Nets.{Net};
ghost use Rattle.session.specs.Drafts.{DraftHolds, NewDraft, PutDone, PutMeant, MarkDone, RelengthDone, RelengthMeant};

use super::Draft;
use measure::Measure;
use sweeps::{Arc, LONGEST, MOST_NODES, Refusal};

// The most arcs of a session.
pub const MOST_ARCS: usize = 10000;

impl Draft {
    // A draft for so many nodes, without arcs.
    pub fn new(nodes: usize) -> Result<Draft, Refusal>
        ensures { NewDraft nodes result }
    {
        if nodes == 0 || nodes > MOST_NODES {
            return Err(Refusal::NodeCount);
        }
        Ok(Draft {
            nodes,
            count: 0,
            last: 0,
        })
    }

    // Takes an arc, open, and answers its number. Arcs come with ends that do not descend. No struct for start, end and length: a
    // caller would build one for this call alone.
    pub fn put<M: Measure>(
        &mut self,
        arcs: &mut [Arc],
        lengths: &mut [M],
        start: usize,
        end: usize,
        length: M,
    ) -> Result<usize, Refusal>
        ensures done { PutDone M.Measure.algebra self.old arcs.old lengths.old start end length result self.new arcs.new lengths.new }
        ensures meant { (net : Net M) → DraftHolds M.Measure.algebra net self.old arcs.old lengths.old → PutMeant M.Measure.algebra net start end length result self.new arcs.new lengths.new }
    {
        if start == 0 || start > self.nodes || end == 0 || end > self.nodes {
            return Err(Refusal::ArcEnd);
        }
        if start == end {
            return Err(Refusal::SelfArc);
        }
        if end < self.last {
            return Err(Refusal::ArcOrder);
        }
        if length.magnitude() > LONGEST {
            return Err(Refusal::TooLong);
        }
        let at = self.count;
        if at >= MOST_ARCS || at >= arcs.len() || at >= lengths.len() {
            return Err(Refusal::TablesFull);
        }
        arcs[at] = Arc {
            start: start as u32,
            end: end as u32,
            open: true,
        };
        lengths[at] = length;
        self.count = at + 1;
        self.last = end;
        Ok(at + 1)
    }

    // Gives an arc another length.
    pub fn relength<M: Measure>(
        &self,
        lengths: &mut [M],
        arc: usize,
        length: M,
    ) -> Result<(), Refusal>
        ensures done { RelengthDone M.Measure.algebra self.now lengths.old arc length result lengths.new }
        ensures meant { (net : Net M) (arcs : List Arc) → DraftHolds M.Measure.algebra net self.now arcs lengths.old → RelengthMeant M.Measure.algebra net arc length result self.now arcs lengths.new }
    {
        if arc == 0 || arc > self.count || arc > lengths.len() {
            return Err(Refusal::NoSuchArc);
        }
        if length.magnitude() > LONGEST {
            return Err(Refusal::TooLong);
        }
        lengths[arc - 1] = length;
        Ok(())
    }

    // Closes an arc: no walk takes it. Closing a closed arc changes nothing.
    pub fn close(&self, arcs: &mut [Arc], arc: usize) -> Result<(), Refusal>
        ensures { MarkDone self.now arcs.old arc false result arcs.new }
    {
        self.mark(arcs, arc, false)
    }

    // Opens an arc. Opening an open arc changes nothing.
    pub fn open(&self, arcs: &mut [Arc], arc: usize) -> Result<(), Refusal>
        ensures { MarkDone self.now arcs.old arc true result arcs.new }
    {
        self.mark(arcs, arc, true)
    }

    fn mark(&self, arcs: &mut [Arc], arc: usize, open: bool) -> Result<(), Refusal>
        ensures { MarkDone self.now arcs.old arc «open» result arcs.new }
    {
        // The test of `relength`, of the arc table: a method for both, with its contract, would be longer.
        if arc == 0 || arc > self.count || arc > arcs.len() {
            return Err(Refusal::NoSuchArc);
        }
        arcs[arc - 1].open = open;
        Ok(())
    }

    // The parts of the arc and length tables that hold the draft's arcs.
    pub(crate) fn parts<'a, M: Measure>(
        &self,
        arcs: &'a [Arc],
        lengths: &'a [M],
    ) -> (&'a [Arc], &'a [M])
        ensures value { let most = min (min self.now.count (length arcs.now)) (length lengths.now) in (result.0.now ≡ take most arcs.now) × (result.1.now ≡ take most lengths.now) }
        ensures meant { (net : Net M) → DraftHolds M.Measure.algebra net self.now arcs.now lengths.now → (result.0.now ≡ net.arcs) × (result.1.now ≡ net.lengths) }
    {
        let most = self.count.min(arcs.len()).min(lengths.len());
        (&arcs[..most], &lengths[..most])
    }
}
