// The two loops of a next: drop levels from the far end of the last path, and go on to the source.
ghost use Rattle.std.specs.Prelude.{◌≡◌, ◌≤◌, length};
ghost use Rattle.tracing.specs.Labels.{read};
ghost use Rattle.tracing.specs.Steps.{end_of, Descended, Turned};

use super::Step;
use super::labels::Label;
use super::lent::Lent;
use measure::Measure;

impl<M: Measure> Lent<'_, M> {
    // Goes back from a label to the source, over the lowest arc at each level, and tells how many levels there are.
    pub fn descend(&self, from: Label, work: &mut [Step]) -> Option<usize>
        ensures { Descended M.Measure.algebra (read self.now) from work.new result }
    {
        let mut here = from;
        // by number, since the depth is the answer
        for depth in 0..work.len() {
            if self.home(here) {
                return Some(depth);
            }
            let step = self.further(here, 0)?;
            work[depth] = step;
            here = self.back(step);
        }
        self.home(here).then_some(work.len())
    }

    // The label that steps lead back to from a label.
    fn end(&self, from: Label, steps: &[Step]) -> Label
        ensures { result ≡ end_of self.now.arcs.now from steps.now }
    {
        match steps {
            [] => from,
            [.., last] => self.back(*last),
        }
    }

    // Drops levels until one has a further arc, takes that, and tells how many levels there are then.
    pub fn turn(&self, from: Label, depth: usize, work: &mut [Step]) -> Option<usize>
        requires { depth ≤ length work.old }
        ensures { Turned M.Measure.algebra (read self.now) from depth work.old work.new result }
    {
        // by number, since the levels below it are read too
        for i in (0..depth).rev() {
            let at = self.end(from, &work[..i]);
            if let Some(step) = self.further(at, work[i].arc) {
                work[i] = step;
                return Some(i + 1);
            }
        }
        None
    }
}
