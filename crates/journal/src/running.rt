// Whole lists of calls on a new session, without the heap.
ghost use Rattle.std.specs.Prelude.{◌≡◌, ◌<◌, length, take, slice_set};
ghost use Rattle.journal.specs.Performs.{tables, sizes_of};
ghost use Rattle.journal.specs.Runs.{RunEnds, RunFrame, Ran};

use super::faults::Fault;
use super::performing::perform;
use super::{Answer, Call, Stage};
use measure::Measure;
use session::{Arc, Draft, Step};

// Writes x into a cell. A function of its own: at cells of `Option<Answer<M>>` it stays open that a cell's place fits, and of cells
// zipped by `iter_mut` nothing is known afterwards.
fn store<T: Copy>(cells: &mut [T], i: usize, x: T)
    requires { i < length cells.old }
    ensures { cells.new ≡ slice_set cells.old i x }
{
    cells[i] = x;
}

// Makes the calls one after the other on a new session of so many nodes, and writes the answer to each; one that its stage does
// not take has none.
pub fn run<M: Measure>(
    nodes: usize,
    calls: &[Call<M>],
    answers: &mut [Option<Answer<M>>],
    arcs: &mut [Arc],
    lengths: &mut [M],
    values: &mut [M],
    counts: &mut [usize],
    work: &mut [Step],
    path: &mut [usize],
) -> Result<(), Fault>
    ensures ends { RunEnds nodes (length calls.now) (length answers.old) result (Ran M.Measure.algebra nodes (sizes_of (tables arcs.old lengths.old values.old counts.old work.old path.old)) calls.now (take (length calls.now) answers.new) (tables arcs.new lengths.new values.new counts.new work.new path.new)) }
    ensures frame { RunFrame (length calls.now) answers.old (tables arcs.old lengths.old values.old counts.old work.old path.old) result answers.new (tables arcs.new lengths.new values.new counts.new work.new path.new) }
{
    let draft = Draft::new(nodes)?;
    if answers.len() < calls.len() {
        return Err(Fault::ShortAnswers);
    }
    // as in `replay`, whose answers go onto the heap; what both keep is one set of lemmas
    let mut stage = Stage::Drafting(draft);
    for (i, call) in calls.iter().enumerate() {
        let (next, answer) = perform(stage, *call, arcs, lengths, values, counts, work, path);
        stage = next;
        store(answers, i, answer);
    }
    Ok(())
}
