// Whole lists of calls on a new session, with the entries of the log on the heap.
ghost use Rattle.std.specs.Prelude.{◌≡◌, ℕ, ◌≤◌, List, take, IfOk};
ghost use Rattle.journal.specs.Logs.{Sizes};
ghost use Rattle.journal.specs.Performs.{tables, sizes_of, logged};
ghost use Rattle.journal.specs.Replays.{shown, Replayed, ReplayEnds};

use super::faults::Fault;
use super::performing::perform;
use super::{Answer, Call, Stage};
use measure::Measure;
use session::{Arc, Draft, Step};
use std::alloc::{AllocError, Global};

// An entry of a log: a call, its answer, the cells of the rows that an accepted solve left, with their counts, and the arcs of the
// path that a next handed out. Cells with their counts beside, as the tables have them.
#[derive(Drop)]
pub struct Entry<M> {
    pub call: Call<M>,
    pub answer: Answer<M>,
    pub values: Vec<M>,
    pub counts: Vec<usize>,
    pub path: Vec<usize>,
}

// A copy of the first cells, of so many as there are.
fn first_cells<T: Copy>(heap: Global, cells: &[T], count: usize) -> Result<Vec<T>, AllocError>
    ensures { IfOk result (λ v. v.items ≡ take count cells.now) }
{
    Vec::from_slice(heap, &cells[..count.min(cells.len())])
}

// The entry for a call and its answer, with what the call left in the tables.
fn note<M: Measure>(
    heap: Global,
    nodes: usize,
    call: Call<M>,
    answer: Answer<M>,
    values: &[M],
    counts: &[usize],
    path: &[usize],
) -> Result<Entry<M>, AllocError>
    requires { nodes ≤ 1000 }
    ensures { IfOk result (λ e. (z : Sizes) (arcs : List Arc) (lengths : List M) (work : List Step) → shown z e ≡ logged nodes call answer z (tables arcs lengths values.now counts.now work path.now)) }
{
    let rows = answer.rows(nodes);
    let values = first_cells(heap, values, rows * call.width())?;
    let counts = first_cells(heap, counts, rows)?;
    let path = first_cells(heap, path, answer.arcs())?;
    Ok(Entry {
        call,
        answer,
        values,
        counts,
        path,
    })
}

// Makes the calls one after the other on a new session of so many nodes, and gives the entries of its log: one for each call that
// its stage takes.
pub fn replay<M: Measure>(
    heap: Global,
    nodes: usize,
    calls: &[Call<M>],
    arcs: &mut [Arc],
    lengths: &mut [M],
    values: &mut [M],
    counts: &mut [usize],
    work: &mut [Step],
    path: &mut [usize],
) -> Result<Vec<Entry<M>>, Fault>
    ensures { ReplayEnds nodes result (λ v. Replayed M.Measure.algebra nodes (sizes_of (tables arcs.old lengths.old values.old counts.old work.old path.old)) calls.now v.items (tables arcs.new lengths.new values.new counts.new work.new path.new)) }
{
    let mut stage = Stage::Drafting(Draft::new(nodes)?);
    let mut entries = Vec::new(heap);
    for call in calls {
        let (next, answer) = perform(stage, *call, arcs, lengths, values, counts, work, path);
        stage = next;
        if let Some(answer) = answer {
            entries.push(note(heap, nodes, *call, answer, values, counts, path)?)?;
        }
    }
    Ok(entries)
}
