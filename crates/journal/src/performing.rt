// One call on a session in any stage.
ghost use Rattle.std.specs.Prelude.{◌≡◌, ℕ, List, Some, MatchResult};
ghost use Rattle.std.specs.Result.{ForOk};
ghost use Rattle.journal.specs.Performs.{Went, tables};

use super::{Answer, Call, Stage};
use measure::Measure;
use session::{Arc, Draft, Order, Refusal, Settled, Solved, Step, Trace};

// Each table is a parameter of its own. With the slices in a struct, a call to which several of its fields are lent gets no proof,
// and each function would owe a clause for each field that it still holds the same slice.

// The answer to a call: that it is refused, or `answer` of what it gave.
fn told<T, M: Measure, F: FnOnce(T) -> Answer<M>>(given: Result<T, Refusal>, answer: F) -> Answer<M>
    requires { ForOk given (F.pre answer) }
    ensures { MatchResult given (λ x. F.post answer x result) (λ why. result ≡ Answer.Refused why) }
{
    match given {
        Ok(x) => answer(x),
        Err(why) => Answer::Refused(why),
    }
}

// A solve, lent so many cells of the value and count tables.
fn solve<M: Measure>(
    draft: Draft,
    order: Order,
    value_cells: usize,
    count_cells: usize,
    arcs: &[Arc],
    lengths: &[M],
    values: &mut [M],
    counts: &mut [usize],
) -> (Stage, Answer<M>)
    ensures { (work : List Step) (path : List ℕ) → Went M.Measure.algebra (Stage.Drafting draft) (tables arcs.now lengths.now values.old counts.old work path) (Call.Solve order value_cells count_cells) result.0 (Some result.1) (tables arcs.now lengths.now values.new counts.new work path) }
{
    let most_values = value_cells.min(values.len());
    let most_counts = count_cells.min(counts.len());
    match draft.solve(
        order,
        arcs,
        lengths,
        &mut values[..most_values],
        &mut counts[..most_counts],
    ) {
        Ok((settled, Solved { passes, null })) => {
            (Stage::Resting(settled), Answer::Solved { passes, null })
        }
        Err((draft, why)) => (Stage::Drafting(draft), Answer::Refused(why)),
    }
}

// Any call on a draft, whatever the work and path tables hold.
fn on_draft<M: Measure>(
    mut draft: Draft,
    call: Call<M>,
    arcs: &mut [Arc],
    lengths: &mut [M],
    values: &mut [M],
    counts: &mut [usize],
) -> (Stage, Option<Answer<M>>)
    ensures { (work : List Step) (path : List ℕ) → Went M.Measure.algebra (Stage.Drafting draft) (tables arcs.old lengths.old values.old counts.old work path) call result.0 result.1 (tables arcs.new lengths.new values.new counts.new work path) }
{
    let answer = match call {
        Call::Put { start, end, length } => told(
            draft.put(arcs, lengths, start, end, length),
            |number| Answer::Numbered(number),
        ),
        Call::Relength { arc, length } => {
            told(draft.relength(lengths, arc, length), |()| Answer::Done)
        }
        Call::Close { arc } => told(draft.close(arcs, arc), |()| Answer::Done),
        Call::Open { arc } => told(draft.open(arcs, arc), |()| Answer::Done),
        Call::Solve {
            order,
            values: value_cells,
            counts: count_cells,
        } => {
            let (stage, answer) = solve(
                draft,
                order,
                value_cells,
                count_cells,
                arcs,
                lengths,
                values,
                counts,
            );
            return (stage, Some(answer));
        }
        _ => return (Stage::Drafting(draft), None),
    };
    (Stage::Drafting(draft), Some(answer))
}

// Any call on a settled session, whatever the arc and length tables hold. A trace is lent so many cells of the work and path tables.
fn on_settled<M: Measure>(
    settled: Settled,
    call: Call<M>,
    values: &mut [M],
    counts: &mut [usize],
    work: &[Step],
    path: &[usize],
) -> (Stage, Option<Answer<M>>)
    ensures { (arcs : List Arc) (lengths : List M) → Went M.Measure.algebra (Stage.Resting settled) (tables arcs lengths values.old counts.old work.now path.now) call result.0 result.1 (tables arcs lengths values.new counts.new work.now path.now) }
{
    match call {
        Call::Length { node, place } => {
            let answer = told(settled.length(values, counts, node, place), Answer::Value);
            (Stage::Resting(settled), Some(answer))
        }
        Call::Trace {
            target,
            work: work_cells,
            path: path_cells,
        } => {
            let most_work = work_cells.min(work.len());
            let most_path = path_cells.min(path.len());
            match settled.trace(target, &work[..most_work], &path[..most_path]) {
                Ok(trace) => (Stage::Tracing(trace), Some(Answer::Done)),
                Err((settled, why)) => (Stage::Resting(settled), Some(Answer::Refused(why))),
            }
        }
        Call::Reopen => (
            Stage::Drafting(settled.reopen(values, counts)),
            Some(Answer::Done),
        ),
        _ => (Stage::Resting(settled), None),
    }
}

// Any call on an open trace.
fn on_trace<M: Measure>(
    mut trace: Trace,
    call: Call<M>,
    arcs: &[Arc],
    lengths: &[M],
    values: &[M],
    counts: &[usize],
    work: &mut [Step],
    path: &mut [usize],
) -> (Stage, Option<Answer<M>>)
    ensures { Went M.Measure.algebra (Stage.Tracing trace) (tables arcs.now lengths.now values.now counts.now work.old path.old) call result.0 result.1 (tables arcs.now lengths.now values.now counts.now work.new path.new) }
{
    match call {
        Call::Next => match trace.next(arcs, lengths, values, counts, work, path) {
            Some((count, length)) => (Stage::Tracing(trace), Some(Answer::Path { count, length })),
            None => (Stage::Tracing(trace), Some(Answer::NoPath)),
        },
        Call::Finish => (Stage::Resting(trace.finish()), Some(Answer::Done)),
        _ => (Stage::Tracing(trace), None),
    }
}

// Makes any call on a session in any stage. One that the stage does not take has no answer and changes nothing; after every log that
// leads to this session and these tables the answer is right.
pub fn perform<M: Measure>(
    stage: Stage,
    call: Call<M>,
    arcs: &mut [Arc],
    lengths: &mut [M],
    values: &mut [M],
    counts: &mut [usize],
    work: &mut [Step],
    path: &mut [usize],
) -> (Stage, Option<Answer<M>>)
    ensures { Went M.Measure.algebra stage (tables arcs.old lengths.old values.old counts.old work.old path.old) call result.0 result.1 (tables arcs.new lengths.new values.new counts.new work.new path.new) }
{
    // a match, since the stages are types of their own
    match stage {
        Stage::Drafting(draft) => on_draft(draft, call, arcs, lengths, values, counts),
        Stage::Resting(settled) => on_settled(settled, call, values, counts, work, path),
        Stage::Tracing(trace) => on_trace(trace, call, arcs, lengths, values, counts, work, path),
    }
}
