ghost use Rattle.std.specs.Prelude.{◌≡◌, ◌<◌, Some, None, MatchResult, OnOk};
ghost use Rattle.netfile.specs.Judging.{put_judged};

use super::Progress;
use super::fields::{arc_ends, arc_length};
use columns::Columns;
use session::MOST_ARCS;
use sweeps::{LONGEST, Refusal};

// Refuses the arc of this body if a session with tables of so many cells would not take it. The tests are those of a session's
// put, by one definition: a function for both would take eight numbers.
pub fn arc_refusal<M: Columns>(progress: Progress, cells: usize, body: &[u8]) -> Result<(), Refusal>
    ensures verdict { let verdict = put_judged M.Measure.algebra M.Columns.columnar progress cells body.now in MatchResult result (λ _. verdict ≡ None) (λ why. verdict ≡ Some why) }
    ensures room { OnOk result (progress.count < 10000) }
{
    let length = arc_length::<M>(body, progress.kind).ok_or(Refusal::TooLong)?;
    let (start, end) = arc_ends(body);
    let nodes = progress.nodes;
    if start == 0 || start > nodes || end == 0 || end > nodes {
        return Err(Refusal::ArcEnd);
    }
    if start == end {
        return Err(Refusal::SelfArc);
    }
    if end < progress.last {
        return Err(Refusal::ArcOrder);
    }
    if length.magnitude() > LONGEST {
        return Err(Refusal::TooLong);
    }
    if progress.count >= MOST_ARCS || progress.count >= cells {
        return Err(Refusal::TablesFull);
    }
    Ok(())
}
