ghost use Rattle.std.specs.Prelude.{◌≡◌, ◌∷◌, IfOk};
ghost use Rattle.answers.specs.Paths.{end_of, ends_of};

use session::Arc;
use std::alloc::{AllocError, Global};
use std::iter;

// The node that an arc leads to, by the arc's number; where there is no such arc 0, which is no node, so that a path keeps its size.
fn arc_end(arcs: &[Arc], number: usize) -> usize
    ensures { result ≡ end_of arcs.now number }
{
    number
        .checked_sub(1)
        .and_then(|at| arcs.get(at))
        .map_or(0, |arc| arc.end as usize)
}

// The nodes of a path from the source, by the numbers of its arcs.
pub(crate) fn path_nodes(
    heap: Global,
    source: usize,
    arcs: &[Arc],
    path: &[usize],
) -> Result<Vec<usize>, AllocError>
    ensures { IfOk result (λ v. v.items ≡ source ∷ ends_of arcs.now path.now) }
{
    iter::once(source)
        .chain(path.iter().map(|number| arc_end(arcs, *number)))
        .collect(heap)
}
