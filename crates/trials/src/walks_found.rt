// All walks to a target whose lengths are in its row, found backward from the target.
use super::cost::{Cost, NULL};
use super::plain::Firsts;
use std::alloc::{AllocError, Global};

// The most endings looked at for one target.
const MOST_ENDINGS: usize = 3000;

// A walk by its arcs' numbers, the last arc first. Walks are ordered by cost, and then by the arcs from the last one backward.
#[derive(PartialEq, Eq, PartialOrd, Ord, Drop)]
pub struct Walk {
    pub cost: Cost,
    pub backward: Vec<usize>,
}

// The last part of a walk, from `node` on. An ending shares its later part with others, since most endings are never walks: a copy of
// each would take more than a third of a run.
#[derive(Clone, Copy)]
struct Ending {
    node: usize,
    cost: Cost,
    first: Option<First>,
}

// The first arc of an ending, and the place of the ending that it goes on by.
#[derive(Clone, Copy)]
struct First {
    arc: usize,
    rest: usize,
}

// The walks in order; none if there are too many to look at.
pub fn walks_found(
    heap: Global,
    firsts: &Firsts,
    target: usize,
    row: &[Cost],
) -> Result<Option<Vec<Walk>>, AllocError> {
    let mut walks = Vec::new(heap);
    let mut endings = Vec::new(heap);
    endings.push(Ending {
        node: target,
        cost: NULL,
        first: None,
    })?;
    for at in 0..MOST_ENDINGS {
        let Some(ending) = endings.get(at).copied() else {
            walks.sort()?;
            return Ok(Some(walks));
        };
        if ending.node == firsts.network.source && row.contains(&ending.cost) {
            walks.push(Walk {
                cost: ending.cost,
                backward: backward(heap, &endings, ending)?,
            })?;
        }
        lengthen(firsts, row, at, ending, &mut endings)?;
    }
    Ok(None)
}

// Adds each ending that is longer by one arc in front and that some walk within the row has.
fn lengthen(
    firsts: &Firsts,
    row: &[Cost],
    rest: usize,
    ending: Ending,
    endings: &mut Vec<Ending>,
) -> Result<(), AllocError> {
    for (i, arc) in firsts.network.arcs.iter().enumerate() {
        if arc.open && arc.end == ending.node {
            let cost = arc.cost + ending.cost;
            if let (Some(first), Some(last)) = (firsts.of(arc.start), row.last())
                && first + cost <= *last
            {
                let first = Some(First { arc: i + 1, rest });
                endings.push(Ending {
                    node: arc.start,
                    cost,
                    first,
                })?;
            }
        }
    }
    Ok(())
}

// The arcs of an ending, the last first.
fn backward(heap: Global, endings: &[Ending], ending: Ending) -> Result<Vec<usize>, AllocError> {
    let mut arcs = Vec::new(heap);
    let mut here = ending;
    for _ in 0..endings.len() {
        let Some(First { arc, rest }) = here.first else {
            break;
        };
        arcs.push(arc)?;
        if let Some(next) = endings.get(rest) {
            here = *next;
        }
    }
    arcs.reverse();
    Ok(arcs)
}
