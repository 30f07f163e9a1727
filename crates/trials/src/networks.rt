// Networks drawn at random.
use super::cost::Cost;
use super::random::Numbers;
use columns::Kind;
use std::alloc::{AllocError, Global};

#[derive(Clone, Copy)]
pub struct PlainArc {
    pub start: usize,
    pub end: usize,
    pub cost: Cost,
    pub open: bool,
}

// A network, and the order to solve it by. Its arcs stand by their ends.
#[derive(Drop)]
pub struct Network {
    pub kind: Kind,
    pub nodes: usize,
    pub k: usize,
    pub source: usize,
    pub arcs: Vec<PlainArc>,
}

// Small numbers: from `low` on, over `span` more.
#[derive(Clone, Copy)]
struct Range {
    low: i8,
    span: u8,
}

const ZERO: Range = Range { low: 0, span: 0 };

const ONE_UP: Range = Range { low: 1, span: 2 };

const ZERO_UP: Range = Range { low: 0, span: 1 };

const ZERO_UP_FAR: Range = Range { low: 0, span: 4 };

const SOME_BELOW: Range = Range { low: -1, span: 5 };

const HALF_BELOW: Range = Range { low: -2, span: 4 };

// How costs are drawn: both numbers from their ranges, and then more by what the arc climbs between nodes of heights up to
// `height`, all times `unit`. Heights leave the lengths of circuits as they are.
#[derive(Clone, Copy)]
struct Style {
    first: Range,
    second: Range,
    height: u8,
    unit: i64,
}

impl Style {
    fn drawn(numbers: &mut Numbers) -> Style {
        let (first, height, unit) = match numbers.up_to(13) {
            0 => (ONE_UP, 0, 1),
            1 => (ONE_UP, 5, 1),
            2 => (ONE_UP, 0, 250_000_000),
            3 | 4 => (ZERO_UP, 0, 1),
            5 | 6 => (ZERO_UP, 5, 1),
            7 => (ZERO_UP_FAR, 0, 1),
            8 => (ZERO_UP_FAR, 9, 1),
            9 | 10 => (SOME_BELOW, 0, 1),
            _ => (HALF_BELOW, 0, 1),
        };
        let second = match numbers.up_to(3) {
            0 => ZERO,
            1 => ZERO_UP,
            2 => ZERO_UP_FAR,
            _ => HALF_BELOW,
        };
        Style {
            first,
            second,
            height,
            unit,
        }
    }

    // The cost of an arc that climbs so high.
    fn cost(self, numbers: &mut Numbers, kind: Kind, climb: i64) -> Cost {
        let first = numbers.within(self.first.low, self.first.span);
        let second = if kind.width() == 2 {
            numbers.within(self.second.low, self.second.span)
        } else {
            0
        };
        let first = first.saturating_add(climb);
        Cost { first, second } * self.unit
    }
}

// A node other than this one, of so many. In the crate timing the numbers are of another type.
fn other_node(numbers: &mut Numbers, node: usize, nodes: usize) -> usize {
    let other = numbers.one_to(nodes.saturating_sub(1));
    if other < node {
        other
    } else {
        other.saturating_add(1)
    }
}

// The ends of up to three arcs a node, in order; none where there is one node.
fn arc_ends(heap: Global, numbers: &mut Numbers, nodes: usize) -> Result<Vec<usize>, AllocError> {
    let mut ends = Vec::new(heap);
    if nodes > 1 {
        let most = nodes.saturating_mul(3).saturating_add(1);
        for _ in 1..numbers.one_to(most).max(numbers.one_to(most)) {
            ends.push(numbers.one_to(nodes))?;
        }
    }
    ends.sort()?;
    Ok(ends)
}

// How many lengths the rows keep: from 1 to 20, and in half the networks at most 4.
fn row_width(numbers: &mut Numbers) -> usize {
    if numbers.up_to(1) == 0 {
        numbers.one_to(4)
    } else {
        numbers.one_to(20)
    }
}

impl Network {
    // One of up to 8 nodes; one arc in ten is closed.
    pub fn drawn(heap: Global, numbers: &mut Numbers, kind: Kind) -> Result<Network, AllocError> {
        let style = Style::drawn(numbers);
        let nodes = numbers.one_to(8).max(numbers.one_to(8));
        let mut heights = Vec::new(heap);
        for _ in 0..nodes {
            heights.push(numbers.within(0, style.height))?;
        }
        let ends = arc_ends(heap, numbers, nodes)?;
        let mut arcs = Vec::new(heap);
        for end in ends {
            let start = other_node(numbers, end, nodes);
            let climb = height(&heights, end).saturating_sub(height(&heights, start));
            let cost = style.cost(numbers, kind, climb);
            let open = numbers.up_to(9) > 0;
            arcs.push(PlainArc {
                start,
                end,
                cost,
                open,
            })?;
        }
        Ok(Network {
            kind,
            nodes,
            k: row_width(numbers),
            source: numbers.one_to(nodes),
            arcs,
        })
    }
}

fn height(heights: &[i64], node: usize) -> i64 {
    heights.get(node.saturating_sub(1)).copied().unwrap_or(0)
}
