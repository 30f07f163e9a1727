ghost use Rattle.std.specs.Prelude.{◌≤◌};

use sweeps::Order;
use tracing::Cursor;

// A session that takes arcs: for so many nodes, with so many arcs so far. No arc may end below `last`, where the last one
// ends: 0, below every end, before the first.
#[derive(Drop)]
pub struct Draft {
    pub(crate) nodes: usize,
    pub(crate) count: usize,
    pub(crate) last: usize,
    ghost ok: { (1 ≤ nodes) × (nodes ≤ 1000) × (count ≤ 10000) × (last ≤ nodes) },
}

// A session whose rows stand in the caller's tables; `null` tells whether a null circuit is reached.
#[derive(Drop)]
pub struct Settled {
    pub(crate) draft: Draft,
    pub(crate) order: Order,
    pub(crate) null: bool,
    ghost fits: { order.source ≤ draft.nodes },
}

// A settled session whose paths to a node are handed out, one at a time.
#[derive(Drop)]
pub struct Trace {
    pub(crate) settled: Settled,
    pub(crate) cursor: Cursor,
}
