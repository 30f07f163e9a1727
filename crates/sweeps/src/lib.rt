// The solve: orders, arc records, refusals, and sweeps over the caller's tables.
#![tactic(auto)]

mod firsts;
mod inspection;
mod inward;
mod nodes;
mod nulls;
mod order;
mod orders;
mod passes;
mod refusal;
mod rows;
mod settling;
mod solving;
mod tables;

pub use inspection::LONGEST;
pub use order::Order;
pub use orders::{MOST_NODES, WIDEST};
pub use refusal::Refusal;
pub use solving::solve;
pub use tables::clear;

// An arc's two ends, and whether walks may take it.
#[derive(Clone, Copy, PartialEq, Eq, Default, Debug)]
pub struct Arc {
    pub start: u32,
    pub end: u32,
    pub open: bool,
}

// What a solve found besides the rows: how many passes it took, and whether a null circuit is reached.
#[derive(Clone, Copy, PartialEq, Eq, Debug)]
pub struct Solved {
    pub passes: usize,
    pub null: bool,
}
