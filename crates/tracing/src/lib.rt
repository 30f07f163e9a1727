// The paths to a node, one after another, read out of a settled session's tables.
#![tactic(auto)]

mod blocks;
mod calls;
mod labels;
mod lent;
mod nexts;
#[cfg(test)]
mod tests;
mod theorems;
mod turns;

pub use theorems::{paths_are_an_initial_segment, solves_can_be_traced};

// A level of a path that is traced backward: the arc used there, and the place, in the row of its start, of the length that it came from.
#[derive(Clone, Copy, PartialEq, Eq, Default, Debug)]
pub struct Step {
    pub arc: usize,
    pub place: usize,
}

// A path that was handed out: the place of its length in the target's row, and the number of its arcs.
#[derive(Clone, Copy)]
pub(crate) struct Handed {
    pub(crate) place: usize,
    pub(crate) depth: usize,
}

// Where a trace to a node stands: the path handed out last, if there is one.
#[derive(Clone, Copy)]
pub struct Cursor {
    pub(crate) target: usize,
    pub(crate) last: Option<Handed>,
}
