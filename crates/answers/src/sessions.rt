use session::{Draft, Settled};

// A session between two records: a draft, or settled by a query from this source.
#[derive(Drop)]
pub(crate) enum Session {
    Draft(Draft),
    Solved(Settled, usize),
}
