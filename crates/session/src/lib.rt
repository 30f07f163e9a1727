// Sessions: a draft takes arcs, and a settled session answers lengths. The tables are the caller's and are lent to each call.
#![tactic(auto)]

mod draft;
mod settled;
mod solving;
mod stages;
mod traces;

pub use draft::MOST_ARCS;
pub use stages::{Draft, Settled, Trace};
pub use sweeps::{Arc, Order, Refusal, Solved};
pub use tracing::Step;
