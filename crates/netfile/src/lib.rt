// The network file: its records, which are parts of its bytes, and the reader that judges a file.
#![tactic(auto)]

mod arcs;
mod checking;
mod fields;
mod progress;
mod reader;
mod reason;
mod records;
mod steps;

pub use arcs::arc_refusal;
pub use checking::check;
pub use columns::Kind;
pub use fields::{arc_ends, arc_length, network_fields, query_fields, target_fields};
pub use progress::{Limits, Progress, Stage};
pub use reader::Reader;
pub use reason::{Fault, Reason};
pub use records::{Mark, Record, next_record};
pub use steps::step;
