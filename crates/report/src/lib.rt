// The lines that a report prints, each by its exact bytes.
#![tactic(auto)]

mod lines;
mod refusals;

pub use lines::{end_line, goes_on, path_line, row_line, solve_line, trace_line};
pub use refusals::{file_refused_line, solve_refused_line, trace_refused_line, trace_skipped_line};
