// Any call on a session in any stage, and whole runs of calls: what is promised of every log.
#![tactic(auto)]

mod calls;
mod faults;
mod histories;
mod performing;
mod replaying;
mod running;
mod stages;

pub use calls::{Answer, Call};
pub use faults::Fault;
pub use histories::{
    arcs_are_closed_exactly, arcs_have_their_last_lengths, arcs_lead_as_put, rows_stay_exact,
};
pub use performing::perform;
pub use replaying::{Entry, replay};
pub use running::run;
pub use stages::Stage;
