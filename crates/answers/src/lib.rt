// The answers to a network file: its check, and for each of its queries the solve and the traces, printed.
#![tactic(auto)]

use measure::{Reversed, Sum, Then};
use netfile::{Kind, Limits, check};
use report::file_refused_line;

mod answers;
mod paths;
mod sessions;
mod tables;

use answers::answer;
pub use failure::Failure;

// The largest file, the most nodes, and the cells of the arc table.
pub const LIMITS: Limits = Limits {
    bytes: 32768,
    nodes: 100,
    arcs: 1000,
};

// Checks a file whole, and then prints the answers to its queries; or prints why it is refused. Each arm names a type: a visitor
// over the kinds would need a trait, and a struct at each place that asks for one.
pub fn answer_file(rt: &HostRuntime, file: &[u8]) -> Result<(), Failure> {
    match check(file, LIMITS) {
        Ok(end) => match end.kind {
            Kind::Sum => answer::<Sum>(rt, file, end.nodes),
            Kind::ReversedSum => answer::<Reversed<Sum>>(rt, file, end.nodes),
            Kind::SumThenSum => answer::<Then<Sum, Sum>>(rt, file, end.nodes),
            Kind::SumThenReversed => answer::<Then<Sum, Reversed<Sum>>>(rt, file, end.nodes),
        },
        Err(fault) => {
            rt.println(file_refused_line(rt.alloc(), fault.reason.number(), fault.at)?)?;
            Ok(())
        }
    }
}
