// Reads a network file from standard input, solves and traces as its queries ask, and prints the answers.
#![tactic(auto)]

use answers::{LIMITS, answer_file};
use failure::Failure;
use std::io::Read;

fn main(rt: HostRuntime) -> Result<(), Failure> {
    let mut bytes = Vec::new(rt.alloc());
    rt.stdin()
        .take(LIMITS.bytes as u64 + 1)
        .read_to_end(&mut bytes)?;
    answer_file(&rt, bytes.as_slice())
}
