// Reads a written list of calls, makes them on a new session and prints the log.
#![tactic(auto)]

use columns::Columns;
use failure::Failure;
use journal::{Call, Fault, replay};
use measure::{Reversed, Sum, Then};
use routes::Kind;
use session::{Arc, Step};
use std::io::Read;

mod printing;
mod reading;

use printing::print_entry;
use reading::{LineError, read_header, read_line};

// Cells of the arc and length tables, and of the tables of rows and paths: enough for 100 nodes and K 20.
const ARCS: usize = 1000;

const CELLS: usize = 2000;

const NODES: usize = 100;

// The calls of the lines after the first; a line that is no call gets a message with its number.
fn read_calls<M: Columns>(rt: &HostRuntime, text: &str) -> Result<Vec<Call<M>>, Failure> {
    let mut calls = Vec::new(rt.alloc());
    for (number, line) in (1usize..).zip(text.lines()).skip(1) {
        match read_line(rt.alloc(), line) {
            Ok(Some(call)) => calls.push(call)?,
            Ok(None) => {}
            Err(LineError::Order(why)) => {
                println!(rt; "line {number}: order refused {}", why.number())?
            }
            Err(LineError::Unknown) => println!(rt; "line {number}: no call: {line}")?,
            Err(LineError::Memory) => return Err(Failure::OutOfMemory),
        }
    }
    Ok(calls)
}

// Makes the calls on a new session and prints what came of each.
fn play<M: Columns>(rt: &HostRuntime, nodes: usize, text: &str) -> Result<(), Failure> {
    let heap = rt.alloc();
    let calls = read_calls::<M>(rt, text)?;
    // no struct for the tables, since they are lent once
    let mut arcs = vec![in heap; Arc::default(); ARCS]?;
    let mut lengths = vec![in heap; M::null(); ARCS]?;
    let mut values = vec![in heap; M::null(); CELLS]?;
    let mut counts = vec![in heap; 0; NODES]?;
    let mut work = vec![in heap; Step::default(); CELLS]?;
    let mut path = vec![in heap; 0; CELLS]?;
    match replay(
        heap,
        nodes,
        &calls,
        &mut arcs,
        &mut lengths,
        &mut values,
        &mut counts,
        &mut work,
        &mut path,
    ) {
        Ok(entries) => {
            for entry in entries.iter() {
                print_entry(rt, entry)?;
            }
        }
        Err(Fault::Declined(why)) => println!(rt; "session refused {}", why.number())?,
        Err(_) => return Err(Failure::OutOfMemory),
    }
    Ok(())
}

// Plays the list with the kind of lengths that its first line names: one arm for each, since each is a type of its own.
fn run(rt: &HostRuntime) -> Result<(), Failure> {
    let mut text = String::new(rt.alloc());
    rt.stdin().read_to_string(&mut text)?;
    let text = text.as_str();
    match text.lines().next().and_then(read_header) {
        Some((nodes, Kind::Sum)) => play::<Sum>(rt, nodes, text),
        Some((nodes, Kind::ReversedSum)) => play::<Reversed<Sum>>(rt, nodes, text),
        Some((nodes, Kind::SumThenSum)) => play::<Then<Sum, Sum>>(rt, nodes, text),
        Some((nodes, Kind::SumThenReversed)) => play::<Then<Sum, Reversed<Sum>>>(rt, nodes, text),
        None => {
            println!(rt;
                "line 1: no network: write the number of nodes and the kind, as 'network 5 money then minutes'"
            )?;
            Ok(())
        }
    }
}

fn main(rt: HostRuntime) -> Result<(), Failure> {
    run(&rt)
}
