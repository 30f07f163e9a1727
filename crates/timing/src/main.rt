// Solves two large networks and prints how many passes each takes; with the argument `clock` also how long.
#![tactic(auto)]

use measure::{Measure, Sum};
use session::{Arc, Draft, MOST_ARCS, Order};
use std::alloc::Global;
use std::env;
use std::time::Instant;

// The side of the grid.
const SIDE: usize = 24;

// The nodes of the scattered network.
const NODES: usize = 1000;

// How often each solve is timed.
const TURNS: u32 = 5;

// Numbers that look random, the same in every run. The crate trials has another generator; what each prints is pinned.
#[derive(Drop)]
struct Numbers {
    state: u64,
}

impl Numbers {
    // A number from 1 to `most`, or 1 for 0.
    fn up_to(&mut self, most: u32) -> u32 {
        self.state = self
            .state
            .wrapping_mul(6364136223846793005)
            .wrapping_add(1442695040888963407);
        (self.state >> 33) as u32 % most.max(1) + 1
    }

    // A length from 1 to 100.
    fn length(&mut self) -> Sum {
        Sum::new(i64::from(self.up_to(100)))
    }
}

// A network under construction, with its tables.
#[derive(Drop)]
struct Network {
    name: &'static str,
    nodes: usize,
    k: usize,
    draft: Draft,
    arcs: Vec<Arc>,
    lengths: Vec<Sum>,
}

impl Network {
    fn new(heap: Global, name: &'static str, nodes: usize, k: usize) -> anyhow::Result<Network> {
        Ok(Network {
            name,
            nodes,
            k,
            draft: Draft::new(nodes)?,
            arcs: vec![in heap; Arc::default(); MOST_ARCS]?,
            lengths: vec![in heap; Sum::null(); MOST_ARCS]?,
        })
    }

    fn put(&mut self, start: usize, end: usize, length: Sum) -> anyhow::Result<()> {
        self.draft
            .put(&mut self.arcs, &mut self.lengths, start, end, length)?;
        Ok(())
    }
}

// A street grid: arcs both ways between neighbours, by end and then by start.
fn grid(heap: Global) -> anyhow::Result<Network> {
    let mut network = Network::new(heap, "grid of 24 by 24", SIDE * SIDE, 10)?;
    let mut numbers = Numbers { state: 1974 };
    for row in 0..SIDE {
        for column in 0..SIDE {
            let end = row * SIDE + column + 1;
            let neighbours = [
                (row > 0).then_some(end.saturating_sub(SIDE)),
                (column > 0).then_some(end - 1),
                (column < SIDE - 1).then_some(end + 1),
                (row < SIDE - 1).then_some(end + SIDE),
            ];
            for neighbour in neighbours {
                if let Some(start) = neighbour {
                    network.put(start, end, numbers.length())?;
                }
            }
        }
    }
    Ok(network)
}

// Ten arcs into each node, from nodes taken at random.
fn scattered(heap: Global) -> anyhow::Result<Network> {
    let mut network = Network::new(heap, "1,000 nodes and 10,000 arcs", NODES, 20)?;
    let mut numbers = Numbers { state: 12 };
    for end in 1..=NODES {
        for _ in 0..10 {
            // a node other than the end; in the crate trials the numbers are of another type
            let other = numbers.up_to(999) as usize;
            let start = if other < end { other } else { other + 1 };
            network.put(start, end, numbers.length())?;
        }
    }
    Ok(network)
}

// The time of one pass of so many.
fn per_pass(micros: u128, passes: usize) -> u128 {
    micros.checked_div(passes as u128).unwrap_or(0)
}

// Solves the network from node 1 and prints what it took.
fn solve(rt: &HostRuntime, network: Network, clock: bool) -> anyhow::Result<()> {
    let Network {
        name,
        nodes,
        k,
        mut draft,
        arcs,
        lengths,
    } = network;
    let order = Order::new(k, 1)?;
    let mut values = vec![in rt.alloc(); Sum::null(); 20000]?;
    let mut counts = vec![in rt.alloc(); 0; 1000]?;
    let mut passes = 0;
    let start = Instant::now(rt)?;
    for _ in 0..TURNS {
        let (settled, solved) = draft
            .solve(order, &arcs, &lengths, &mut values, &mut counts)
            .map_err(|(_, why)| why)?;
        passes = solved.passes;
        draft = settled.reopen(&mut values, &mut counts);
    }
    let micros = start.elapsed(rt)?.as_micros() / u128::from(TURNS);
    println!(rt; "{name}, {nodes} nodes, K {k}: {passes} passes")?;
    if clock {
        let each = per_pass(micros, passes);
        println!(rt; "  {micros} microseconds a solve, {each} a pass")?;
    }
    Ok(())
}

fn main(rt: HostRuntime) -> anyhow::Result<()> {
    let clock = env::args(&rt)?.skip(1).any(|word| word.as_str() == "clock");
    solve(&rt, grid(rt.alloc())?, clock)?;
    solve(&rt, scattered(rt.alloc())?, clock)
}
