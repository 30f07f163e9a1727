// Networks drawn at random, solved by the operator and by a second solver, and every answer compared.
#![tactic(auto)]

use columns::{Columns, Kind};
use measure::{Reversed, Sum, Then};

mod comparing;
mod cost;
mod networks;
mod operator;
mod plain;
mod random;
mod tally;
mod walks_found;

use comparing::compare;
use networks::Network;
use random::Numbers;
use tally::Tally;

// How many networks of each kind there are.
const EACH: u64 = 1000;

// Compares on the networks of one kind, and prints the counts.
fn compare_kind<M: Columns>(rt: &HostRuntime, kind: Kind) -> anyhow::Result<Tally> {
    let heap = rt.alloc();
    let number = kind as u8;
    let mut tally = Tally::default();
    for i in 0..EACH {
        let before = tally.differences;
        let mut numbers = Numbers::seeded(u64::from(number) * EACH + i);
        let network = Network::drawn(heap, &mut numbers, kind)?;
        compare::<M>(heap, &network, &mut tally)?;
        if tally.differences > before {
            println!(rt; "network {i} of kind {number} differs")?;
        }
    }
    println!(rt; "kind {number}, {tally}")?;
    Ok(tally)
}

fn main(rt: HostRuntime) -> anyhow::Result<()> {
    // a call for each kind, since each is a type of its own
    let sums = compare_kind::<Sum>(&rt, Kind::Sum)?;
    let reversed = compare_kind::<Reversed<Sum>>(&rt, Kind::ReversedSum)?;
    let pairs = compare_kind::<Then<Sum, Sum>>(&rt, Kind::SumThenSum)?;
    let mixed = compare_kind::<Then<Sum, Reversed<Sum>>>(&rt, Kind::SumThenReversed)?;
    let all = sums + reversed + pairs + mixed;
    println!(rt; "all, {all}")?;
    println!(rt; "differences {}", all.differences)?;
    Ok(())
}
