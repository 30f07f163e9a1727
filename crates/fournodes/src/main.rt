// Builds small networks by calls, solves them and prints their rows.
#![tactic(auto)]

use columns::column_text;
use measure::{Measure, Sum};
use session::{Arc, Draft, Order, Refusal, Settled};

// A draft of arcs, each a start, an end and a length, with its tables.
fn drafted<const N: usize>(
    nodes: usize,
    list: [(usize, usize, i64); N],
) -> Result<(Draft, [Arc; N], [Sum; N]), Refusal> {
    let mut draft = Draft::new(nodes)?;
    let mut arcs = [Arc::default(); N];
    let mut lengths = [Sum::null(); N];
    for (start, end, length) in list {
        draft.put(&mut arcs, &mut lengths, start, end, Sum::new(length))?;
    }
    Ok((draft, arcs, lengths))
}

// Prints the row of each node, place by place as a session tells it; the line of the crate report takes a filled row.
fn print_rows(
    rt: &HostRuntime,
    settled: &Settled,
    nodes: usize,
    k: usize,
    values: &[Sum],
    counts: &[usize],
) -> anyhow::Result<()> {
    for node in 1..=nodes {
        let mut line = format!(in rt.alloc(); "node {node} lengths")?;
        for place in 1..=k {
            match settled.length(values, counts, node, place)? {
                Some(length) => write!(line, " {}", column_text(rt.alloc(), &length)?)?,
                None if place == 1 => line.push_str(" none")?,
                None => {}
            }
        }
        rt.println(line)?;
    }
    Ok(())
}

// Solves the draft, prints what came of it and gives the draft back. Two formats of the crate report stand here in place of a
// dependency; the tables are slices, since a struct would need the number of arcs as a parameter of each function.
fn show(
    rt: &HostRuntime,
    draft: Draft,
    nodes: usize,
    order: Order,
    arcs: &[Arc],
    lengths: &[Sum],
) -> anyhow::Result<Draft> {
    let mut values = [Sum::null(); 20];
    let mut counts = [0; 5];
    match draft.solve(order, arcs, lengths, &mut values, &mut counts) {
        Ok((settled, solved)) => {
            println!(rt;
                "solve K {} from {} passes {}",
                order.k, order.source, solved.passes
            )?;
            print_rows(rt, &settled, nodes, order.k, &values, &counts)?;
            Ok(settled.reopen(&mut values, &mut counts))
        }
        Err((draft, why)) => {
            println!(rt; "solve refused {}", why.number())?;
            Ok(draft)
        }
    }
}

// Four nodes with several ways to each.
fn four_nodes(rt: &HostRuntime) -> anyhow::Result<()> {
    let list = [
        (3, 2, 1),
        (1, 2, 4),
        (1, 3, 2),
        (2, 3, 1),
        (2, 4, 5),
        (3, 4, 7),
    ];
    let (draft, arcs, lengths) = drafted(4, list)?;
    let order = Order::new(3, 1)?;
    show(rt, draft, 4, order, &arcs, &lengths)?;
    Ok(())
}

// A rebate of 4 on the way back makes a circuit before null; with that arc closed there is none.
fn rebate(rt: &HostRuntime) -> anyhow::Result<()> {
    let (draft, mut arcs, lengths) = drafted(2, [(2, 1, -4), (1, 2, 3)])?;
    let order = Order::new(2, 1)?;
    let draft = show(rt, draft, 2, order, &arcs, &lengths)?;
    draft.close(&mut arcs, 1)?;
    show(rt, draft, 2, order, &arcs, &lengths)?;
    Ok(())
}

fn main(rt: HostRuntime) -> anyhow::Result<()> {
    four_nodes(&rt)?;
    rebate(&rt)
}
