// The operator beside the second solver, on one network.
use super::cost::Cost;
use super::networks::Network;
use super::operator::Tables;
use super::plain::Firsts;
use super::tally::{Tally, count};
use super::walks_found::{Walk, walks_found};
use columns::Columns;
use session::{Refusal, Settled, Trace};
use std::alloc::{AllocError, Global};

// Solves the network by both, and counts what is compared.
pub fn compare<M: Columns>(
    heap: Global,
    network: &Network,
    tally: &mut Tally,
) -> Result<(), AllocError> {
    count(&mut tally.networks);
    let mut tables = Tables::<M>::sized(heap, network)?;
    match (tables.solved(), Firsts::found(heap, network)?) {
        (Ok((settled, answer)), Some(firsts)) => {
            let null = firsts.null_circuit(heap)?;
            tally.expect(answer.null == null);
            compare_settled(heap, &mut tables, settled, &firsts, null, tally)?;
        }
        (Ok(_), None) => tally.expect(false),
        (Err(why), firsts) => {
            count(&mut tally.refused);
            tally.expect(firsts.is_none() && why == Refusal::NegativeCircuit);
        }
    }
    Ok(())
}

// Compares each row, and the trace to each node.
fn compare_settled<M: Columns>(
    heap: Global,
    tables: &mut Tables<M>,
    mut settled: Settled,
    firsts: &Firsts,
    null: bool,
    tally: &mut Tally,
) -> Result<(), AllocError> {
    count(if null {
        &mut tally.null
    } else {
        &mut tally.traced
    });
    let rows = firsts.rows(heap)?;
    for (node, row) in rows.iter().enumerate().skip(1) {
        compare_row(tables, &settled, node, row, tally);
        settled = match tables.trace(settled, node) {
            Ok(mut trace) => {
                tally.expect(!null);
                match walks_found(heap, firsts, node, row)? {
                    Some(walks) => compare_paths(heap, tables, &mut trace, &walks, tally)?,
                    None => count(&mut tally.crowded),
                }
                trace.finish()
            }
            Err((settled, why)) => {
                tally.expect(null && why == Refusal::NullCircuit);
                settled
            }
        };
    }
    Ok(())
}

// Compares a node's row at every place.
fn compare_row<M: Columns>(
    tables: &Tables<M>,
    settled: &Settled,
    node: usize,
    row: &[Cost],
    tally: &mut Tally,
) {
    count(&mut tally.rows);
    for place in 1..=tables.k() {
        let cost = tables.cost(settled, node, place);
        if let Ok(Some(_)) = cost {
            count(&mut tally.lengths);
        }
        tally.expect(cost == Ok(row.get(place - 1).copied()));
    }
}

// Compares the paths that are handed out with the walks, one by one, and that none is left after them.
fn compare_paths<M: Columns>(
    heap: Global,
    tables: &mut Tables<M>,
    trace: &mut Trace,
    walks: &[Walk],
    tally: &mut Tally,
) -> Result<(), AllocError> {
    count(&mut tally.targets);
    for walk in walks {
        count(&mut tally.paths);
        let path = tables.next(heap, trace)?;
        tally.expect(path.is_some_and(|path| path == *walk));
    }
    tally.expect(tables.next(heap, trace)?.is_none());
    Ok(())
}
