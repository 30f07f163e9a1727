use super::*;
use measure::{LARGEST, Measure, Reversed};
use session::{Arc, Draft, Order, Settled, Step, Trace};
use std::cmp::Ordering;
use std::test::Fail;

// Two roads from 1 to 2 of one weight, one back from 3 to 2, and to 3 a road over 2 and a slow one that burns nothing: start, end, fuel and minutes.
const ROADS: [(usize, usize, u64, u64); 5] = [
    (1, 2, 4, 1),
    (1, 2, 2, 4),
    (3, 2, 1, 0),
    (2, 3, 1, 1),
    (1, 3, 0, 10),
];

// The rows of the nodes 1 to 3, as fuel and minutes.
const ROWS: [&[(u64, u64)]; 3] = [
    &[(0, 0)],
    &[(2, 4), (4, 1), (4, 5)],
    &[(3, 5), (5, 2), (0, 10)],
];

// The first three paths to node 3, by their arcs.
const PATHS: [&[usize]; 3] = [&[2, 4], &[1, 4], &[5]];

#[test]
fn hauls_join_and_compare(rt: HostRuntime) {
    assert_eq!(rt;
        Haul::new(1, 2).join(&Haul::new(3, 4)),
        Some(Haul::new(4, 6))
    );
    let two_litres = Haul::new(2, 0);
    let three_minutes = Haul::new(0, 3);
    assert_eq!(rt; two_litres.compare(&three_minutes), Ordering::Greater);
    assert_eq!(rt; two_litres.compare(&Haul::new(0, 4)), Ordering::Less);
    let most = Haul::new(0, u64::MAX);
    assert_eq!(rt; most.weight(), LARGEST);
    assert!(rt; most.join(&Haul::null()).is_some() && most.join(&three_minutes).is_none());
    let dearest_first = Reversed { value: two_litres };
    assert_eq!(rt;
        dearest_first.compare(&Reversed {
            value: three_minutes,
        },),
        Ordering::Less
    );
}

// The caller's tables of a session on the roads.
#[derive(Drop)]
struct Tables {
    arcs: [Arc; 5],
    lengths: [Haul; 5],
    values: [Haul; 9],
    counts: [usize; 3],
    work: [Step; 9],
    path: [usize; 9],
}

impl Tables {
    // The roads, solved for three hauls from node 1.
    fn settle(&mut self) -> Result<Settled, Fail> {
        let mut draft = Draft::new(3)?;
        for (start, end, fuel, minutes) in ROADS {
            let haul = Haul::new(fuel, minutes);
            draft.put(&mut self.arcs, &mut self.lengths, start, end, haul)?;
        }
        let order = Order::new(3, 1)?;
        let (settled, _) = draft
            .solve(
                order,
                &self.arcs,
                &self.lengths,
                &mut self.values,
                &mut self.counts,
            )
            .map_err(|(_, why)| why)?;
        Ok(settled)
    }

    // The haul at a place of a node's row.
    fn haul(&self, settled: &Settled, node: usize, place: usize) -> Option<Haul> {
        settled
            .length(&self.values, &self.counts, node, place)
            .ok()?
    }

    // The arcs of the next path.
    fn next(&mut self, trace: &mut Trace) -> Option<&[usize]> {
        let (count, _) = trace.next(
            &self.arcs,
            &self.lengths,
            &self.values,
            &self.counts,
            &mut self.work,
            &mut self.path,
        )?;
        self.path.get(..count)
    }
}

#[test]
fn hauls_are_solved_and_traced(rt: HostRuntime) -> Result<(), Fail> {
    let mut tables = Tables {
        arcs: [Arc::default(); 5],
        lengths: [Haul::null(); 5],
        values: [Haul::null(); 9],
        counts: [0; 3],
        work: [Step::default(); 9],
        path: [0; 9],
    };
    let settled = tables.settle()?;
    for (i, row) in ROWS.iter().enumerate() {
        for place in 0..3 {
            let haul = row
                .get(place)
                .map(|(fuel, minutes)| Haul::new(*fuel, *minutes));
            assert_eq!(rt; tables.haul(&settled, i + 1, place + 1), haul);
        }
    }
    let mut trace = settled
        .trace(3, &tables.work, &tables.path)
        .map_err(|(_, why)| why)?;
    for arcs in PATHS {
        assert!(rt; tables.next(&mut trace).is_some_and(|path| path == arcs));
    }
    Ok(())
}
