// A grid of 3 by 4 nodes, its five smallest lengths from node 12, and the paths to node 1, as they were printed.
// docs/published-sample.md tells what was read in the print and what was worked out from it.
use measure::{Measure, Sum};
use session::{Arc, Draft, Order, Refusal, Settled, Step, Trace};
use std::test::Fail;

const NODES: usize = 12;

const K: usize = 5;

const SOURCE: usize = 12;

const TARGET: usize = 1;

// The printed number of passes.
const PASSES: usize = 6;

// The arc from 9 to 10, the only one whose length the print does not determine: 6, or 16 or more.
const UNDETERMINED: usize = 28;

// The arcs by their ends: start, end and length.
const ARCS: [(usize, usize, i64); 34] = [
    (2, 1, 65),
    (5, 1, 38),
    (1, 2, 78),
    (3, 2, 82),
    (6, 2, 78),
    (2, 3, 79),
    (4, 3, 96),
    (7, 3, 55),
    (3, 4, 87),
    (8, 4, 12),
    (1, 5, 24),
    (6, 5, 9),
    (9, 5, 18),
    (2, 6, 45),
    (5, 6, 48),
    (7, 6, 22),
    (10, 6, 23),
    (3, 7, 8),
    (6, 7, 41),
    (8, 7, 44),
    (11, 7, 58),
    (4, 8, 29),
    (7, 8, 47),
    (12, 8, 51),
    (5, 9, 74),
    (10, 9, 88),
    (6, 10, 69),
    (9, 10, 16),
    (11, 10, 48),
    (7, 11, 32),
    (10, 11, 35),
    (12, 11, 93),
    (8, 12, 14),
    (11, 12, 30),
];

// The printed rows of the nodes 1 to 12.
const ROWS: [[i64; 5]; 12] = [
    [164, 205, 211, 220, 221],
    [195, 232, 236, 241, 242],
    [150, 159, 191, 200, 206],
    [63, 104, 128, 145, 154],
    [126, 167, 173, 182, 183],
    [117, 158, 164, 173, 174],
    [95, 136, 151, 158, 160],
    [51, 92, 116, 133, 142],
    [200, 229, 241, 247, 256],
    [141, 175, 186, 206, 216],
    [93, 127, 158, 168, 176],
    [0, 65, 106, 123, 130],
];

// The printed paths from node 12 to node 1: the length, and the nodes.
const PATHS: [(i64, &[usize]); 5] = [
    (164, &[12, 8, 7, 6, 5, 1]),
    (205, &[12, 8, 4, 8, 7, 6, 5, 1]),
    (211, &[12, 11, 10, 6, 5, 1]),
    (220, &[12, 11, 7, 6, 5, 1]),
    (221, &[12, 8, 7, 6, 5, 6, 5, 1]),
];

// The caller's tables of a session on the sample. Those in the tests of haulage have other sizes and lengths; a crate for both would be longer.
#[derive(Drop)]
struct Tables {
    arcs: [Arc; 34],
    lengths: [Sum; 34],
    values: [Sum; 60],
    counts: [usize; 12],
    work: [Step; 60],
    path: [usize; 60],
}

impl Tables {
    fn new() -> Tables {
        Tables {
            arcs: [Arc::default(); 34],
            lengths: [Sum::null(); 34],
            values: [Sum::null(); 60],
            counts: [0; 12],
            work: [Step::default(); 60],
            path: [0; 60],
        }
    }

    // A draft of the sample.
    fn draft(&mut self) -> Result<Draft, Refusal> {
        let mut draft = Draft::new(NODES)?;
        for (start, end, length) in ARCS {
            draft.put(
                &mut self.arcs,
                &mut self.lengths,
                start,
                end,
                Sum::new(length),
            )?;
        }
        Ok(draft)
    }

    // The session and the number of its passes.
    fn settle(&mut self, draft: Draft) -> Result<(Settled, usize), Refusal> {
        let order = Order::new(K, SOURCE)?;
        let (settled, solved) = draft
            .solve(
                order,
                &self.arcs,
                &self.lengths,
                &mut self.values,
                &mut self.counts,
            )
            .map_err(|(_, why)| why)?;
        Ok((settled, solved.passes))
    }

    // Whether the rows are the printed ones.
    fn rows_are_printed(&self, settled: &Settled) -> bool {
        for (i, row) in ROWS.iter().enumerate() {
            for (place, length) in row.iter().enumerate() {
                let told = settled.length(&self.values, &self.counts, i + 1, place + 1);
                if told != Ok(Some(Sum::new(*length))) {
                    return false;
                }
            }
        }
        true
    }

    // Whether so many arcs of the path table lead from the source over these nodes.
    fn leads_over(&self, count: usize, nodes: &[usize]) -> bool {
        let Some(path) = self.path.get(..count) else {
            return false;
        };
        nodes.first() == Some(&SOURCE)
            && path.len() + 1 == nodes.len()
            && path.iter().zip(nodes.windows(2)).all(|(number, ends)| {
                match self.arcs.get(number.wrapping_sub(1)) {
                    Some(arc) => ends == [arc.start as usize, arc.end as usize].as_slice(),
                    None => false,
                }
            })
    }

    // The next path of the trace: how many arcs of the path table are its own, and its length.
    fn next(&mut self, trace: &mut Trace) -> Option<(usize, Sum)> {
        trace.next(
            &self.arcs,
            &self.lengths,
            &self.values,
            &self.counts,
            &mut self.work,
            &mut self.path,
        )
    }
}

#[test]
fn rows_and_passes_are_the_printed_ones(rt: HostRuntime) -> Result<(), Fail> {
    let mut tables = Tables::new();
    let draft = tables.draft()?;
    let (settled, passes) = tables.settle(draft)?;
    assert_eq!(rt; passes, PASSES);
    assert!(rt; tables.rows_are_printed(&settled));
    Ok(())
}

#[test]
fn paths_are_the_printed_ones(rt: HostRuntime) -> Result<(), Fail> {
    let mut tables = Tables::new();
    let draft = tables.draft()?;
    let (settled, _) = tables.settle(draft)?;
    let mut trace = settled
        .trace(TARGET, &tables.work, &tables.path)
        .map_err(|(_, why)| why)?;
    for (length, nodes) in PATHS {
        let (count, found) = tables.next(&mut trace).ok_or("no path is left")?;
        assert_eq!(rt; found, Sum::new(length));
        assert!(rt; tables.leads_over(count, nodes));
    }
    assert_eq!(rt; tables.next(&mut trace), None);
    Ok(())
}

// With which lengths of that arc the rows are the printed ones; the passes are so with all.
#[test]
fn one_length_is_undetermined(rt: HostRuntime) -> Result<(), Fail> {
    let mut tables = Tables::new();
    for length in 1..=100 {
        let draft = tables.draft()?;
        draft.relength(&mut tables.lengths, UNDETERMINED, Sum::new(length))?;
        let (settled, passes) = tables.settle(draft)?;
        assert_eq!(rt; passes, PASSES);
        assert_eq!(rt;
            tables.rows_are_printed(&settled),
            length == 6 || length >= 16
        );
    }
    Ok(())
}
