use super::*;
use measure::Sum;
use std::test::Fail;
use sweeps::{Arc, Order};

const NODES: usize = 4;

fn arc(start: u32, end: u32) -> Arc {
    Arc {
        start,
        end,
        open: true,
    }
}

// Four nodes and six arcs, sorted by their ends, as in sweeps_trials.
fn arcs() -> [Arc; 6] {
    [
        arc(3, 2),
        arc(1, 2),
        arc(1, 3),
        arc(2, 3),
        arc(2, 4),
        arc(3, 4),
    ]
}

fn lengths() -> [Sum; 6] {
    [1, 4, 2, 1, 5, 7].map(Sum::new)
}

// The rows from node 1 for K = 3: 0; 3 4 5; 2 4 5; 8 9 10.
fn rows() -> [Sum; 12] {
    [0, 0, 0, 3, 4, 5, 2, 4, 5, 8, 9, 10].map(Sum::new)
}

// The count and the length of the next path.
fn step(
    cursor: &mut Cursor,
    order: Order,
    counts: &[usize],
    work: &mut [Step],
    path: &mut [usize],
) -> Option<(usize, i64)> {
    let (count, length) = cursor.next(
        NODES,
        order,
        &arcs(),
        &lengths(),
        &rows(),
        counts,
        work,
        path,
    )?;
    Some((count, length.value))
}

#[test]
fn paths_come_in_order(rt: HostRuntime) -> Result<(), Fail> {
    let order = Order::new(3, 1)?;
    let counts = [1, 3, 3, 3];
    let mut work = [Step::default(); 12];
    let mut path = [0; 12];
    let mut cursor = Cursor::new(4);
    assert_eq!(rt;
        step(&mut cursor, order, &counts, &mut work, &mut path),
        Some((3, 8))
    );
    assert_eq!(rt; &path[..5], [3, 1, 5, 0, 0].as_slice());
    assert_eq!(rt;
        step(&mut cursor, order, &counts, &mut work, &mut path),
        Some((2, 9))
    );
    assert_eq!(rt; &path[..5], [2, 5, 5, 0, 0].as_slice());
    assert_eq!(rt;
        step(&mut cursor, order, &counts, &mut work, &mut path),
        Some((2, 9))
    );
    assert_eq!(rt; &path[..5], [3, 6, 5, 0, 0].as_slice());
    assert_eq!(rt;
        step(&mut cursor, order, &counts, &mut work, &mut path),
        Some((5, 10))
    );
    assert_eq!(rt; &path[..5], [3, 1, 4, 1, 5].as_slice());
    assert_eq!(rt;
        step(&mut cursor, order, &counts, &mut work, &mut path),
        None
    );
    assert_eq!(rt;
        step(&mut cursor, order, &counts, &mut work, &mut path),
        None
    );
    assert_eq!(rt; &path[..5], [3, 1, 4, 1, 5].as_slice());
    Ok(())
}

#[test]
fn one_length_has_one_path(rt: HostRuntime) -> Result<(), Fail> {
    let order = Order::new(3, 1)?;
    let counts = [1, 0, 1, 0];
    let mut work = [Step::default(); 12];
    let mut path = [7; 2];
    let mut cursor = Cursor::new(3);
    assert_eq!(rt;
        step(&mut cursor, order, &counts, &mut work, &mut path),
        Some((1, 2))
    );
    assert_eq!(rt; path[0], 3);
    assert_eq!(rt; path[1], 7);
    assert_eq!(rt;
        step(&mut cursor, order, &counts, &mut work, &mut path),
        None
    );
    Ok(())
}
