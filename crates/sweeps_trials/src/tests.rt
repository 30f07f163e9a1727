ghost use Rattle.std.specs.Prelude.{◌≡◌, true};

use measure::Sum;
use std::test::Fail;
use sweeps::{Arc, Order, Refusal, Solved, solve};

// An open arc. It and the small network below stand in the tests of tracing too: a crate for both would be longer.
fn arc(start: u32, end: u32) -> Arc
    ensures { result ≡ record { start = start; end = end; «open» = true } }
{
    Arc {
        start,
        end,
        open: true,
    }
}

#[test]
fn diamond(rt: HostRuntime) {
    let arcs = [
        arc(3, 2),
        arc(1, 2),
        arc(1, 3),
        arc(2, 3),
        arc(2, 4),
        arc(3, 4),
    ];
    let lengths = [1, 4, 2, 1, 5, 7].map(Sum::new);
    let order = Order { k: 3, source: 1 };
    let mut values = [Sum::new(-6); 13];
    let mut counts = [9; 5];
    let answer = solve(4, order, &arcs, &lengths, &mut values, &mut counts);
    let solved = Solved {
        passes: 7,
        null: false,
    };
    assert_eq!(rt; answer, Ok(solved));
    assert_eq!(rt; counts, [1, 3, 3, 3, 9]);
    assert_eq!(rt; values[2].value, 0);
    assert_eq!(rt; values[3].value, 3);
    assert_eq!(rt; values[8].value, 5);
    assert_eq!(rt; values[9].value, 8);
    assert_eq!(rt; values[10].value, 9);
    assert_eq!(rt; values[11].value, 10);
    assert_eq!(rt; values[12].value, -6);
}

// There by 3 and back: the circuit is after null, null, or before null.
#[test]
fn circuits(rt: HostRuntime) {
    let arcs = [arc(2, 1), arc(1, 2)];
    let order = Order { k: 2, source: 1 };
    let mut values = [Sum::new(7); 4];
    let mut counts = [7; 2];
    let lengths = [-2, 3].map(Sum::new);
    let answer = solve(2, order, &arcs, &lengths, &mut values, &mut counts);
    let solved = Solved {
        passes: 5,
        null: false,
    };
    assert_eq!(rt; answer, Ok(solved));
    assert_eq!(rt; values[1].value, 1);
    assert_eq!(rt; values[3].value, 4);
    let lengths = [-3, 3].map(Sum::new);
    let answer = solve(2, order, &arcs, &lengths, &mut values, &mut counts);
    let solved = Solved {
        passes: 3,
        null: true,
    };
    assert_eq!(rt; answer, Ok(solved));
    assert_eq!(rt; counts, [1, 1]);
    assert_eq!(rt; values[2].value, 3);
    assert_eq!(rt; values[3].value, 0);
    let lengths = [-4, 3].map(Sum::new);
    let answer = solve(2, order, &arcs, &lengths, &mut values, &mut counts);
    assert_eq!(rt; answer, Err(Refusal::NegativeCircuit));
    assert_eq!(rt; Refusal::NegativeCircuit.number(), 11);
    assert_eq!(rt; counts, [0, 0]);
    assert_eq!(rt; values[2].value, 0);
}

#[test]
fn refusals(rt: HostRuntime) -> Result<(), Fail> {
    let arcs = [arc(1, 2)];
    let lengths = [Sum::new(1)];
    let mut values = [Sum::new(7); 4];
    let mut counts = [7; 2];
    for (nodes, k, source, why, number) in [
        (0, 2, 1, Refusal::NodeCount, 1),
        (2, 2, 3, Refusal::NoSuchNode, 9),
        (2, 3, 1, Refusal::ShortTables, 10),
    ] {
        let order = Order::new(k, source)?;
        let answer = solve(nodes, order, &arcs, &lengths, &mut values, &mut counts);
        assert_eq!(rt; answer, Err(why));
        assert_eq!(rt; why.number(), number);
    }
    assert_eq!(rt; counts, [7, 7]);
    assert_eq!(rt; values, [Sum::new(7); 4]);
    assert!(rt;
        Order::new(20, 1000).is_ok() && Order::new(21, 0).is_err() && Order::new(1, 1001).is_err()
    );
    Ok(())
}
