use netfile::{Kind, Limits, check};
use std::test::Fail;

const LIMITS: Limits = Limits {
    bytes: 32768,
    nodes: 100,
    arcs: 3,
};

// Three arcs over three nodes, two queries, one with a target.
const GOOD: &[u8] =
    b"NW\x00\x03\x01AR\x00\x01\x00\x02\xff\xff\xff\xfeAR\x00\x03\x00\x02\x00\x00\x00\x07AR\x00\x01\x00\x03\x3b\x9a\xca\x00QS\x14\x00\x01QT\x00\x03\x00\x01QS\x01\x03\xe8EN";

// Where the records of that file start.
const STARTS: [usize; 8] = [0, 5, 15, 25, 35, 40, 46, 51];

// The number and the byte of a fault, as a refused file is reported, if the file has one.
fn judged(file: &[u8], limits: Limits) -> Option<(u8, usize)> {
    let fault = check(file, limits).err()?;
    Some((fault.reason.number(), fault.at))
}

#[test]
fn a_good_file_is_read(rt: HostRuntime) -> Result<(), Fail> {
    assert_eq!(rt; GOOD.len(), 53);
    let end = check(GOOD, LIMITS)?;
    assert_eq!(rt; (end.nodes, end.count, end.kind), (3, 3, Kind::Sum));
    Ok(())
}

// A file that is cut anywhere is refused with 15, at the record that is cut or, between two, at its length.
#[test]
fn cut_files_are_refused(rt: HostRuntime) {
    for size in 0..GOOD.len() {
        let at = STARTS
            .into_iter()
            .filter(|start| *start <= size)
            .last()
            .unwrap_or(0);
        assert_eq!(rt; judged(&GOOD[0..size], LIMITS), Some((15, at)));
    }
}

#[test]
fn marks_and_their_order(rt: HostRuntime) {
    assert_eq!(rt; judged(b"nw\x00\x03\x01", LIMITS), Some((16, 0)));
    assert_eq!(rt; judged(b"EN", LIMITS), Some((16, 0)));
    // the mark is judged before the body that is cut
    assert_eq!(rt; judged(b"NW\x00\x03\x01NW\x00", LIMITS), Some((16, 5)));
    assert_eq!(rt;
        judged(b"NW\x00\x03\x01QT\x00\x01\x00\x01", LIMITS),
        Some((16, 5))
    );
    assert_eq!(rt; judged(b"NW\x00\x03\x01EN", LIMITS), Some((16, 5)));
    assert_eq!(rt;
        judged(b"NW\x00\x03\x01QS\x01\x00\x01AR", LIMITS),
        Some((16, 10))
    );
}

#[test]
fn fields_and_their_ranges(rt: HostRuntime) {
    assert_eq!(rt; judged(b"NW\x00\x00\x01", LIMITS), Some((17, 0)));
    assert_eq!(rt; judged(b"NW\x03\xe9\x01", LIMITS), Some((17, 0)));
    assert_eq!(rt; judged(b"NW\x00\x03\x05", LIMITS), Some((17, 0)));
    assert_eq!(rt;
        judged(b"NW\x00\x03\x01QS\x15\x00\x01EN", LIMITS),
        Some((17, 5))
    );
    assert_eq!(rt;
        judged(b"NW\x00\x03\x01QS\x01\x03\xe9EN", LIMITS),
        Some((17, 5))
    );
    assert_eq!(rt;
        judged(b"NW\x00\x03\x01QS\x01\x00\x01QT\x00\x01\x00\x00EN", LIMITS),
        Some((17, 10))
    );
    // a target that is no node passes
    assert_eq!(rt;
        judged(b"NW\x00\x03\x01QS\x01\x00\x01QT\x00\x00\x00\x01EN", LIMITS),
        None
    );
}

#[test]
fn bytes_behind_the_end(rt: HostRuntime) {
    assert_eq!(rt;
        judged(b"NW\x00\x03\x01QS\x01\x00\x01ENE", LIMITS),
        Some((18, 12))
    );
    assert_eq!(rt;
        judged(b"NW\x00\x03\x01QS\x01\x00\x01ENEN", LIMITS),
        Some((18, 12))
    );
}

// What a put declines keeps its number and tells the arc's first byte.
#[test]
fn arcs_that_are_not_taken(rt: HostRuntime) {
    assert_eq!(rt;
        judged(b"NW\x00\x03\x01AR\x00\x00\x00\x02\x00\x00\x00\x01", LIMITS),
        Some((2, 5))
    );
    assert_eq!(rt;
        judged(b"NW\x00\x03\x01AR\x00\x01\x00\x04\x00\x00\x00\x01", LIMITS),
        Some((2, 5))
    );
    assert_eq!(rt;
        judged(b"NW\x00\x03\x01AR\x00\x02\x00\x02\x00\x00\x00\x01", LIMITS),
        Some((3, 5))
    );
    assert_eq!(rt;
        judged(
            b"NW\x00\x03\x01AR\x00\x01\x00\x02\x00\x00\x00\x01AR\x00\x02\x00\x01\x00\x00\x00\x01",
            LIMITS,
        ),
        Some((4, 15))
    );
    assert_eq!(rt;
        judged(b"NW\x00\x03\x01AR\x00\x01\x00\x02\x3b\x9a\xca\x01", LIMITS),
        Some((5, 5))
    );
    assert_eq!(rt;
        judged(
            b"NW\x00\x03\x04AR\x00\x01\x00\x02\x00\x00\x00\x01\x80\x00\x00\x00",
            LIMITS,
        ),
        Some((5, 5))
    );
    let two = Limits { arcs: 2, ..LIMITS };
    assert_eq!(rt; judged(GOOD, two), Some((6, 25)));
}

#[test]
fn what_a_reader_takes(rt: HostRuntime) {
    let few_nodes = Limits {
        bytes: 53,
        nodes: 2,
        ..LIMITS
    };
    assert_eq!(rt; judged(GOOD, few_nodes), Some((19, 0)));
    assert_eq!(rt; judged(b"NW\x00\x65\x01??", LIMITS), Some((19, 0)));
    assert_eq!(rt; judged(b"NW\x00\x65\x05", LIMITS), Some((17, 0)));
    let few_bytes = Limits {
        bytes: 52,
        ..few_nodes
    };
    assert_eq!(rt; judged(GOOD, few_bytes), Some((20, 0)));
}

// The same faults at later arcs, at other kinds and at the smallest limits.
#[test]
fn faults_further_on(rt: HostRuntime) {
    assert_eq!(rt;
        judged(
            b"NW\x00\x03\x02AR\x00\x01\x00\x02\x00\x00\x00\x01AR\x00\x03\x00\x03\x00\x00\x00\x01",
            LIMITS,
        ),
        Some((3, 15))
    );
    assert_eq!(rt;
        judged(
            b"NW\x00\x03\x03AR\x00\x01\x00\x03\x00\x00\x00\x01\x00\x00\x00\x02AR\x00\x01\x00\x02\x00\x00\x00\x01\x00\x00\x00\x02",
            LIMITS,
        ),
        Some((4, 19))
    );
    let none = Limits {
        bytes: 0,
        arcs: 0,
        ..LIMITS
    };
    assert_eq!(rt; judged(b"N", none), Some((20, 0)));
    let no_arcs = Limits { arcs: 0, ..LIMITS };
    assert_eq!(rt; judged(GOOD, no_arcs), Some((6, 5)));
}
