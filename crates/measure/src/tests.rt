use super::*;

const END: i64 = 1 << 62;

#[test]
fn sum_keeps_to_its_range(rt: HostRuntime) {
    assert_eq!(rt; Sum::new(END).value, END);
    assert_eq!(rt; Sum::new(i64::MAX).value, END);
    assert_eq!(rt; Sum::new(-END).value, -END);
    assert_eq!(rt; Sum::new(i64::MIN).value, -END);
    assert_eq!(rt; Sum::new(-7).value, -7);
}

#[test]
fn join_is_present_up_to_the_limit(rt: HostRuntime) {
    let sum = Sum::new;
    assert_eq!(rt; sum(END - 1).join(&sum(1)), Some(sum(END)));
    assert_eq!(rt; sum(END).join(&sum(1)), None);
    assert_eq!(rt; sum(END).join(&sum(-1)), None);
    assert_eq!(rt; sum(END).join(&Sum::null()), Some(sum(END)));
    assert_eq!(rt; sum(4).join(&sum(-9)), Some(sum(-5)));
}

#[test]
fn reversed_puts_the_longer_first(rt: HostRuntime) {
    let four = Reversed { value: Sum::new(4) };
    let five = Reversed { value: Sum::new(5) };
    assert_eq!(rt; five.compare(&four), Ordering::Less);
    assert_eq!(rt; four.compare(&four), Ordering::Equal);
    assert!(rt; before(&five, &four) && !before(&four, &five));
}

// A pile of depth three: money, then the longest delay first, then minutes.
fn pile(money: i64, delay: i64, minutes: i64) -> Then<Sum, Then<Reversed<Sum>, Sum>> {
    Then {
        first: Sum::new(money),
        second: Then {
            first: Reversed {
                value: Sum::new(delay),
            },
            second: Sum::new(minutes),
        },
    }
}

#[test]
fn piles_are_measures(rt: HostRuntime) {
    assert_eq!(rt; pile(2, 5, 10).compare(&pile(2, 5, 7)), Ordering::Greater);
    assert_eq!(rt; pile(2, 6, 10).compare(&pile(2, 5, 7)), Ordering::Less);
    assert_eq!(rt; pile(1, 0, 99).compare(&pile(2, 5, 7)), Ordering::Less);
    assert_eq!(rt; pile(3, -8, 4).magnitude(), 8);
    let twice: Reversed<Reversed<Then<Sum, Sum>>> = Reversed::null();
    assert_eq!(rt; twice.magnitude(), 0);
}

#[test]
fn piles_join_part_by_part(rt: HostRuntime) {
    assert_eq!(rt;
        pile(1, 2, 3).join(&pile(10, 20, 30)),
        Some(pile(11, 22, 33))
    );
    assert!(rt; pile(END, 0, 0).join(&pile(0, 0, 1)).is_none());
}
