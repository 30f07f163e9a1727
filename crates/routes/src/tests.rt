use super::*;
use measure::{Sum, Then};
use std::test::Fail;

const END: i64 = 1 << 62;

#[test]
fn legs_are_joined_in_turn(rt: HostRuntime) {
    let legs = [Sum::new(4), Sum::new(-9), Sum::new(END - 5)];
    assert_eq!(rt; route_length(&legs), Some(Sum::new(END - 10)));
    assert_eq!(rt; route_length(&[Sum::new(END), Sum::new(-1)]), None);
    assert_eq!(rt; route_length::<Sum>(&[]), Some(Sum::new(0)));
}

#[test]
fn words_are_legs_or_not(rt: HostRuntime) -> Result<(), Fail> {
    let heap = rt.alloc();
    assert!(rt; read_leg::<Sum>(heap, "-12")?.is_some());
    assert!(rt; read_leg::<Then<Sum, Sum>>(heap, "2/7")?.is_some());
    for word in ["", "/", "2/7", "x", "4611686018427387905", "1 2"] {
        assert_eq!(rt; read_leg::<Sum>(heap, word)?, None, "{}", word);
    }
    for word in ["2", "2/", "2/7/1", "2//7"] {
        assert_eq!(rt; read_leg::<Then<Sum, Sum>>(heap, word)?, None, "{}", word);
    }
    Ok(())
}
