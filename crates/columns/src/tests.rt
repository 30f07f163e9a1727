use super::*;
use std::test::Fail;

const END: i64 = 1 << 62;

#[test]
fn sum_has_one_column(rt: HostRuntime) {
    assert_eq!(rt; Sum::width(), 1);
    assert_eq!(rt; Sum::new(-7).column(0), Some(-7));
    assert_eq!(rt; Sum::new(-7).column(1), None);
    assert!(rt; Sum::build(&[END]).is_some() && Sum::build(&[-END]).is_some());
    assert!(rt; Sum::build(&[END + 1]).is_none() && Sum::build(&[i64::MIN]).is_none());
    assert!(rt; Sum::build(&[1, 2]).is_none() && Sum::build(&[]).is_none());
}

// A pile of depth three has the columns of its parts in turn.
#[test]
fn piles_have_the_columns_of_their_parts(rt: HostRuntime) -> Result<(), Fail> {
    assert_eq!(rt; Then::<Sum, Then<Reversed<Sum>, Sum>>::width(), 3);
    let pile = Then::<Sum, Then<Reversed<Sum>, Sum>>::build(&[2, -5, 10]).ok_or("no pile")?;
    assert_eq!(rt; pile.column(0), Some(2));
    assert_eq!(rt; pile.column(1), Some(-5));
    assert_eq!(rt; pile.column(2), Some(10));
    assert_eq!(rt; pile.column(3), None);
    Ok(())
}

#[test]
fn text_has_strokes(rt: HostRuntime) -> Result<(), Fail> {
    let pair = Then {
        first: Sum::new(2),
        second: Reversed {
            value: Sum::new(-7),
        },
    };
    let text = column_text(rt.alloc(), &pair)?;
    assert!(rt; text.as_str() == "2/-7");
    Ok(())
}
