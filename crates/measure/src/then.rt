ghost use Rattle.measure.specs.Piles.{then_algebra};
ghost use Rattle.measure.specs.ThenLaws.{then_laws};

use super::{LARGEST, Measure};
use std::cmp::Ordering;

// A value of each of two measures: the second decides where the first parts are the same.
#[derive(Clone, Copy, PartialEq, Eq, Debug)]
pub struct Then<F, S> {
    pub first: F,
    pub second: S,
}

impl<F: Measure, S: Measure> Measure for Then<F, S> {
    ghost algebra = { then_algebra F.Measure.algebra S.Measure.algebra };

    ghost lawful = { then_laws _ _ F.Measure.lawful S.Measure.lawful };

    fn null() -> Then<F, S> {
        Then {
            first: F::null(),
            second: S::null(),
        }
    }

    // The larger of the two.
    fn magnitude(&self) -> u64 {
        self.first.magnitude().max(self.second.magnitude())
    }

    // Absent by the larger magnitudes: a first part of one value and the second of the other may decide it.
    fn join(&self, other: &Then<F, S>) -> Option<Then<F, S>> {
        if self.magnitude() + other.magnitude() > LARGEST {
            return None;
        }
        let first = self.first.join(&other.first)?;
        let second = self.second.join(&other.second)?;
        Some(Then { first, second })
    }

    fn compare(&self, other: &Then<F, S>) -> Ordering {
        self.first
            .compare(&other.first)
            .then_with(|| self.second.compare(&other.second))
    }
}
