ghost use Rattle.measure.specs.Piles.{reversed_algebra};
ghost use Rattle.std.proofs.Common.{rules};

use super::Measure;
use std::cmp::Ordering;

// A measure with before and after exchanged: the longest comes first.
#[derive(Clone, Copy, PartialEq, Eq, Debug)]
pub struct Reversed<M> {
    pub value: M,
}

impl<M: Measure> Measure for Reversed<M> {
    ghost algebra = { reversed_algebra M.Measure.algebra };

    ghost lawful = { Prim.search rules };

    fn null() -> Reversed<M> {
        Reversed { value: M::null() }
    }

    fn magnitude(&self) -> u64 {
        self.value.magnitude()
    }

    fn join(&self, other: &Reversed<M>) -> Option<Reversed<M>> {
        let value = self.value.join(&other.value)?;
        Some(Reversed { value })
    }

    fn compare(&self, other: &Reversed<M>) -> Ordering {
        other.value.compare(&self.value)
    }
}
