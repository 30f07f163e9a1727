// Whole numbers: joined by adding, compared by size.
ghost use Rattle.std.specs.Prelude.{◌≡◌, ◌+◌, ◌^◌, ◌≤◌, ◌+ℤ◌, unsigned_abs};
ghost use Rattle.measure.specs.Sums.{sum_algebra, clamped};
ghost use Rattle.measure.specs.SumLaws.{sum_laws};

use super::{LARGEST, Measure, Sum};
use std::cmp::Ordering;

// The upper end of the range; the lower end is its negative.
const END: i64 = 1 << 62;

impl Sum {
    // The number, or the nearer end of the range for one outside it.
    pub fn new(value: i64) -> Sum
        ensures { result ≡ clamped value }
    {
        Sum {
            value: value.clamp(-END, END),
        }
    }

    // A sum that stays in the range.
    fn added(a: Sum, b: Sum) -> Sum
        requires { unsigned_abs a.value + unsigned_abs b.value ≤ 2 ^ 62 }
        ensures { result.value ≡ a.value +ℤ b.value }
    {
        Sum {
            value: a.value + b.value,
        }
    }
}

impl Measure for Sum {
    ghost algebra = { sum_algebra };

    ghost lawful = { sum_laws };

    fn null() -> Sum {
        Sum::new(0)
    }

    fn magnitude(&self) -> u64 {
        self.value.unsigned_abs()
    }

    fn join(&self, other: &Sum) -> Option<Sum> {
        if self.magnitude() + other.magnitude() > LARGEST {
            return None;
        }
        Some(Sum::added(*self, *other))
    }

    fn compare(&self, other: &Sum) -> Ordering {
        self.value.cmp(&other.value)
    }
}
