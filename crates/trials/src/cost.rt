// Lengths as the second solver has them.
ghost use Rattle.std.specs.Prelude.{◌≡◌, ◌+ℤ◌, ◌-ℤ◌, ◌*ℤ◌};
ghost use Rattle.std.specs.Int.{saturate_to_bits};

use columns::{Columns, Kind};
use std::ops::{Add, Mul, Sub};

// Two numbers, of which the second decides where the first agree.
#[derive(Clone, Copy, PartialEq, Eq, PartialOrd, Ord)]
pub struct Cost {
    pub first: i64,
    pub second: i64,
}

pub const NULL: Cost = Cost {
    first: 0,
    second: 0,
};

impl Add for Cost {
    type Output = Cost;

    ghost add_gives = { λ a b r. (r.first ≡ saturate_to_bits 63 (a.first +ℤ b.first)) × (r.second ≡ saturate_to_bits 63 (a.second +ℤ b.second)) };

    fn add(self, other: Cost) -> Cost {
        Cost {
            first: self.first.saturating_add(other.first),
            second: self.second.saturating_add(other.second),
        }
    }
}

impl Sub for Cost {
    type Output = Cost;

    ghost sub_gives = { λ a b r. (r.first ≡ saturate_to_bits 63 (a.first -ℤ b.first)) × (r.second ≡ saturate_to_bits 63 (a.second -ℤ b.second)) };

    fn sub(self, other: Cost) -> Cost {
        Cost {
            first: self.first.saturating_sub(other.first),
            second: self.second.saturating_sub(other.second),
        }
    }
}

impl Mul<i64> for Cost {
    type Output = Cost;

    ghost mul_gives = { λ a n r. (r.first ≡ saturate_to_bits 63 (a.first *ℤ n)) × (r.second ≡ saturate_to_bits 63 (a.second *ℤ n)) };

    fn mul(self, factor: i64) -> Cost {
        Cost {
            first: self.first.saturating_mul(factor),
            second: self.second.saturating_mul(factor),
        }
    }
}

impl Cost {
    // The cost of a length of this kind.
    pub fn of<M: Columns>(kind: Kind, length: &M) -> Option<Cost> {
        let first = length.column(0)?;
        let second = if kind.width() == 2 {
            length.column(1)?
        } else {
            0
        };
        Some(Cost { first, second }.turned(kind))
    }

    // The length of this kind that costs so much.
    pub fn length<M: Columns>(self, kind: Kind) -> Option<M> {
        let Cost { first, second } = self.turned(kind);
        M::build(&[first, second][..kind.width()])
    }

    // Turns the sign of what is reversed: columns become a cost, and a cost its columns.
    fn turned(self, kind: Kind) -> Cost {
        match kind {
            Kind::Sum | Kind::SumThenSum => self,
            Kind::ReversedSum => Cost {
                first: self.first.saturating_neg(),
                ..self
            },
            Kind::SumThenReversed => Cost {
                second: self.second.saturating_neg(),
                ..self
            },
        }
    }
}
