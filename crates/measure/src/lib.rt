// Measures of length: what the length of an arc can be, how lengths join along a walk, and how they compare.
#![tactic(auto)]

ghost use Rattle.std.specs.Prelude.{◌≡◌};
ghost use Rattle.std.specs.Ordering.{is_lt};
ghost use Rattle.measure.specs.Algebra.{Algebra, Laws, joined};

use std::cmp::Ordering;

mod reversed;
mod sum;
mod sum_measure;
#[cfg(test)]
mod tests;
mod then;

pub use reversed::Reversed;
pub use sum::Sum;
pub use then::Then;

// The largest magnitude, and the largest sum of two magnitudes that can be joined: 2^62.
pub const LARGEST: u64 = 1 << 62;

// A type of lengths. `algebra` says what the four answers are, `lawful` that they keep the five laws.
pub trait Measure: Copy {
    ghost algebra: { Algebra Self };

    // The length of the walk without arcs.
    fn null() -> Self
        ensures { result ≡ algebra.null };

    // From 0 to 2^62.
    fn magnitude(&self) -> u64
        ensures { result ≡ algebra.magnitude self.now };

    // Absent exactly if the two magnitudes sum above 2^62.
    fn join(&self, other: &Self) -> Option<Self>
        ensures { result ≡ joined algebra self.now other.now };

    // Whether this length is before (Less), the same as (Equal) or after (Greater) the other.
    fn compare(&self, other: &Self) -> Ordering
        ensures { result ≡ algebra.compare self.now other.now };

    ghost lawful: { Laws algebra };
}

// Whether a is before b.
pub fn before<M: Measure>(a: &M, b: &M) -> bool
    ensures { result ≡ is_lt (M.Measure.algebra.compare a.now b.now) }
{
    a.compare(b).is_lt()
}
