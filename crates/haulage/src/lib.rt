// A measure of one's own, as a user of the operator adds it: hauls, by fuel and minutes together.
#![tactic(auto)]

ghost use Rattle.measure.specs.Algebra.{Laws};
ghost use Rattle.haulage.specs.Hauls.{larger_algebra};

mod haul;
mod haul_measure;
#[cfg(test)]
mod tests;

pub use haul::Haul;

// Joining by the larger amounts, in place of their sums, makes no measure: its contract is that the laws fail.
pub fn larger_is_no_measure()
    ensures { Laws larger_algebra → ⊥ }
{}
