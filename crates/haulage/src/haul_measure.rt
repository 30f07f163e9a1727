// Hauls as lengths: joined part by part, compared by weight and then by fuel.
ghost use Rattle.std.specs.Prelude.{◌≡◌};
ghost use Rattle.haulage.specs.Hauls.{haul_algebra, clamped, weight};
ghost use Rattle.haulage.specs.HaulLaws.{haul_laws};

use super::Haul;
use measure::{LARGEST, Measure};
use std::cmp::Ordering;

impl Haul {
    // So much fuel and so many minutes; what would weigh above 2^62 is cut, the minutes before the fuel.
    pub fn new(fuel: u64, minutes: u64) -> Haul
        ensures { result ≡ clamped fuel minutes }
    {
        let fuel = fuel.min(LARGEST / 3);
        let minutes = minutes.min((LARGEST - 3 * fuel) / 2);
        Haul { fuel, minutes }
    }

    // Three for a litre, two for a minute.
    pub fn weight(&self) -> u64
        ensures { result ≡ weight self.now }
    {
        3 * self.fuel + 2 * self.minutes
    }
}

impl Measure for Haul {
    ghost algebra = { haul_algebra };

    ghost lawful = { haul_laws };

    fn null() -> Haul {
        Haul::new(0, 0)
    }

    fn magnitude(&self) -> u64 {
        self.weight()
    }

    fn join(&self, other: &Haul) -> Option<Haul> {
        if self.weight() + other.weight() > LARGEST {
            return None;
        }
        Some(Haul::new(self.fuel + other.fuel, self.minutes + other.minutes))
    }

    // Equal weights are decided by the fuel: hauls compare the same only if they are the same.
    fn compare(&self, other: &Haul) -> Ordering {
        self.weight()
            .cmp(&other.weight())
            .then_with(|| self.fuel.cmp(&other.fuel))
    }
}
