// Why a call is refused.
ghost use Rattle.std.specs.Prelude.{◌≡◌, Some, ◌++◌, codes, decimal};
ghost use Rattle.sweeps.specs.Refusals.{number};

use std::error::Error;
use std::fmt;

#[derive(Clone, Copy, PartialEq, Eq, Debug)]
pub enum Refusal {
    // the number of nodes is 0 or above 1,000
    NodeCount = 1,
    // an end of the arc is no node
    ArcEnd,
    // both ends of the arc agree
    SelfArc,
    // the arc's end is below the end of the last arc
    ArcOrder,
    // the length is above 10^9 in magnitude
    TooLong,
    // the arc and length tables are full
    TablesFull,
    NoSuchArc,
    // K is 0 or above 20
    RowWidth,
    NoSuchNode,
    // the value or count table is too short
    ShortTables,
    // a circuit before null is reached
    NegativeCircuit,
    NoSuchPlace,
    // a circuit whose length is null is reached
    NullCircuit,
    // the work or path table is too short
    ShortTraceTables,
}

impl Refusal {
    // The number that the refusal is known by.
    pub fn number(self) -> u8
        ensures { result ≡ number self }
    {
        self as u8
    }
}

impl fmt::Display for Refusal {
    ghost output = { λ r. Some (codes "refused with " ++ decimal (number r)) };

    fn fmt<W: fmt::Write>(&self, f: &mut fmt::Formatter<W>) -> fmt::Result {
        write!(f, "refused with {}", self.number())
    }
}

impl Error for Refusal {}
