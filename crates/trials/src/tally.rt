// What was compared, and how often the two solvers differ.
use std::fmt;
use std::ops::Add;

#[derive(Clone, Copy, Default)]
pub struct Tally {
    pub networks: u64,
    pub refused: u64,
    pub null: u64,
    pub traced: u64,
    pub rows: u64,
    pub lengths: u64,
    pub targets: u64,
    pub paths: u64,
    pub crowded: u64,
    pub differences: u64,
}

impl Tally {
    // Counts a difference unless the two agree.
    pub fn expect(&mut self, agree: bool) {
        if !agree {
            count(&mut self.differences);
        }
    }
}

impl Add for Tally {
    type Output = Tally;

    fn add(self, other: Tally) -> Tally {
        Tally {
            networks: self.networks.saturating_add(other.networks),
            refused: self.refused.saturating_add(other.refused),
            null: self.null.saturating_add(other.null),
            traced: self.traced.saturating_add(other.traced),
            rows: self.rows.saturating_add(other.rows),
            lengths: self.lengths.saturating_add(other.lengths),
            targets: self.targets.saturating_add(other.targets),
            paths: self.paths.saturating_add(other.paths),
            crowded: self.crowded.saturating_add(other.crowded),
            differences: self.differences.saturating_add(other.differences),
        }
    }
}

impl fmt::Display for Tally {
    fn fmt<W: fmt::Write>(&self, f: &mut fmt::Formatter<W>) -> fmt::Result {
        write!(
            f,
            "{} networks: {} refused by a circuit before null, {} with a null circuit, {} traced; ",
            self.networks, self.refused, self.null, self.traced,
        )?;
        write!(
            f,
            "{} rows, {} lengths, {} targets, {} paths, {} targets with too many paths",
            self.rows, self.lengths, self.targets, self.paths, self.crowded,
        )
    }
}

// One more. It counts and indexes nothing.
pub fn count(counter: &mut u64) {
    *counter = counter.saturating_add(1);
}
