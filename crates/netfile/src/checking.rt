// The reading of a whole file.
ghost use Rattle.std.specs.Prelude.{List, MatchResult};
ghost use Rattle.netfile.specs.Readings.{Entry, Accepts, Refuses, OneReading, ReadBack};

use super::{Fault, Limits, Progress, Reader, Reason};

// Reads a file whole: what its records amount to, or the first fault. Every file has exactly one reading, and records that are
// written out are read back.
pub fn check(file: &[u8], limits: Limits) -> Result<Progress, Fault>
    ensures reading { MatchResult result (λ last. (es : List Entry) × Accepts limits file.now es last) (λ f. Refuses limits file.now f) }
    ensures one { OneReading }
    ensures back { ReadBack }
{
    walk(file, limits)
}

// Its own function, since each of its returns would owe the two further clauses of `check`.
fn walk(file: &[u8], limits: Limits) -> Result<Progress, Fault>
    ensures { MatchResult result (λ last. (es : List Entry) × Accepts limits file.now es last) (λ f. Refuses limits file.now f) }
{
    if file.len() > limits.bytes {
        return Err(Fault {
            reason: Reason::TooManyBytes,
            at: 0,
        });
    }
    let mut reader = Reader::new(file, limits);
    while let Some(_) = reader.next()? {}
    Ok(reader.progress)
}
