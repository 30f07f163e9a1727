// The records of a file in turn.
ghost use Rattle.std.specs.Prelude.{◌≤◌, length};

use super::steps::step;
use super::{Fault, Limits, Progress, Reason, Record, Stage};

// A file, how far it is read, and what its records so far amount to.
#[derive(Drop)]
pub struct Reader<'a> {
    pub(crate) file: &'a [u8],
    pub(crate) limits: Limits,
    pub(crate) at: usize,
    pub progress: Progress,
    ghost within: { at ≤ length file.now },
}

impl<'a> Reader<'a> {
    ghost use Rattle.netfile.specs.Reading.{Begins, Told};

    // Before the first record.
    pub fn new(file: &'a [u8], limits: Limits) -> Reader<'a>
        ensures { Begins file.now limits result }
    {
        Reader {
            file,
            limits,
            at: 0,
            progress: Progress::start(),
        }
    }

    // The next record, or the fault that stands in its place; none at the end of a file that is read whole.
    pub fn next(&mut self) -> Result<Option<Record<'a>>, Fault>
        ensures { Told self.old result self.new }
    {
        let at = self.at;
        let rest = &self.file[at..];
        let fault = |reason| Fault { reason, at };
        if self.progress.stage == Stage::Over {
            return if rest.is_empty() {
                Ok(None)
            } else {
                Err(fault(Reason::Trailing))
            };
        }
        let (item, after) = step(self.progress, self.limits, rest).map_err(fault)?;
        self.at = at + 2 + item.mark().body_size(self.progress.kind);
        self.progress = after;
        Ok(Some(item))
    }
}
