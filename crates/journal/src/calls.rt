// The calls of a session and their answers, as values.
ghost use Rattle.std.specs.Prelude.{◌≡◌, ◌≤◌};
ghost use Rattle.journal.specs.Answers.{nodes_said, path_said};
ghost use Rattle.journal.specs.Performs.{width};

use measure::Measure;
use session::{Order, Refusal};

// A call, with what it is passed. A solve also says how many cells of the value and count tables are lent to it, and a trace how
// many of the work and path tables; no more are than the tables have.
#[derive(Clone, Copy)]
pub enum Call<M> {
    Put {
        start: usize,
        end: usize,
        length: M,
    },
    Relength {
        arc: usize,
        length: M,
    },
    Close {
        arc: usize,
    },
    Open {
        arc: usize,
    },
    Solve {
        order: Order,
        values: usize,
        counts: usize,
    },
    Length {
        node: usize,
        place: usize,
    },
    Trace {
        target: usize,
        work: usize,
        path: usize,
    },
    Next,
    Finish,
    Reopen,
}

// What a call answered. No `Result`: to a log a refusal is one of the answers.
#[derive(Clone, Copy, PartialEq, Eq, Debug)]
pub enum Answer<M> {
    Refused(Refusal),
    Done,
    // the number of the arc that was put
    Numbered(usize),
    Solved { passes: usize, null: bool },
    // the length at a place of a row, or none if the row is shorter
    Value(Option<M>),
    // how many arcs the path has, and its length
    Path { count: usize, length: M },
    // no path is left: an answer of its own in a log
    NoPath,
}

impl<M: Measure> Call<M> {
    // How many lengths each row of a solve keeps at most; 0 for the other calls, which leave no rows.
    pub(crate) fn width(self) -> usize
        ensures is { result ≡ width self }
        ensures small { result ≤ 20 }
    {
        match self {
            Call::Solve { order, .. } => order.k,
            _ => 0,
        }
    }
}

impl<M: Measure> Answer<M> {
    // How many rows the answer speaks of: those of all nodes after an accepted solve, else none.
    pub(crate) fn rows(self, nodes: usize) -> usize
        ensures is { result ≡ nodes_said nodes self }
        ensures small { result ≤ nodes }
    {
        match self {
            Answer::Solved { .. } => nodes,
            _ => 0,
        }
    }

    // How many cells of the path table the answer speaks of.
    pub(crate) fn arcs(self) -> usize
        ensures { result ≡ path_said self }
    {
        match self {
            Answer::Path { count, .. } => count,
            _ => 0,
        }
    }
}
