ghost use Rattle.std.specs.Prelude.{◌≡◌};
ghost use Rattle.netfile.specs.Judging.{start_of_file, at_stage};

use super::Kind;

// How far the records have come: which may follow.
#[derive(Clone, Copy, PartialEq, Eq, Debug)]
pub enum Stage {
    // nothing read yet
    Start,
    // after the network record and any number of arcs
    Arcs,
    // after the first query
    Queries,
    // after the end record
    Over,
}

// What the records so far amount to: the network's nodes and kind, how many arcs, and where the last of them ends: 0, below every end, before the first.
#[derive(Clone, Copy, PartialEq, Eq, Debug)]
pub struct Progress {
    pub stage: Stage,
    pub nodes: usize,
    pub kind: Kind,
    pub count: usize,
    pub last: usize,
}

// What the reader of a file takes: so many bytes, so many nodes, and as many arcs as its tables have cells.
#[derive(Clone, Copy, PartialEq, Eq, Debug)]
pub struct Limits {
    pub bytes: usize,
    pub nodes: usize,
    pub arcs: usize,
}

impl Progress {
    // Before the first record. Nothing reads the nodes and the kind before a network record: with options each later record would ask
    // whether they are there.
    pub fn start() -> Progress
        ensures { result ≡ start_of_file }
    {
        Progress {
            stage: Stage::Start,
            nodes: 0,
            kind: Kind::Sum,
            count: 0,
            last: 0,
        }
    }

    // The same, come to this stage.
    pub(crate) fn at_stage(self, stage: Stage) -> Progress
        ensures { result ≡ at_stage self stage }
    {
        Progress { stage, ..self }
    }
}
