// The lines of a list of calls.
ghost use Rattle.std.specs.Prelude.{◌≡◌};
ghost use Rattle.replay.specs.declared.reading.LineError.TheVariants.{Order, Memory};

use columns::Columns;
use journal::Call;
use routes::{Kind, read_leg};
use session::{Order, Refusal};
use std::alloc::{AllocError, Global};

// All the cells that there are.
const ALL: usize = usize::MAX;

// Why a line gives no call.
#[derive(Drop)]
pub enum LineError {
    // a solve whose order is refused
    Order(Refusal),
    Unknown,
    Memory,
}

impl From<Refusal> for LineError {
    ghost from_gives = { λ why r. r ≡ Order why };

    fn from(why: Refusal) -> LineError {
        LineError::Order(why)
    }
}

impl From<AllocError> for LineError {
    ghost from_gives = { λ _ r. r ≡ Memory };

    fn from(_error: AllocError) -> LineError {
        LineError::Memory
    }
}

// The number of nodes and the kind of lengths, from a line as `network 5 money then minutes`.
pub fn read_header(line: &str) -> Option<(usize, Kind)> {
    let rest = line.trim().strip_prefix("network ")?;
    let (nodes, kind) = rest.split_once(' ')?;
    Some((nodes.parse().ok()?, kind.trim().parse().ok()?))
}

// A word as a whole number from 0.
fn number(word: Option<&str>) -> Result<usize, LineError> {
    let word = word.ok_or(LineError::Unknown)?;
    word.parse().or(Err(LineError::Unknown))
}

// A word as a length.
fn length<M: Columns>(heap: Global, word: Option<&str>) -> Result<M, LineError> {
    let word = word.ok_or(LineError::Unknown)?;
    read_leg(heap, word)?.ok_or(LineError::Unknown)
}

// The call that a line writes, none for a blank line: a call's name and its numbers and lengths, with white space between.
pub fn read_line<M: Columns>(heap: Global, line: &str) -> Result<Option<Call<M>>, LineError> {
    let mut words = line.split_whitespace();
    let Some(name) = words.next() else {
        return Ok(None);
    };
    let first = words.next();
    let second = words.next();
    let third = words.next();
    if words.next().is_some() {
        return Err(LineError::Unknown);
    }
    Ok(Some(match name {
        "put" => Call::Put {
            start: number(first)?,
            end: number(second)?,
            length: length(heap, third)?,
        },
        "relength" => Call::Relength {
            arc: number(first)?,
            length: length(heap, second)?,
        },
        "close" => Call::Close {
            arc: number(first)?,
        },
        "open" => Call::Open {
            arc: number(first)?,
        },
        "solve" => Call::Solve {
            order: Order::new(number(first)?, number(second)?)?,
            values: ALL,
            counts: ALL,
        },
        "length" => Call::Length {
            node: number(first)?,
            place: number(second)?,
        },
        "trace" => Call::Trace {
            target: number(first)?,
            work: ALL,
            path: ALL,
        },
        "next" => Call::Next,
        "finish" => Call::Finish,
        "reopen" => Call::Reopen,
        _ => return Err(LineError::Unknown),
    }))
}
