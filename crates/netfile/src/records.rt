// The records of a file.
ghost use Rattle.std.specs.Prelude.{◌≡◌, Err, MatchResult};
ghost use Rattle.netfile.specs.Records.{spelled, body_size, in_order, mark_of, found, Found};

use super::{Kind, Reason, Stage};

// What the two letters at a record's head say. An enum beside `Record`, since a mark is judged before there is a body to borrow.
#[derive(Clone, Copy, PartialEq, Eq, Debug)]
pub enum Mark {
    Network,
    Arc,
    Query,
    Target,
    End,
}

// A record with its body, the bytes after its mark.
#[derive(Clone, Copy, PartialEq, Eq, Debug)]
pub enum Record<'a> {
    Network(&'a [u8]),
    Arc(&'a [u8]),
    Query(&'a [u8]),
    Target(&'a [u8]),
    End,
}

impl Mark {
    // The mark that two letters spell, if they do; no `TryFrom`, since there is no more to say where they spell none.
    fn spelled(first: u8, second: u8) -> Option<Mark>
        ensures { result ≡ spelled first second }
    {
        match (first, second) {
            (b'N', b'W') => Some(Mark::Network),
            (b'A', b'R') => Some(Mark::Arc),
            (b'Q', b'S') => Some(Mark::Query),
            (b'Q', b'T') => Some(Mark::Target),
            (b'E', b'N') => Some(Mark::End),
            _ => None,
        }
    }

    // How many bytes follow the mark.
    pub fn body_size(self, kind: Kind) -> usize
        ensures { result ≡ body_size self kind }
    {
        match self {
            Mark::Network | Mark::Query => 3,
            Mark::Arc => 4 + 4 * kind.width(),
            Mark::Target => 4,
            Mark::End => 0,
        }
    }

    // Whether a record of this mark may stand here.
    fn in_order(self, stage: Stage) -> bool
        ensures { result ≡ in_order stage self }
    {
        matches!(
            (stage, self),
            (Stage::Start, Mark::Network)
                | (Stage::Arcs, Mark::Arc | Mark::Query)
                | (Stage::Queries, Mark::Query | Mark::Target | Mark::End)
        )
    }
}

impl<'a> Record<'a> {
    // The mark that the record was read by. A method, since no derive turns the variants of one enum into those of another.
    pub fn mark(self) -> Mark
        ensures { result ≡ mark_of self.entry }
    {
        match self {
            Record::Network(_) => Mark::Network,
            Record::Arc(_) => Mark::Arc,
            Record::Query(_) => Mark::Query,
            Record::Target(_) => Mark::Target,
            Record::End => Mark::End,
        }
    }
}

// The record at the head of these bytes, in a file of this kind: judged by its mark, its order and then the bytes of its body.
pub fn next_record<'a>(rest: &'a [u8], stage: Stage, kind: Kind) -> Result<Record<'a>, Reason>
    ensures { MatchResult result (λ item. Found stage kind rest.now item) (λ why. found stage kind rest.now ≡ Err why) }
{
    let [first, second, after @ ..] = rest else {
        return Err(Reason::CutShort);
    };
    let mark = Mark::spelled(*first, *second).ok_or(Reason::BadMark)?;
    if !mark.in_order(stage) {
        return Err(Reason::BadMark);
    }
    let body = after.get(..mark.body_size(kind)).ok_or(Reason::CutShort)?;
    Ok(match mark {
        Mark::Network => Record::Network(body),
        Mark::Arc => Record::Arc(body),
        Mark::Query => Record::Query(body),
        Mark::Target => Record::Target(body),
        Mark::End => Record::End,
    })
}
