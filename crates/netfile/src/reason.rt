ghost use Rattle.std.specs.Prelude.{◌≡◌};
ghost use Rattle.netfile.specs.Reasons.{reason_number};

use sweeps::Refusal;

// Why a file is refused.
#[derive(Clone, Copy, PartialEq, Eq, Debug)]
pub enum Reason {
    // an arc is not taken
    Arc(Refusal),
    // the file ends inside a record, or without an end record
    CutShort,
    // an unknown mark, or a record out of its order
    BadMark,
    // a field is outside its range
    BadField,
    // bytes after the end record
    Trailing,
    // more nodes than the reader takes
    TooManyNodes,
    // more bytes than the reader takes
    TooManyBytes,
}

impl Reason {
    // The number that the reason is known by. By hand, since a reason may hold a refusal, so its variants bear no numbers.
    pub fn number(self) -> u8
        ensures { result ≡ reason_number self }
    {
        match self {
            Reason::Arc(why) => why.number(),
            Reason::CutShort => 15,
            Reason::BadMark => 16,
            Reason::BadField => 17,
            Reason::Trailing => 18,
            Reason::TooManyNodes => 19,
            Reason::TooManyBytes => 20,
        }
    }
}

// A reason, and the byte of the file that it is about, counted from 0.
#[derive(Clone, Copy, PartialEq, Eq, Debug)]
pub struct Fault {
    pub reason: Reason,
    pub at: usize,
}
