ghost use Rattle.std.specs.Prelude.{◌≡◌};
ghost use Rattle.columns.specs.Kinds.{width, Numbered, Named};

use std::str::FromStr;

// The kinds of lengths that files and lists name.
#[derive(Clone, Copy, PartialEq, Eq, Debug)]
pub enum Kind {
    Sum = 1,
    ReversedSum,
    SumThenSum,
    SumThenReversed,
}

// A number or a name that no kind has.
#[derive(Clone, Copy, PartialEq, Eq, Debug)]
pub struct UnknownKind;

impl Kind {
    // How many columns its lengths have.
    pub fn width(self) -> usize
        ensures { result ≡ width self }
    {
        match self {
            Kind::Sum | Kind::ReversedSum => 1,
            Kind::SumThenSum | Kind::SumThenReversed => 2,
        }
    }
}

// By its number in a network file.
impl TryFrom<u8> for Kind {
    type Error = UnknownKind;

    ghost try_from_gives = { Numbered };

    fn try_from(number: u8) -> Result<Kind, UnknownKind> {
        match number {
            1 => Ok(Kind::Sum),
            2 => Ok(Kind::ReversedSum),
            3 => Ok(Kind::SumThenSum),
            4 => Ok(Kind::SumThenReversed),
            _ => Err(UnknownKind),
        }
    }
}

// By its name in a list of routes or calls.
impl FromStr for Kind {
    type Err = UnknownKind;

    ghost from_str_gives = { Named };

    fn from_str(name: &str) -> Result<Kind, UnknownKind> {
        match name {
            "sum" => Ok(Kind::Sum),
            "reversed" => Ok(Kind::ReversedSum),
            "money then minutes" => Ok(Kind::SumThenSum),
            "money then reversed" => Ok(Kind::SumThenReversed),
            _ => Err(UnknownKind),
        }
    }
}
