// The kinds of events. Relies on specs/Events.antt, which gives each its number, and on specs/ErrorTexts.antt for the text of a number that
// no kind has. Cited by the event check and the step.
ghost use Rattle.std.specs.Prelude.{◌≡◌, Some};
ghost use Rattle.consensus.specs.Events.{kind_number, KindOf};
ghost use Rattle.consensus.specs.ErrorTexts.{unknown_kind_text};

use std::error::Error;
use std::fmt;

// The kinds of events, by the rules' numbers.
#[derive(Clone, Copy, Debug, PartialEq, Eq, Hash)]
pub enum Kind {
    Propose = 1,
    Collect,
    Last,
    Begin,
    Accept,
    Success,
    OldRound,
    Restart,
}

// A number that no kind has.
#[derive(Clone, Copy, Debug, PartialEq, Eq, Hash)]
pub struct UnknownKind(pub u64);

// The number that the rules give a kind.
impl From<Kind> for u64 {
    ghost from_gives = { λ kind number. number ≡ kind_number kind };

    fn from(kind: Kind) -> u64 {
        kind as u64
    }
}

impl TryFrom<u64> for Kind {
    type Error = UnknownKind;

    ghost try_from_gives = { KindOf };

    fn try_from(number: u64) -> Result<Kind, UnknownKind> {
        match number {
            1 => Ok(Kind::Propose),
            2 => Ok(Kind::Collect),
            3 => Ok(Kind::Last),
            4 => Ok(Kind::Begin),
            5 => Ok(Kind::Accept),
            6 => Ok(Kind::Success),
            7 => Ok(Kind::OldRound),
            8 => Ok(Kind::Restart),
            _ => Err(UnknownKind(number)),
        }
    }
}

impl fmt::Display for UnknownKind {
    ghost output = { λ unknown. Some (unknown_kind_text unknown) };

    fn fmt<W: fmt::Write>(&self, f: &mut fmt::Formatter<W>) -> fmt::Result {
        write!(f, "no kind of event has the number {}", self.0)
    }
}

impl Error for UnknownKind {}
