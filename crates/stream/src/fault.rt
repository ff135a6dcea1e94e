// Why a line could not be had, or why nothing more can be done with it.
ghost use Rattle.std.specs.Prelude.{◌≡◌};
ghost use Rattle.stream.specs.declared.fault.Fault.TheVariants.{BadLine, Io};
ghost use Rattle.stream.specs.ErrorTexts.{fault_text};

use std::error::Error;
use std::{fmt, io};

// A bad line, or a read or write that failed.
#[derive(Debug, Drop)]
pub enum Fault {
    BadLine,
    Io(io::Error),
}

impl From<io::Error> for Fault {
    ghost from_gives = { λ failed fault. fault ≡ Io failed };

    fn from(failed: io::Error) -> Fault {
        Fault::Io(failed)
    }
}

impl From<lines::BadLine> for Fault {
    ghost from_gives = { λ _ fault. fault ≡ BadLine };

    fn from(_line: lines::BadLine) -> Fault {
        Fault::BadLine
    }
}

// A line that a call refuses is bad: an output has room for any answer, and a program has the tables for its calls.
impl From<calls::CallRefusal> for Fault {
    ghost from_gives = { λ _ fault. fault ≡ BadLine };

    fn from(_refusal: calls::CallRefusal) -> Fault {
        Fault::BadLine
    }
}

impl fmt::Display for Fault {
    ghost output = { fault_text };

    fn fmt<W: fmt::Write>(&self, f: &mut fmt::Formatter<W>) -> fmt::Result {
        match self {
            Fault::BadLine => write!(f, "bad line"),
            Fault::Io(error) => write!(f, "{error}"),
        }
    }
}

impl Error for Fault {}
