// Why a call does nothing. Relies on specs/Call.antt, which gives each refusal its number, and on specs/ErrorTexts.antt for its text.
ghost use Rattle.std.specs.Prelude.{◌≡◌, Err, Some};
ghost use Rattle.calls.specs.Call.{called_by_rules};
ghost use Rattle.calls.specs.ErrorTexts.{refusal_text};
ghost use Rattle.calls.specs.declared.refusal.CallRefusal.TheVariants.{BadLine, ShortBuffer};

use std::error::Error;
use std::fmt;

// A call's refusal, by the rules' number.
#[derive(Clone, Copy, Debug, PartialEq, Eq, Hash)]
pub enum CallRefusal {
    BadTables = 1,
    BadLine = 8,
    ShortBuffer = 9,
}

// The number that the rules give a refusal.
impl From<CallRefusal> for u64 {
    ghost from_gives = { λ refusal number. number ≡ (called_by_rules (Err refusal)).answer };

    fn from(refusal: CallRefusal) -> u64 {
        refusal as u64
    }
}

impl From<lines::BadLine> for CallRefusal {
    ghost from_gives = { λ _ refusal. refusal ≡ BadLine };

    fn from(_line: lines::BadLine) -> Self {
        Self::BadLine
    }
}

impl From<lines::ShortBuffer> for CallRefusal {
    ghost from_gives = { λ _ refusal. refusal ≡ ShortBuffer };

    fn from(_buffer: lines::ShortBuffer) -> Self {
        Self::ShortBuffer
    }
}

impl fmt::Display for CallRefusal {
    ghost output = { λ refusal. Some (refusal_text refusal) };

    fn fmt<W: fmt::Write>(&self, f: &mut fmt::Formatter<W>) -> fmt::Result {
        f.write_str(match self {
            CallRefusal::BadTables => "no place for the tables of 1 to 7 boxes",
            CallRefusal::BadLine => "the line is not a record's",
            CallRefusal::ShortBuffer => "the buffer is shorter than the longest answer",
        })
    }
}

impl Error for CallRefusal {}
