// Why the board says nothing of a link. Relies on specs/, which says which answer of the rules each refusal is, and what its text is.
ghost use Rattle.std.specs.Prelude.{◌≡◌, Err, Some};
ghost use Rattle.board.specs.Board.{answer_of, answer_by_rules};
ghost use Rattle.board.specs.ErrorTexts.{refusal_text};

use std::error::Error;
use std::fmt;

// The board's refusal, by the rules' number.
#[derive(Clone, Copy, Debug, PartialEq, Eq, Hash)]
pub enum BoardRefusal {
    BadTable = 1,
    BadLink,
}

// The number that the rules give a refusal.
impl From<BoardRefusal> for u64 {
    ghost from_gives = { λ refusal number. number ≡ answer_of (answer_by_rules (Err refusal)) };

    fn from(refusal: BoardRefusal) -> u64 {
        refusal as u64
    }
}

impl fmt::Display for BoardRefusal {
    ghost output = { λ refusal. Some (refusal_text refusal) };

    fn fmt<W: fmt::Write>(&self, f: &mut fmt::Formatter<W>) -> fmt::Result {
        f.write_str(match self {
            BoardRefusal::BadTable => "not a box's table",
            BoardRefusal::BadLink => "the link is above 255",
        })
    }
}

impl Error for BoardRefusal {}
