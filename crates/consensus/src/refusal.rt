// Why a step is refused. Relies on specs/Answers.antt, which says which answer of the rules each refusal is, and on specs/ErrorTexts.antt for its text.
ghost use Rattle.std.specs.Prelude.{◌≡◌, Some};
ghost use Rattle.consensus.specs.Answers.{answer_number, refusal_by_rules};
ghost use Rattle.consensus.specs.ErrorTexts.{refusal_text};

use std::error::Error;
use std::fmt;

// A step's refusal, by the rules' number.
#[derive(Clone, Copy, Debug, PartialEq, Eq, Hash)]
pub enum Refusal {
    BadTable = 1,
    BadEvent,
    NotWellKept,
    NotAwaited,
    AlreadyAgreed,
    OtherAgreed,
    NoBallotLeft,
}

// The number that the rules give a refusal.
impl From<Refusal> for u64 {
    ghost from_gives = { λ refusal number. number ≡ answer_number (refusal_by_rules refusal) };

    fn from(refusal: Refusal) -> u64 {
        refusal as u64
    }
}

impl fmt::Display for Refusal {
    ghost output = { λ refusal. Some (refusal_text refusal) };

    fn fmt<W: fmt::Write>(&self, f: &mut fmt::Formatter<W>) -> fmt::Result {
        f.write_str(match self {
            Refusal::BadTable => "not a box's table",
            Refusal::BadEvent => "the event breaks the rules of events",
            Refusal::NotWellKept => "the slot is not well kept",
            Refusal::NotAwaited => "not a message that the slot waits for",
            Refusal::AlreadyAgreed => "a value is agreed already",
            Refusal::OtherAgreed => "another value is agreed",
            Refusal::NoBallotLeft => "no ballot is left",
        })
    }
}

impl Error for Refusal {}
