// What a line can ask for.

// The operations, by their numbers.
#[derive(Clone, Copy, Debug, PartialEq, Eq)]
pub enum Operation {
    MakeTable = 0,
    SetNumber,
    Step,
    Board,
    SetBytes,
    Read,
    Write,
}

// There is no operation of a number.
#[derive(Clone, Copy, Debug, PartialEq, Eq)]
pub struct NoOperation;

// What is put in place of an answer.
impl From<NoOperation> for u64 {
    fn from(_none: NoOperation) -> u64 {
        2
    }
}

impl TryFrom<u64> for Operation {
    type Error = NoOperation;

    fn try_from(number: u64) -> Result<Operation, NoOperation> {
        match number {
            0 => Ok(Operation::MakeTable),
            1 => Ok(Operation::SetNumber),
            2 => Ok(Operation::Step),
            3 => Ok(Operation::Board),
            4 => Ok(Operation::SetBytes),
            5 => Ok(Operation::Read),
            6 => Ok(Operation::Write),
            _ => Err(NoOperation),
        }
    }
}
