// The replay of the rules: a header and records come in, as on standard input, and the answers' lines go out, as on standard output.
// Relies on stream for the lines and on calls for what each of them does; nothing here knows a record or an answer.
#![tactic(auto)]

ghost use Rattle.std.specs.Prelude.{◌≤◌, IfOk};
ghost use Rattle.ballots.specs.Ballot.{max_boxes};

use ballots::MAX_BOXES;
use consensus::TABLE_SIZE;
use lines::LONGEST_RECORD;
use std::io;
use std::io::{Read, Write};
use stream::{Fault, Input, Output};

#[cfg(test)]
mod tests; // tests.rt: what is lent, and what is written where a read or a write fails

// The tables of as many boxes as there can be.
const ALL_TABLES: usize = MAX_BOXES as usize * TABLE_SIZE;

const LONGEST_HEADER: usize = 8;

// Replays what is read onto what is written: standard input onto standard output. An error is that of a read or a write.
pub fn replay_input(source: &mut impl Read, sink: &mut impl Write) -> io::Result<()> {
    let mut input = Input::new(source);
    let mut output = Output::new(sink);
    let mut tables = [0u64; ALL_TABLES];
    match header(&mut input) {
        Ok(boxes) => {
            let size = boxes as usize * TABLE_SIZE;
            records(&mut input, &mut output, boxes, &mut tables[..size])
        }
        Err(Fault::BadLine) => output.stop_at(1),
        Err(Fault::Io(error)) => Err(error),
    }
}

// How many boxes the header names.
#[tactic(auto, using(calls::specs::HeaderLaws::boxes_at_most_seven, calls::specs::UnlessZeroLaws::some_tells))]
fn header<R: Read + Drop>(input: &mut Input<R>) -> Result<u64, Fault>
    ensures { IfOk result (λ boxes. boxes ≤ max_boxes) }
{
    let line = input.next_line(LONGEST_HEADER)?.ok_or(Fault::BadLine)?;
    calls::boxes_of(line).ok_or(Fault::BadLine)
}

// The records behind the header, with fresh tables.
fn records<R: Read + Drop, W: Write + Drop>(
    input: &mut Input<R>,
    output: &mut Output<W>,
    boxes: u64,
    tables: &mut [u64],
) -> io::Result<()> {
    calls::fresh_tables(boxes, tables);
    input.each_line(output, LONGEST_RECORD, 2, |line, output| {
        output.put(|room| calls::call(line, boxes, tables, room))
    })
}
