// One table and one byte buffer, in fixed memory, and what each operation does to them.
// Relies on the crates that are probed. Cited by the program's loop.
ghost use Rattle.std.specs.Prelude.{◌≤◌};
ghost use Rattle.probe.specs.declared.probed.TheConstants.{MOST_NUMBERS};

use super::digest::digest;
use super::operation::Operation;
use calls::CallRefusal;
use consensus::Event;
use std::io::Write;
use stream::{Fault, Output};

const MOST_NUMBERS: usize = 1024;

const MOST_BYTES: usize = 256;

// The table is the first `length` numbers.
#[derive(Drop)]
pub struct Probed {
    numbers: [u64; MOST_NUMBERS],
    length: usize,
    bytes: [u8; MOST_BYTES],
    ghost within: { length ≤ MOST_NUMBERS },
}

impl Probed {
    // A table of no numbers, and bytes of zero.
    pub fn new() -> Self {
        Probed {
            numbers: [0u64; MOST_NUMBERS],
            length: 0,
            bytes: [0u8; MOST_BYTES],
        }
    }

    // One operation with its six numbers. All but the making and setting put a line. One match, as the operations are a closed enum.
    pub fn operate<W: Write + Drop>(
        &mut self,
        record: [u64; 7],
        output: &mut Output<W>,
    ) -> Result<(), Fault> {
        let [operation, a, b, c, d, e, f] = record;
        match Operation::try_from(operation) {
            Ok(Operation::MakeTable) => self.make_table(a, b, c),
            Ok(Operation::SetNumber) => self.set_number(a, b),
            Ok(Operation::SetBytes) => self.set_bytes(a, [b, c, d, e, f]),
            Ok(Operation::Step) => return output.put_numbers(&self.step([a, b, c, d, e, f])),
            Ok(Operation::Board) => return output.put_numbers(&self.entry(a)),
            Ok(Operation::Read) => return output.put_numbers(&self.read(a)),
            Ok(Operation::Write) => return output.put_numbers(&self.write(a)),
            Err(none) => return output.put_numbers(&[u64::from(none)]),
        }
        Ok(())
    }

    // The table becomes so many zeros, with two numbers at its front.
    fn make_table(&mut self, length: u64, boxes: u64, index: u64) {
        self.numbers.fill(0);
        self.length = (length as usize).min(MOST_NUMBERS);
        self.set_number(0, boxes);
        self.set_number(1, index);
    }

    // A number of the table, where it has such a place.
    fn set_number(&mut self, place: u64, value: u64) {
        let at = place as usize;
        if at < self.length {
            self.numbers[at] = value;
        }
    }

    // Five bytes of the buffer from a place on, where it has such places.
    fn set_bytes(&mut self, place: u64, values: [u64; 5]) {
        let at = (place as usize).min(MOST_BYTES);
        let bytes = &mut self.bytes[..];
        for (byte, value) in bytes[at..].iter_mut().zip(&values) {
            *byte = (*value % 256) as u8;
        }
    }

    // The step on the table: the answer's eight numbers and the table's digest.
    fn step(&mut self, event: [u64; 6]) -> [u64; 9] {
        let numbers = &mut self.numbers[..];
        let table = &mut numbers[..self.length];
        let answer = consensus::step(table, Event::from(event));
        let [a, b, c, d, e, f, g, h] = calls::numbers_of(answer);
        [a, b, c, d, e, f, g, h, digest(table)]
    }

    // The board's answer for a link: answer, owner, revision, ticket.
    fn entry(&self, link: u64) -> [u64; 4] {
        board::numbers_of(board::board(&self.numbers[..self.length], link))
    }

    // The first `count` bytes read as one line: the answer and the seven numbers.
    fn read(&self, count: u64) -> [u64; 8] {
        let count = (count as usize).min(MOST_BYTES);
        match lines::read_record(&self.bytes[..count]) {
            Ok(numbers) => {
                let [a, b, c, d, e, f, g] = numbers;
                [0, a, b, c, d, e, f, g]
            }
            Err(bad) => [u64::from(CallRefusal::from(bad)), 0, 0, 0, 0, 0, 0, 0],
        }
    }

    // The table's first seven numbers written to the first `count` bytes: the answer, the length and the bytes' digest.
    fn write(&mut self, count: u64) -> [u64; 3] {
        let count = (count as usize).min(MOST_BYTES);
        let table = &self.numbers[..self.length];
        let record = std::array::from_fn(|i| table.get(i).copied().unwrap_or(0));
        let bytes = &mut self.bytes[..];
        match lines::write_record(record, &mut bytes[..count]) {
            Ok(length) => [0, length as u64, digest(&self.bytes)],
            Err(short) => [u64::from(CallRefusal::from(short)), 0, digest(&self.bytes)],
        }
    }
}
