// What one line of a replay does: the header names the boxes, a record is one step at one box's table, and the answer
// is written as a line. Relies on specs/, which says what each function gives; nothing here knows how a step goes.
// The count of boxes and the tables come as two, since the public functions take any count and any slice, and refuse what doesn't fit.
#![tactic(auto)]

ghost use Rattle.std.specs.Prelude.{◌≡◌, [], ◌∷◌, ◌*◌, ◌≤◌, length};
ghost use Rattle.ballots.specs.Ballot.{max_boxes};
ghost use Rattle.lines.specs.Write.{written_by_rules, written_record, written_buffer};
ghost use Rattle.consensus.specs.Layout.{table_size, fresh};
ghost use Rattle.consensus.specs.Answers.{answer_by_rules, numbers_of};
ghost use Rattle.calls.specs.UnlessZero.{unless_zero};
ghost use Rattle.calls.specs.Header.{boxes_of};
ghost use Rattle.calls.specs.FirstLine.{line_length};
ghost use Rattle.calls.specs.Tables.{tables_ok, fresh_tables};
ghost use Rattle.calls.specs.Call.{bad_line, called_by_rules, on_record, call};

mod refusal; // refusal.rt: why a call does nothing

use ballots::MAX_BOXES;
use consensus::{Event, Message, Refusal, TABLE_SIZE};
use lines::{LONGEST_NUMBER, NEWLINE, ShortBuffer, TAB};
pub use refusal::CallRefusal;

// The bytes of the longest answer's line.
const LONGEST_ANSWER: usize = 8 * LONGEST_NUMBER;

// How many boxes a header names: "boxes", tab, N, newline.
#[tactic(auto, unfolding(crate::specs::Header::boxes_of, crate::specs::Header::is_header, crate::specs::Header::says_boxes))]
pub fn boxes_of(line: &[u8]) -> Option<u64>
    ensures { result ≡ unless_zero (boxes_of line.now) }
{
    match line {
        [b'b', b'o', b'x', b'e', b's', TAB, n @ b'1'..=b'7', NEWLINE] => Some(u64::from(n - b'0')),
        _ => None,
    }
}

// The length of the first line of some bytes, its newline included. By the kit's `memchr`: `position` takes two instructions more for each byte
// than a loop by hand.
#[tactic(auto, using(crate::proofs::Sets::line_length))]
pub fn line_length(bytes: &[u8]) -> Option<usize>
    ensures { result ≡ unless_zero (line_length bytes.now) }
{
    let end = memchr::memchr(NEWLINE, bytes)?;
    Some(end + 1)
}

// Makes the tables fresh, in a place that has room for just those of 1 to 7 boxes. Any other stays as it was.
#[tactic(auto, using(crate::proofs::Sets::fresh_tables), unfolding(crate::specs::Tables::fresh_tables))]
pub fn fresh_tables(boxes: u64, tables: &mut [u64])
    ensures { tables.new ≡ fresh_tables boxes tables.old }
{
    if !tables_ok(boxes, tables) {
        return;
    }
    // By index, since the proof doesn't close over chunks_exact_mut, plain, enumerated or zipped: nothing says what its parts end as.
    for i in 0..boxes {
        let start = i as usize * TABLE_SIZE;
        fresh_table(boxes, i, &mut tables[start..start + TABLE_SIZE]);
    }
}

// One line of a replay: a record's event at its box, and the answer's line at the front of the buffer, whose length is given.
#[tactic(auto, using(crate::proofs::Sets::call))]
pub fn call(
    line: &[u8],
    boxes: u64,
    tables: &mut [u64],
    out: &mut [u8],
) -> Result<usize, CallRefusal>
    ensures called { called_by_rules result ≡ (call line.now boxes tables.old out.old).called }
    ensures tables { tables.new ≡ (call line.now boxes tables.old out.old).tables }
    ensures buffer { out.new ≡ (call line.now boxes tables.old out.old).out }
{
    if !tables_ok(boxes, tables) {
        return Err(CallRefusal::BadTables);
    }
    let numbers = lines::read_record(line)?;
    if out.len() < LONGEST_ANSWER {
        return Err(CallRefusal::ShortBuffer);
    }
    let answer = on_record(boxes, tables, numbers);
    Ok(lines::write_numbers(&answer, out)?)
}

// The last line of a replay that a bad line stops: 8 and the line's number.
pub fn bad_line(number: u64, out: &mut [u8]) -> Result<usize, ShortBuffer>
    ensures answer { written_by_rules result ≡ written_record (bad_line ∷ number ∷ []) out.old }
    ensures buffer { out.new ≡ written_buffer (bad_line ∷ number ∷ []) out.old }
{
    lines::write_numbers(&[u64::from(CallRefusal::BadLine), number], out)
}

// The answer's number and the seven numbers of its message, which are zeros where there is none. A function, which is
// public and so stays, and no `From`, which only the library could write for a `Result`.
pub fn numbers_of(answer: Result<Option<Message>, Refusal>) -> [u64; 8]
    ensures { result ≡ numbers_of (answer_by_rules answer) }
{
    match answer {
        Ok(None) => [0; 8],
        Ok(Some(Message { to, event })) => {
            let [kind, slot, from, ballot, second, value]: [u64; 6] = event.into();
            [0, to, kind, slot, from, ballot, second, value]
        }
        Err(refusal) => [u64::from(refusal), 0, 0, 0, 0, 0, 0, 0],
    }
}

// 1 to 7 boxes, and a table for each.
#[tactic(auto, unfolding(crate::specs::Tables::tables_ok))]
fn tables_ok(boxes: u64, tables: &[u64]) -> bool
    ensures { result ≡ tables_ok boxes tables.now }
{
    (1..=MAX_BOXES).contains(&boxes) && tables.len() == boxes as usize * TABLE_SIZE
}

// Makes one box's table fresh.
fn fresh_table(boxes: u64, index: u64, table: &mut [u64])
    requires { length table.old ≡ table_size }
    ensures { table.new ≡ fresh boxes index }
{
    table.fill(0);
    table[0] = boxes;
    table[1] = index;
}

// A record's event at its box, where there is such a box.
#[tactic(auto, using(crate::proofs::Sets::on_record))]
fn on_record(boxes: u64, tables: &mut [u64], numbers: [u64; 7]) -> [u64; 8]
    requires { (boxes ≤ max_boxes) × (length tables.old ≡ boxes * table_size) }
    ensures answer { result ≡ (on_record boxes tables.old numbers).numbers }
    ensures tables { tables.new ≡ (on_record boxes tables.old numbers).tables }
{
    let [index, kind, slot, from, ballot, second, value] = numbers;
    if boxes <= index {
        return numbers_of(Err(Refusal::BadEvent));
    }
    let event = Event::from([kind, slot, from, ballot, second, value]);
    let start = index as usize * TABLE_SIZE;
    numbers_of(consensus::step(&mut tables[start..start + TABLE_SIZE], event))
}
