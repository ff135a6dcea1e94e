// Lines of text: a record of seven decimal numbers is read from one line and written as one line, and numbers of
// any count are written so. Relies on specs/Text, specs/Read and specs/Write, which the contracts cite, and on the
// kit's `itoa` for a number's digits. A record is
// seven numbers in read_record, write_record and LONGEST_RECORD alone.

#![tactic(auto)]

ghost use Rattle.std.specs.Prelude.{◌≡◌, ◌++◌, ◌+◌, ◌≤◌, length, take, drop, MatchOption};
ghost use Rattle.lines.specs.Text.{number_text, line_text, end_byte};
ghost use Rattle.lines.specs.Read.{a_number, no_number, the_numbers, no_numbers};
ghost use Rattle.lines.specs.Read.{more_digits, read_number, read_numbers, read_record, reading_by_rules};
ghost use Rattle.lines.specs.Write.{written_record, written_buffer, written_by_rules};

mod error; // error.rt: why a line is not read or not written

pub use error::{BadLine, ShortBuffer};

// The bytes of the longest number, twenty digits, and the byte after it; and those of the longest line of a record.
pub const LONGEST_NUMBER: usize = 21;

pub const LONGEST_RECORD: usize = 7 * LONGEST_NUMBER;

pub const TAB: u8 = b'\t';

pub const NEWLINE: u8 = b'\n';

// Reads a record: one whole line.
#[tactic(auto, unfolding(crate::specs::Read::read_record))]
pub fn read_record(line: &[u8]) -> Result<[u64; 7], BadLine>
    ensures { reading_by_rules result ≡ read_record line.now }
{
    read_numbers(line).ok_or(BadLine)
}

// Writes a record's line at the front of the buffer, if the buffer can hold it. Public, as is what it rests on, which takes any count.
pub fn write_record(numbers: [u64; 7], out: &mut [u8]) -> Result<usize, ShortBuffer>
    ensures answer { written_by_rules result ≡ written_record numbers out.old }
    ensures buffer { out.new ≡ written_buffer numbers out.old }
{
    write_numbers(&numbers, out)
}

// Writes a line of any count of numbers at the front of the buffer, if the buffer can hold it.
pub fn write_numbers(numbers: &[u64], out: &mut [u8]) -> Result<usize, ShortBuffer>
    ensures answer { written_by_rules result ≡ written_record numbers.now out.old }
    ensures buffer { out.new ≡ written_buffer numbers.now out.old }
{
    let end = measure(numbers, out)?;
    put_line(numbers, out, end);
    Ok(end)
}

// The byte after a number that has `left` numbers after it.
fn end_byte(left: usize) -> u8
    ensures { result ≡ end_byte left }
{
    if left == 0 { NEWLINE } else { TAB }
}

// More digits of a number that begins with `first`, and the bytes after them. By digits and not by `parse`, which takes a sign and zeros in front,
// and no bytes behind the number.
#[tactic(auto, using(crate::proofs::Sets::more_digits))]
fn more_digits(first: u64, bytes: &[u8]) -> Option<(u64, &[u8])>
    ensures { MatchOption result
        (more_digits first bytes.now ≡ no_number)
        (λ read. more_digits first bytes.now ≡ a_number read.0 read.1.now) }
{
    let mut v = first;
    let mut rest = bytes;
    while let Some((&b, after)) = rest.split_first()
        && b.is_ascii_digit()
    {
        v = v.checked_mul(10)?.checked_add(u64::from(b - b'0'))?;
        rest = after;
    }
    Some((v, rest))
}

// The number at the front of the bytes, and the bytes after it.
#[tactic(auto, using(crate::proofs::Sets::read_number))]
fn read_number(bytes: &[u8]) -> Option<(u64, &[u8])>
    ensures { MatchOption result
        (read_number bytes.now ≡ no_number)
        (λ read. read_number bytes.now ≡ a_number read.0 read.1.now) }
{
    let (&b, after) = bytes.split_first()?;
    match b {
        b'0' => Some((0, after)),
        b'1'..=b'9' => more_digits(u64::from(b - b'0'), after),
        _ => None,
    }
}

// The N numbers of a whole line.
#[tactic(auto, using(crate::proofs::Sets::read_numbers))]
fn read_numbers<const N: usize>(line: &[u8]) -> Option<[u64; N]>
    ensures { MatchOption result
        (read_numbers N line.now ≡ no_numbers)
        (λ numbers. read_numbers N line.now ≡ the_numbers numbers) }
{
    let mut numbers = [0; N];
    let mut bytes = line;
    // Counted beside the loop, since the proof doesn't close over iter_mut().zip((0..N).rev()): nothing says what the numbers end as.
    let mut left = N;
    for number in &mut numbers {
        left -= 1;
        let (value, after) = read_number(bytes)?;
        let (&end, rest) = after.split_first()?;
        if end != end_byte(left) {
            return None;
        }
        *number = value;
        bytes = rest;
    }
    bytes.is_empty().then_some(numbers)
}

// The count of digits of a number. Most have one, which is told without a logarithm: that is quicker.
#[tactic(auto, using(crate::proofs::Sets::width))]
fn width(n: u64) -> usize
    ensures { result ≡ length (number_text n) }
{
    if n < 10 {
        return 1;
    }
    n.ilog10() as usize + 1
}

// The length of the numbers' line: the buffer's room is counted down, so that no sum can overflow.
#[tactic(auto, using(crate::proofs::Sets::measure))]
fn measure(numbers: &[u64], out: &[u8]) -> Result<usize, ShortBuffer>
    ensures { written_by_rules result ≡ written_record numbers.now out.now }
{
    let mut room = out.len();
    for &n in numbers {
        let digits = width(n);
        if room <= digits {
            return Err(ShortBuffer);
        }
        room -= digits + 1;
    }
    Ok(out.len() - room)
}

// Puts a number's text before the place `end` of the buffer, and gives where it starts: by places, as `itoa` writes before one. Most numbers of a line
// have one digit, which is put here: that is quicker.
#[tactic(auto, using(crate::proofs::Sets::put_number))]
fn put_number(n: u64, out: &mut [u8], end: usize) -> usize
    requires room { length (number_text n) ≤ end }
    requires within { end ≤ length out.old }
    ensures start { result + length (number_text n) ≡ end }
    ensures before { take result out.new ≡ take result out.old }
    ensures put { drop result out.new ≡ number_text n ++ drop end out.old }
{
    if n < 10 {
        out[end - 1] = b'0' + n as u8;
        return end - 1;
    }
    itoa::write_digits(n, out, end)
}

// Puts the numbers' line at the front of the buffer, from its end back to its start.
#[tactic(auto, using(crate::proofs::Sets::put_line))]
fn put_line(numbers: &[u64], out: &mut [u8], end: usize)
    requires fits { end ≤ length out.old }
    requires whole { end ≡ length (line_text numbers.now) }
    ensures { out.new ≡ line_text numbers.now ++ drop (length (line_text numbers.now)) out.old }
{
    let mut at = end;
    for (left, &n) in numbers.iter().rev().enumerate() {
        out[at - 1] = end_byte(left);
        at = put_number(n, out, at - 1);
    }
}
