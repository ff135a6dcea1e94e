// The lines of what is read, one after the other. `next_line` is public and takes any buffer and any places, so these are parameters there; `Input`
// owns them. (A struct of lent buffers was tried: "a place behind a reference that is lent is used in a way that has no rule yet".)
// Relies on calls for the end of a line. Cited by the programs' loops.
ghost use Rattle.std.specs.Prelude.{◌≡◌, ◌+◌, ◌≤◌, length, IfOk, IfSome, OnOk, OnErr};
ghost use Rattle.stream.specs.Places.{PlacedIn};
ghost use Rattle.stream.specs.declared.TheConstants.{BUFFER_SIZE};

use super::BUFFER_SIZE;
use super::fault::Fault;
use super::output::Output;
use std::io::{Read, Write};
use std::{io, mem};

// Where a line stands in a buffer: from `start` up to `end`. The bytes read so far end at `stop`.
#[derive(Clone, Copy, Debug, PartialEq, Eq)]
pub struct Place {
    pub start: usize,
    pub end: usize,
    pub stop: usize,
}

// The line that starts at `at`, where the bytes read so far end at `end`: of at most `most` bytes. More is read where its newline is not there.
// None is the end of the input. A line is bad where it is too long, or the input ends in it.
// After a failed read the bytes still stand in the buffer, but no longer from `at` on: the lines cannot go on.
pub fn next_line(
    source: &mut impl Read,
    input: &mut [u8],
    at: usize,
    end: usize,
    most: usize,
) -> Result<Option<Place>, Fault>
    ensures placed { IfOk result (PlacedIn (length input.old)) }
    ensures short { IfOk result (λ found. IfSome found (λ place. place.end ≤ place.start + most)) }
    ensures err { OnErr result (length input.new ≡ length input.old) }
{
    let mut from = at;
    let mut to = end;
    if input.len() < to {
        return Err(Fault::BadLine);
    }
    if to < from {
        return Err(Fault::BadLine);
    }
    loop {
        if let Some(length) = line_within(input, from, to, most) {
            return Ok(Some(Place {
                start: from,
                end: from + length,
                stop: to,
            }));
        }
        let kept = to - from;
        if most <= kept {
            return Err(Fault::BadLine);
        }
        input.copy_within(from..to, 0);
        from = 0;
        to = more(source, input, kept)?;
        if to <= kept {
            return ended(kept);
        }
    }
}

// What the end of the input makes of the bytes that are left.
fn ended(left: usize) -> Result<Option<Place>, Fault>
    ensures { IfOk result (λ found. found ≡ None) }
{
    if 0 < left {
        Err(Fault::BadLine)
    } else {
        Ok(None)
    }
}

// The length of the line at `from`, if its newline is among the next `most` bytes up to `to`.
#[tactic(auto, using(calls::specs::FirstLineLaws::found_within))]
fn line_within(input: &[u8], from: usize, to: usize, most: usize) -> Option<usize>
    requires { (from ≤ to) × (to ≤ length input.now) }
    ensures there { IfSome result (λ n. from + n ≤ to) }
    ensures short { IfSome result (λ n. n ≤ most) }
{
    let stop = from + most.min(to - from);
    calls::line_length(&input[from..stop])
}

// Reads once, behind the first `have` bytes, and gives how many there are then.
fn more(source: &mut impl Read, input: &mut [u8], have: usize) -> Result<usize, Fault>
    requires { have ≤ length input.old }
    ensures within { IfOk result (λ n. (have ≤ n) × (n ≤ length input.old)) }
    ensures err { OnErr result (length input.new ≡ length input.old) }
{
    let got = source.read(&mut input[have..])?;
    Ok(have + got)
}

// What is read, and the lines of it.
#[derive(Drop)]
pub struct Input<R: Drop> {
    source: R,
    buffer: [u8; BUFFER_SIZE],
    at: usize,
    end: usize,
    ghost within: { (at ≤ end) × (end ≤ BUFFER_SIZE) },
}

impl<R: Read + Drop> Input<R> {
    // Nothing of the source is read yet.
    pub fn new(source: R) -> Self
        ensures source { result.source ≡ source }
        ensures none_read { result.end ≡ 0 }
    {
        Input {
            source,
            buffer: [0u8; BUFFER_SIZE],
            at: 0,
            end: 0,
        }
    }

    // The next line, of at most `most` bytes. None is the end of the input. After an error none of the bytes read is left.
    pub fn next_line(&mut self, most: usize) -> Result<Option<&[u8]>, Fault>
        ensures { IfOk result (λ found. IfSome found (λ line. length line.now ≤ most)) }
    {
        let at = mem::take(&mut self.at);
        let end = mem::take(&mut self.end);
        let found = next_line(&mut self.source, &mut self.buffer, at, end, most)?;
        let Some(place) = found else {
            return Ok(None);
        };
        self.at = place.end;
        self.end = place.stop;
        let bytes = &self.buffer[..];
        Ok(Some(&bytes[place.start..place.end]))
    }

    // Calls `each` on every line of at most `most` bytes, where the next one is line `first`, and writes the output out at the end.
    // The first bad line, and the first read or write that fails, is the end too: where a read fails, what was put goes out before its error;
    // where a read or write of `each` fails, nothing more is written. No input has as many lines as the numbers go.
    pub fn each_line<W: Write + Drop, F>(
        &mut self,
        output: &mut Output<W>,
        most: usize,
        first: u64,
        mut each: F,
    ) -> io::Result<()>
    where
        F: FnMut(&[u8], &mut Output<W>) -> Result<(), Fault>,
        requires { F.IsAlwaysCallable each }
        ensures none_left { OnOk result (output.new.used ≡ 0) }
    {
        for number in first..u64::MAX {
            match self.next_line(most) {
                Ok(Some(line)) => match each(line, output) {
                    Ok(()) => {}
                    Err(Fault::BadLine) => return output.stop_at(number),
                    Err(Fault::Io(error)) => return Err(error),
                },
                Ok(None) => return output.flush(),
                Err(fault) => return output.end_at(number, fault),
            }
        }
        output.flush()
    }
}
