// What is to be written, gathered in a buffer. `make_room`, `flush` and `stop_at` are public and take any sink, buffer and count, so these are parameters
// there; `Output` owns them. (For a struct of lent buffers see input.rt.)
// Relies on lines for a line of numbers and on calls for that of a bad line. Cited by the programs' loops.
ghost use Rattle.std.specs.Prelude.{◌≡◌, ℕ, List, [], ◌∷◌, ◌+◌, ◌-◌, ◌<◌, ◌≤◌, ◌++◌, length, take, drop, min, IfOk, OnOk, OnErr, IsErrOf};
ghost use Rattle.std.specs.Fn.{FnOnceReturnsAtMut};
ghost use Rattle.lines.specs.Text.{line_text};
ghost use Rattle.calls.specs.Call.{bad_line};
ghost use Rattle.std.specs.Io.KnownBytes.{Appends};
ghost use Rattle.stream.specs.StopLine.{line_put, stop_line};
ghost use Rattle.stream.specs.declared.TheConstants.{BUFFER_SIZE};
ghost use Rattle.stream.specs.declared.output.TheConstants.{ROOM};

use super::BUFFER_SIZE;
use super::fault::Fault;
use std::io::Write;
use std::{io, mem};

// Output is written out when there is less room than this: no line of a program's output is longer.
const ROOM: usize = 256;

// Writes out the first `used` bytes where little room is left, and gives how many are still to be written.
// An error is that of a write: some of the bytes may have gone out.
pub fn make_room<W: Write>(sink: &mut W, out: &[u8], used: usize) -> io::Result<usize>
    ensures within { IfOk result (λ left. left ≤ length out.now) }
    ensures room { IfOk result (λ left. ROOM ≤ length out.now → left + ROOM ≤ length out.now) }
    ensures whole { IfOk result (λ left. 0 < left → left ≡ used) }
    ensures written { IfOk result (λ left. used ≤ length out.now → Appends (W.contents sink.old) (W.contents sink.new) (take (used - left) out.now)) }
{
    if out.len() < used {
        return Ok(0);
    }
    if ROOM <= out.len() - used {
        return Ok(used);
    }
    sink.write_all(&out[0..used])?;
    Ok(0)
}

// Writes out the first `used` bytes. An error is that of a write: some of them may have gone out.
pub fn flush<W: Write>(sink: &mut W, out: &[u8], used: usize) -> io::Result<()>
    ensures written { OnOk result (used ≤ length out.now → Appends (W.contents sink.old) (W.contents sink.new) (take used out.now)) }
{
    if used <= out.len() {
        sink.write_all(&out[0..used])?;
    }
    Ok(())
}

// Writes out the first `used` bytes, and that the line of this number is bad. An error is that of a write: some of them may have gone out.
#[tactic(auto, using(lines::specs::WriteLaws::written_within))]
pub fn stop_at<W: Write>(sink: &mut W, number: u64, out: &mut [u8], used: usize) -> io::Result<()>
    ensures written { OnOk result (used ≤ length out.old → Appends (W.contents sink.old) (W.contents sink.new) (take used out.old ++ stop_line number out.old)) }
    ensures err { OnErr result (length out.new ≡ length out.old) }
{
    flush(sink, out, used)?;
    let written = calls::bad_line(number, out).unwrap_or(0);
    flush(sink, out, written)
}

// Lets `write` write into the room, and gives how many of its bytes are written: as many as it says.
fn written_by<E, F>(write: F, room: &mut [u8]) -> Result<usize, Fault>
where
    Fault: From<E>,
    F: FnOnce(&mut [u8]) -> Result<usize, E>,
    requires { F.IsAlwaysCallable write }
    ensures { IfOk result (λ m. (n : ℕ) × FnOnceReturnsAtMut F.FnOnce write room.old (Ok n) room.new × (m ≡ min n (length room.old))) }
{
    let most = room.len();
    let written = write(room)?;
    Ok(written.min(most))
}

// What is to be written, and where to.
#[derive(Drop)]
pub struct Output<W: Drop> {
    sink: W,
    buffer: [u8; BUFFER_SIZE],
    used: usize,
    ghost room: { used + ROOM ≤ BUFFER_SIZE },
}

impl<W: Write + Drop> Output<W> {
    ghost use Rattle.stream.specs.PutOut.{Given, WrittenOut, put_out};

    // Nothing is to be written yet.
    pub fn new(sink: W) -> Self
        ensures sink { result.sink ≡ sink }
        ensures none_left { result.used ≡ 0 }
    {
        Output {
            sink,
            buffer: [0u8; BUFFER_SIZE],
            used: 0,
        }
    }

    // Puts what `write` writes at the front of the room that is left: as many bytes as it says, if there is room for them. There is room for a line.
    // Where it says that the line is bad, what was put before still stands.
    #[tactic(auto, using(crate::proofs::Put::grows, crate::proofs::Put::rest))]
    pub fn put<E, F>(&mut self, write: F) -> Result<(), Fault>
    where
        Fault: From<E>,
        F: FnOnce(&mut [u8]) -> Result<usize, E>,
        requires { F.IsAlwaysCallable write }
        ensures written { OnOk result ((n : ℕ) × (room : List ℕ) × FnOnceReturnsAtMut F.FnOnce write (drop self.old.used self.old.buffer) (Ok n) room
            × Given W.contents self.old self.new (take n room)) }
        ensures refused { IsErrOf result Fault.BadLine → Given W.contents self.old self.new [] }
    {
        let used = self.used;
        let bytes = &mut self.buffer[..];
        let written = written_by(write, &mut bytes[used..])?;
        self.keep(used + written)?;
        Ok(())
    }

    // Puts a line of numbers, where there is room for it. There is for one of at most `ROOM` bytes.
    #[tactic(auto, using(crate::proofs::Put::put_whole))]
    pub fn put_numbers(&mut self, numbers: &[u64]) -> Result<(), Fault>
        ensures written { OnOk result (Given W.contents self.old self.new (line_put numbers.now (drop self.old.used self.old.buffer))) }
        ensures whole { OnOk result (length (line_text numbers.now) ≤ ROOM → Given W.contents self.old self.new (line_text numbers.now)) }
    {
        self.put(|room| -> Result<usize, Fault> {
            Ok(lines::write_numbers(numbers, room).unwrap_or(0))
        })?;
        Ok(())
    }

    // Takes the first `used` bytes for what is to be written, and writes them out where little room is left behind them.
    #[tactic(auto, using(crate::proofs::Put::stays))]
    fn keep(&mut self, used: usize) -> io::Result<()>
        requires { used ≤ BUFFER_SIZE }
        ensures { OnOk result (Appends (put_out (W.contents self.old.sink) self.old.buffer used) (put_out (W.contents self.new.sink) self.new.buffer self.new.used) []) }
    {
        self.used = 0;
        self.used = make_room(&mut self.sink, &self.buffer, used)?;
        Ok(())
    }

    // Writes out what is to be written.
    pub fn flush(&mut self) -> io::Result<()>
        ensures written { OnOk result (Appends (W.contents self.old.sink) (W.contents self.new.sink) (take self.old.used self.old.buffer)) }
        ensures none_left { self.new.used ≡ 0 }
    {
        flush(&mut self.sink, &self.buffer, mem::take(&mut self.used))
    }

    // Writes out what is to be written, and that the line of this number is bad.
    #[tactic(auto, using(crate::proofs::Put::stop_line_whole))]
    pub fn stop_at(&mut self, number: u64) -> io::Result<()>
        ensures written { OnOk result (WrittenOut W.contents self.old self.new (line_text (bad_line ∷ number ∷ []))) }
        ensures none_left { self.new.used ≡ 0 }
    {
        stop_at(
            &mut self.sink,
            number,
            &mut self.buffer,
            mem::take(&mut self.used),
        )
    }

    // Ends the output at line `number`, which is bad or could not be had: what is to be written goes out first.
    pub fn end_at(&mut self, number: u64, fault: Fault) -> io::Result<()>
        ensures bad_line { OnOk result ((fault ≡ Fault.BadLine) × WrittenOut W.contents self.old self.new (line_text (bad_line ∷ number ∷ []))) }
        ensures none_left { self.new.used ≡ 0 }
    {
        match fault {
            Fault::BadLine => self.stop_at(number),
            Fault::Io(error) => {
                self.flush()?;
                Err(error)
            }
        }
    }
}
