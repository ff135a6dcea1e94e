// What no contract says of the replay: that its reader and writer are only lent, and what is written where one of them fails.
use super::replay_input;
use std::io;
use std::io::{ErrorKind, Read, Write};
use std::test::Fail;

const HEADER: &[u8] = b"boxes\t1\n";

const PROPOSE: &[u8] = b"0\t1\t0\t0\t0\t0\t5\n";

// What answers the first Propose.
const COLLECT: &[u8] = b"0\t7\t2\t0\t0\t8\t0\t0\n";

// What answers an input that is at its end from the start.
const BAD_LINE: &[u8] = b"8\t1\n";

const NEVER: usize = usize::MAX;

// Gives the header and so many records, one line a read; the read of this number, from 0, fails.
#[derive(Drop)]
struct Log {
    reads: usize,
    records: usize,
    fails_at: usize,
}

impl Read for Log {
    fn read(&mut self, buf: &mut [u8]) -> io::Result<usize> {
        let at = self.reads;
        self.reads = at.saturating_add(1);
        if at == self.fails_at {
            return Err(ErrorKind::TimedOut.into());
        }
        let line = if at == 0 { HEADER } else { PROPOSE };
        if self.records < at || buf.len() < line.len() {
            return Ok(0);
        }
        buf[..line.len()].copy_from_slice(line);
        Ok(line.len())
    }
}

// Counts the bytes, and the calls of `write_all`: the call of this number, from 1, fails, and those after it fail otherwise.
#[derive(Drop)]
struct Counted {
    bytes: usize,
    calls: usize,
    fails_at: usize,
}

impl Write for Counted {
    fn write(&mut self, buf: &[u8]) -> io::Result<usize> {
        self.write_all(buf)?;
        Ok(buf.len())
    }

    fn flush(&mut self) -> io::Result<()> {
        Ok(())
    }

    fn write_all(&mut self, buf: &[u8]) -> io::Result<()> {
        self.calls = self.calls.saturating_add(1);
        if self.calls == self.fails_at {
            return Err(ErrorKind::BrokenPipe.into());
        }
        if self.fails_at < self.calls {
            return Err(ErrorKind::StorageFull.into());
        }
        self.bytes = self.bytes.saturating_add(buf.len());
        Ok(())
    }
}

fn log_of(records: usize, fails_at: usize) -> Log {
    Log {
        reads: 0,
        records,
        fails_at,
    }
}

fn sink_failing_at(call: usize) -> Counted {
    Counted {
        bytes: 0,
        calls: 0,
        fails_at: call,
    }
}

fn twice<R: Read, W: Write>(source: &mut R, sink: &mut W) -> io::Result<()> {
    replay_input(source, sink)?;
    replay_input(source, sink)
}

#[test]
fn lends_its_reader_and_writer(rt: HostRuntime) -> Result<(), Fail> {
    let mut sink = sink_failing_at(NEVER);
    twice(&mut log_of(1, NEVER), &mut sink)?;
    assert_eq!(rt; sink.bytes, COLLECT.len() + BAD_LINE.len());
    Ok(())
}

// The answers of so many records do not fit into the buffer.
#[test]
fn writes_nothing_after_a_failed_write(rt: HostRuntime) {
    let mut sink = sink_failing_at(1);
    let told = replay_input(&mut log_of(5000, NEVER), &mut sink).map_err(|e| e.kind());
    assert_eq!(rt; told, Err(ErrorKind::BrokenPipe));
    assert_eq!(rt; sink.calls, 1);
}

#[test]
fn writes_nothing_where_the_header_cannot_be_read(rt: HostRuntime) {
    let mut sink = sink_failing_at(1);
    let told = replay_input(&mut log_of(0, 0), &mut sink).map_err(|e| e.kind());
    assert_eq!(rt; told, Err(ErrorKind::TimedOut));
    assert_eq!(rt; sink.calls, 0);
}

#[test]
fn writes_the_answers_before_a_failed_read(rt: HostRuntime) {
    let mut sink = sink_failing_at(NEVER);
    let told = replay_input(&mut log_of(1, 2), &mut sink).map_err(|e| e.kind());
    assert_eq!(rt; told, Err(ErrorKind::TimedOut));
    assert_eq!(rt; sink.bytes, COLLECT.len());
}
