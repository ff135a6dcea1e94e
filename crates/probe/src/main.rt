// The probe program: each line names an operation on one table and one byte buffer, and the answers go out as lines of numbers.
// It puts single calls of lines, consensus and board, also with damaged tables and lines, beside those of a second program.
// A failed read or write ends it, with status 1.
#![tactic(auto)]

use lines::LONGEST_RECORD;
use probed::Probed;
use std::io;
use stream::{Input, Output};

mod digest; // digest.rt: the number that stands for a list of numbers
mod operation; // operation.rt: the operations and their numbers
mod probed; // probed.rt: what each operation does

fn main(rt: HostRuntime) -> io::Result<()> {
    let mut input = Input::new(rt.stdin());
    let mut output = Output::new(rt.stdout());
    let mut probed = Probed::new();
    input.each_line(&mut output, LONGEST_RECORD, 1, |line, output| {
        probed.operate(lines::read_record(line)?, output)
    })
}
