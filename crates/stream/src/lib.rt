// Input line by line and output by the buffer, both of any length, in constant memory.
// Relies on lines and calls: for a line of numbers, the end of a line, and the line of a bad line. The programs hand over what they read from and write to.
#![tactic(auto)]

mod fault; // fault.rt: why a line could not be had or an answer not be put
mod input; // input.rt: the lines of what is read
mod output; // output.rt: what is to be written, gathered

pub use fault::Fault;
pub use input::{Input, Place, next_line};
pub use output::{Output, flush, make_room, stop_at};

// The bytes that an input holds at a time, and an output.
const BUFFER_SIZE: usize = 65536;
