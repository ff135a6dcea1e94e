// Why a line is not read or not written. Relies on specs/ErrorTexts.antt for the texts.
ghost use Rattle.std.specs.Prelude.{Some};
ghost use Rattle.lines.specs.ErrorTexts.{bad_line_text, short_buffer_text};

use std::error::Error;
use std::fmt;

// A line that is not a record's.
#[derive(Clone, Copy, Debug, PartialEq, Eq, Hash)]
pub struct BadLine;

// A buffer shorter than the line that it was to hold.
#[derive(Clone, Copy, Debug, PartialEq, Eq, Hash)]
pub struct ShortBuffer;

impl fmt::Display for BadLine {
    ghost output = { λ _. Some bad_line_text };

    fn fmt<W: fmt::Write>(&self, f: &mut fmt::Formatter<W>) -> fmt::Result {
        write!(f, "the line is not a record's")
    }
}

impl Error for BadLine {}

impl fmt::Display for ShortBuffer {
    ghost output = { λ _. Some short_buffer_text };

    fn fmt<W: fmt::Write>(&self, f: &mut fmt::Formatter<W>) -> fmt::Result {
        write!(f, "the buffer is shorter than the line")
    }
}

impl Error for ShortBuffer {}
