// The input, byte by byte, cut into lines.
ghost use Rattle.std.specs.Prelude.{◌≤◌};
ghost use Rattle.everyroot.specs.declared.stream.TheConstants.{ROOM};

use crate::answer::write_answer;
use std::io::Write;
use std::{io, mem};

// One more than the longest frame has digits, which is with 255 coefficients. A longer line is cut to this length: it is malformed too.
const ROOM: usize = 1031;

// The line that has begun.
#[derive(Drop)]
pub struct Line {
    text: [u8; ROOM],
    length: usize,
    ghost fits: { length ≤ ROOM },
}

impl Line {
    pub fn new() -> Line {
        Line {
            text: [0; ROOM],
            length: 0,
        }
    }

    // The bytes of one read: each line that ends in them is answered, and the answers are handed on.
    pub fn feed(&mut self, bytes: &[u8], output: &mut impl Write) -> io::Result<()> {
        for &byte in bytes {
            match byte {
                b'\n' => self.end(output)?,
                _ => self.push(byte),
            }
        }
        output.flush()
    }

    // The end of the input: a last line without a line feed counts.
    pub fn finish(&mut self, output: &mut impl Write) -> io::Result<()> {
        if self.length != 0 {
            self.end(output)?;
        }
        output.flush()
    }

    fn push(&mut self, byte: u8) {
        if let Some(place) = self.text.get_mut(self.length) {
            *place = byte;
            self.length += 1;
        }
    }

    // The line is at its end: it is answered, and the next one begins.
    fn end(&mut self, output: &mut impl Write) -> io::Result<()> {
        let length = mem::take(&mut self.length);
        write_answer(output, &self.text[..length])
    }
}
