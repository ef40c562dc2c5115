// A writer that collects what it is given, and hands it on when it is full or flushed. std's `BufWriter` would take its buffer from the
// heap; this one is of a fixed size, and the program allocates nothing.
ghost use Rattle.std.specs.Prelude.{◌≤◌};
ghost use Rattle.everyroot.specs.declared.output.TheConstants.{ROOM};

use std::io::Write;
use std::{io, mem};

const ROOM: usize = 65536;

// The first `waiting` bytes of the buffer are not handed on yet.
#[derive(Drop)]
pub struct Output<W> {
    writer: W,
    buffer: [u8; ROOM],
    waiting: usize,
    ghost fits: { waiting ≤ ROOM },
}

impl<W: Write> Output<W> {
    pub fn new(writer: W) -> Output<W> {
        Output {
            writer,
            buffer: [0; ROOM],
            waiting: 0,
        }
    }
}

impl<W: Write> Write for Output<W> {
    fn write(&mut self, bytes: &[u8]) -> io::Result<usize> {
        let n = bytes.len().min(ROOM - self.waiting);
        let end = self.waiting + n;
        self.buffer[self.waiting..end].copy_from_slice(&bytes[..n]);
        self.waiting = end;
        if self.waiting == ROOM {
            self.flush()?;
        }
        Ok(n)
    }

    fn flush(&mut self) -> io::Result<()> {
        let waiting = mem::take(&mut self.waiting);
        self.writer.write_all(&self.buffer[..waiting])
    }
}
