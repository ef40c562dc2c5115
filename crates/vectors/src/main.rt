// Runs the public calls of `field`, `affine` and `roots` on the rows of standard input, a call a line: its name and its numbers, as
// `power 19 2 -1`. Each row is written back with what the call answered; a row that is no call's is turned down by 8, the number of a
// malformed line. A last row without a line end counts. At most 65,536 bytes are read. The gate compares the output with the stored one,
// which tests/vectors.py made.
#![tactic(auto)]

mod affine_calls;
mod calls;
mod roots_calls;
mod row;
mod said;

use crate::row::Row;
use crate::said::{Malformed, Said};
use arrayvec::ArrayVec;
use std::io;
use std::io::{Read, Write};

// How many bytes are read at most.
const MOST_BYTES: usize = 65536;

// The row of a line as it came, which need not be text, and the answer of its call.
fn answer_line<W: Write>(line: &[u8], out: &mut W) -> io::Result<()> {
    let row = line.strip_suffix(b"\n").unwrap_or(line);
    out.write_all(row)?;
    write!(out, ":")?;
    Row::parse(row).ok_or(Malformed).say(out)?;
    writeln!(out)
}

// A read that fails ends the text, as the input's end does.
fn main(rt: HostRuntime) -> io::Result<()> {
    let mut text: ArrayVec<u8, MOST_BYTES> = ArrayVec::new();
    let _ = io::copy(&mut rt.stdin().take(MOST_BYTES as u64), &mut text);
    let mut out = io::writer(&rt);
    for line in text.as_slice().split_inclusive(|b| *b == b'\n') {
        answer_line(line, &mut out)?;
    }
    Ok(())
}
