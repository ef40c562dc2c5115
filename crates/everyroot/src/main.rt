// Reads frame lines from standard input and answers each on standard output, as `gfroots` does, but by trying every element of the field.
// It uses no crate of the library: whoever doubts an answer can read this program, and run it on the same input.
//
// To read in this order: `field` (product, factor test), `equation` and `affine` (the two searches), `frame` (the digits of a line),
// `refusal` and `problem` (what a frame is turned down for), `answer`, `stream` (bytes to lines), `output`.
#![tactic(auto)]

mod affine;
mod answer;
mod equation;
mod field;
mod frame;
mod output;
mod problem;
mod refusal;
mod stream;

use crate::output::Output;
use crate::stream::Line;
use std::io::{Read, Write};
use std::{fmt, io};

// How many bytes a read asks for.
const CHUNK: usize = 65536;

// What ends a run before the end of the input.
#[derive(Debug, Clone, Copy, PartialEq, Eq)]
enum Failure {
    Read,
    Write,
}

impl fmt::Display for Failure {
    fn fmt<W: fmt::Write>(&self, f: &mut fmt::Formatter<W>) -> fmt::Result {
        f.write_str(match self {
            Failure::Read => "a read failed; only the lines before it are answered",
            Failure::Write => "a write failed; answers are missing",
        })
    }
}

// Answers all lines. A line that a failed read cut off is not whole: it gets no answer, so that no part of a line is answered as if it
// were one.
fn run(input: &mut impl Read, output: &mut impl Write) -> Result<(), Failure> {
    let mut line = Line::new();
    let mut chunk = [0; CHUNK];
    // No input has as many bytes.
    for _ in 0..u64::MAX {
        let n = input.read(&mut chunk).map_err(|_| Failure::Read)?;
        if n == 0 {
            break;
        }
        line.feed(&chunk[..n], output).map_err(|_| Failure::Write)?;
    }
    line.finish(output).map_err(|_| Failure::Write)
}

fn main(rt: HostRuntime) {
    let mut output = Output::new(io::writer(&rt));
    if let Err(failure) = run(&mut rt.stdin(), &mut output) {
        // Where this fails too, there is nowhere left to say so.
        let _ = eprintln!(rt; "everyroot: {failure}");
    }
}
