// The answer to a line: two bytes, which are the kind and the number that it is turned down by or 0, and what was found. Bytes are two
// capital digits each, elements four.
use crate::frame::Frame;
use crate::problem::Problem;
use std::io;
use std::io::Write;

fn write_found(output: &mut impl Write, problem: &Problem) -> io::Result<()> {
    match problem {
        Problem::Equation(equation) => equation.write_roots(output),
        Problem::Affine(affine) => affine.write_solutions(output),
    }
}

fn write_frame(output: &mut impl Write, frame: &Frame) -> io::Result<()> {
    let kind = frame.kind.number();
    match Problem::new(frame) {
        Ok(problem) => {
            write!(output, "{kind:02X}00")?;
            write_found(output, &problem)?;
            writeln!(output)
        }
        Err(refusal) => writeln!(output, "{kind:02X}{:02X}", refusal.number()),
    }
}

// A malformed line has FF in the place of the kind.
pub fn write_answer(output: &mut impl Write, line: &[u8]) -> io::Result<()> {
    match Frame::parse(line) {
        Ok(frame) => write_frame(output, &frame),
        Err(refusal) => writeln!(output, "FF{:02X}", refusal.number()),
    }
}
