// Reads frame lines from standard input and writes their answers to standard output. What a line's answer is, and what the lines are
// however the input is cut into reads, is proved of `frames`; here is only the reading and the writing.
#![tactic(auto)]

ghost use Rattle.std.specs.Prelude.{◌≡◌, IfOk};
ghost use Rattle.frames.specs.Stream.{taken_of};

mod output;
mod stopped;

use crate::output::Output;
use crate::stopped::Stopped;
use frames::OpenLine;
use frames::limits::ANSWER_ROOM;
use std::io::Read;

// How many bytes a read asks for.
const CHUNK: usize = 65536;

// The line that has begun, and the output.
#[derive(Drop)]
struct Run {
    line: OpenLine,
    output: Output,
}

impl Run {
    fn new() -> Self {
        Run {
            line: OpenLine::new(),
            output: Output::new(),
        }
    }

    // One call, and what it wrote added to the output. Says how many bytes it has taken.
    fn call(&mut self, rt: &HostRuntime, chunk: &[u8]) -> Result<usize, Stopped>
        ensures { IfOk result (λ taken. taken ≡ taken_of chunk.now) }
    {
        let mut answer = [0; ANSWER_ROOM];
        let progress = self.line.next_answer(chunk, &mut answer);
        self.output.add_answer(rt, &answer[..progress.written])?;
        Ok(progress.taken)
    }

    // Call after call, until the chunk is used up. (No index: each call says how much it took.)
    fn take(&mut self, rt: &HostRuntime, chunk: &[u8]) -> Result<(), Stopped> {
        let mut rest = chunk;
        while !rest.is_empty() {
            let taken = self.call(rt, rest)?;
            rest = &rest[taken..];
        }
        Ok(())
    }

    // Reads to the end of the input. The answers to what a read has brought are handed on before the next.
    fn read(&mut self, rt: &HostRuntime) -> Result<(), Stopped> {
        let mut chunk = [0; CHUNK];
        // No input has as many reads.
        for _ in 0..u64::MAX {
            let n = rt
                .stdin()
                .read(&mut chunk)
                .map_err(|_| Stopped::ReadFailed)?;
            if n == 0 {
                break;
            }
            self.take(rt, &chunk[..n])?;
            self.output.hand_on(rt)?;
        }
        Ok(())
    }

    // A last line without line feed counts.
    fn end(&mut self, rt: &HostRuntime) -> Result<(), Stopped> {
        let mut answer = [0; ANSWER_ROOM];
        let written = self.line.last_answer(&mut answer);
        self.output.add_answer(rt, &answer[..written])?;
        self.output.hand_on(rt)
    }

    // After a read that failed, the line that had begun is not whole: it is not answered as if it were one.
    fn all(&mut self, rt: &HostRuntime) -> Result<(), Stopped> {
        self.read(rt)?;
        self.end(rt)
    }
}

fn main(rt: HostRuntime) {
    if let Err(stopped) = Run::new().all(&rt) {
        // Where this fails too, there is nowhere left to say so.
        let _ = eprintln!(rt; "gfroots: {stopped}");
    }
}
