// Frame lines: one line to its answer, and a stream of chunks to the answers of its lines. No call asks anything of its caller, and each
// does what its definitions in specs/ say, for every input. The last two lines of each promise follow from the others; they are there so
// that a caller who goes on in a chunk, or lends `&out[..n]`, has nothing to prove.
#![tactic(auto)]

ghost use Rattle.std.specs.Prelude.{◌≡◌, ◌≤◌, length, replicate};
ghost use Rattle.std.proofs.lemmas.List.Edits.{sets};
ghost use Rattle.frames.specs.Limits.{most_digits, answer_room};
ghost use Rattle.frames.specs.Text.{Counts};
ghost use Rattle.frames.specs.Answer.{answer_text};
ghost use Rattle.frames.specs.Stream.{taken_of, length_after, line_after, written_of, last_written};

pub mod inner;
pub mod limits;
pub mod refused;

use crate::inner::call::put_answered;
use crate::inner::stream::first_feed;
use crate::limits::{ANSWER_ROOM, MOST_DIGITS};

// A line that has begun: how many bytes it has so far, and the first 1,030 of them. Of a longer line, which is malformed whatever it holds,
// no more is kept, and the length stays at 1,031. (An array and its count, since nothing is taken from the heap.)
#[derive(Debug, Clone, Copy)]
pub struct OpenLine {
    pub length: usize,
    pub bytes: [u8; MOST_DIGITS],
}

// What a call has done: how many bytes of the chunk it has taken, and how many characters it has written.
#[derive(Debug, Clone, Copy, PartialEq, Eq)]
pub struct Progress {
    pub taken: usize,
    pub written: usize,
}

// The answer to one line, without line feeds. Says how many characters it has.
pub fn answer_line(line: &[u8], out: &mut [u8; ANSWER_ROOM]) -> usize
    ensures value { result ≡ length (answer_text line.now) }
    ensures out_after { out.new ≡ sets out.old 0 (answer_text line.now) }
    ensures upper_bound { result ≤ answer_room }
    ensures counts { Counts result out.new }
{
    put_answered(line, out)
}

impl OpenLine {
    // Before the first byte of a stream.
    pub fn new() -> Self
        ensures length_value { result.length ≡ 0 }
        ensures bytes_value { result.bytes ≡ replicate most_digits 0 }
    {
        OpenLine {
            length: 0,
            bytes: [0; MOST_DIGITS],
        }
    }

    // Takes the chunk's bytes up to its first line feed, and writes the answer to the line that ends there, with a line feed; or takes all
    // of them, where the line goes on. The caller goes on with what is left of the chunk, until all is taken.
    pub fn next_answer(&mut self, chunk: &[u8], out: &mut [u8; ANSWER_ROOM]) -> Progress
        ensures taken_value { result.taken ≡ taken_of chunk.now }
        ensures length_value { self.new.length ≡ length_after self.old.length chunk.now }
        ensures written_value { result.written ≡ length (written_of self.old.length self.old.bytes chunk.now) }
        ensures line_after { self.new.bytes ≡ line_after self.old.length self.old.bytes chunk.now }
        ensures out_after { out.new ≡ sets out.old 0 (written_of self.old.length self.old.bytes chunk.now) }
        ensures taken_in_bounds { (result.taken ≤ length chunk.now) × (result.written ≤ answer_room) }
        ensures counts { Counts result.written out.new }
    {
        match first_feed(chunk) {
            None => {
                self.keep(chunk);
                Progress {
                    taken: chunk.len(),
                    written: 0,
                }
            }
            Some(end) => {
                self.keep(&chunk[..end]);
                let written = self.put_answer(out);
                self.length = 0;
                Progress {
                    taken: end + 1,
                    written,
                }
            }
        }
    }

    // At the end of the input: the answer to a last line without line feed. Says how many characters it has, 0 where there is no such line.
    pub fn last_answer(&self, out: &mut [u8; ANSWER_ROOM]) -> usize
        ensures value { result ≡ length (last_written self.now.length self.now.bytes) }
        ensures out_after { out.new ≡ sets out.old 0 (last_written self.now.length self.now.bytes) }
        ensures upper_bound { result ≤ answer_room }
        ensures counts { Counts result out.new }
    {
        match self.length {
            0 => 0,
            _ => self.put_answer(out),
        }
    }
}
