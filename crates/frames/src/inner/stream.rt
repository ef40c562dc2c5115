// The bytes of a line as they come, and the answer once it has ended.
ghost use Rattle.std.specs.Prelude.{◌≡◌, ◌*◌, ◌≤◌, ◌<◌, length, unwrap_or, IfSome};
ghost use Rattle.std.proofs.lemmas.List.Edits.{sets};
ghost use Rattle.frames.specs.Limits.{most_bytes, answer_room};
ghost use Rattle.frames.specs.Text.{Counts};
ghost use Rattle.frames.specs.Answer.{answer_text};
ghost use Rattle.frames.specs.Stream.{before_feed, lengthened, kept_after, held, answer_line};

use crate::OpenLine;
use crate::inner::call::{put_answered, put_malformed};
use crate::limits::{ANSWER_ROOM, MOST_DIGITS};

const LINE_FEED: u8 = b'\n';

// The length of every line that is too long: the promised length, at which the definitions stop.
const TOO_LONG: usize = MOST_DIGITS + 1;

// Where the first line feed stands, if there is one.
pub fn first_feed(chunk: &[u8]) -> Option<usize>
    ensures value { unwrap_or result (length chunk.now) ≡ length (before_feed chunk.now) }
    ensures in_bounds { IfSome result (λ i. i < length chunk.now) }
{
    chunk.iter().position(|byte| *byte == LINE_FEED)
}

impl OpenLine {
    // Puts bytes after those that are kept, as far as there is room.
    pub(crate) fn keep(&mut self, bytes: &[u8])
        ensures length_value { self.new.length ≡ lengthened self.old.length (length bytes.now) }
        ensures bytes_after { self.new.bytes ≡ kept_after self.old.length self.old.bytes bytes.now }
    {
        let from = self.length.min(MOST_DIGITS);
        let fit = bytes.len().min(MOST_DIGITS - from);
        self.bytes[from..from + fit].copy_from_slice(&bytes[..fit]);
        self.length = self.length.saturating_add(bytes.len()).min(TOO_LONG);
    }

    // The answer to the line, which has ended. Says how many characters there are.
    fn put_text(&self, out: &mut [u8; ANSWER_ROOM]) -> usize
        ensures value { result ≡ length (answer_text (held self.now.length self.now.bytes)) }
        ensures out_after { out.new ≡ sets out.old 0 (answer_text (held self.now.length self.now.bytes)) }
        ensures upper_bound { result ≤ 2 * most_bytes }
    {
        if MOST_DIGITS < self.length {
            put_malformed(out)
        } else {
            put_answered(&self.bytes[..self.length], out)
        }
    }

    // The same, and a line feed.
    pub(crate) fn put_answer(&self, out: &mut [u8; ANSWER_ROOM]) -> usize
        ensures value { result ≡ length (answer_line (held self.now.length self.now.bytes)) }
        ensures out_after { out.new ≡ sets out.old 0 (answer_line (held self.now.length self.now.bytes)) }
        ensures upper_bound { result ≤ answer_room }
        ensures counts { Counts result out.new }
    {
        let end = self.put_text(out);
        out[end] = LINE_FEED;
        end + 1
    }
}
