// Frame lines.
ghost use Rattle.std.specs.Prelude.{◌≡◌, [], ◌∷◌, length};
ghost use Rattle.frames.specs.Answer.{answer_text};
ghost use Rattle.firmware.specs.Lent.{after, status, line_fits, room_number};

use crate::inner::lent::{put, status};
use field::Refusal;
use frames::limits::ANSWER_ROOM;

fn put_line(line: &[u8], count: &mut [u32], answer: &mut [u8]) -> Result<(), Refusal>
    ensures value { status result ≡ room_number (line_fits answer.old count.old) }
    ensures count_after { count.new ≡ after (status result) (length (answer_text line.now) ∷ []) count.old }
    ensures answer_after { answer.new ≡ after (status result) (answer_text line.now) answer.old }
{
    if answer.len() < ANSWER_ROOM {
        return Err(Refusal::NoPlace);
    }
    let mut out = [0u8; ANSWER_ROOM];
    let n = frames::answer_line(line, &mut out);
    put(n as u32, count)?;
    answer[..n].copy_from_slice(&out[..n]);
    Ok(())
}

// The answer to one line, without line feeds, and how many characters it has.
pub fn gfroots_answer_line(line: &[u8], count: &mut [u32], answer: &mut [u8]) -> u32
    ensures value { result ≡ room_number (line_fits answer.old count.old) }
    ensures count_after { count.new ≡ after result (length (answer_text line.now) ∷ []) count.old }
    ensures answer_after { answer.new ≡ after result (answer_text line.now) answer.old }
{
    status(put_line(line, count, answer))
}
