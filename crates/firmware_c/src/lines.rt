// Frame lines.
ghost use Rattle.std.specs.Prelude.{◌≡◌, [], ◌∷◌, length};
ghost use Rattle.frames.specs.Answer.{answer_text};
ghost use Rattle.firmware.specs.Lent.{after, line_fits, room_number};

// The answer to one line, without line feeds, and how many characters it has.
#[unsafe(no_mangle)]
pub extern "C" fn gfroots_answer_line(line: &[u8], count: &mut [u32], answer: &mut [u8]) -> u32
    ensures value { result ≡ room_number (line_fits answer.old count.old) }
    ensures count_after { count.new ≡ after result (length (answer_text line.now) ∷ []) count.old }
    ensures answer_after { answer.new ≡ after result (answer_text line.now) answer.old }
{
    firmware::lines::gfroots_answer_line(line, count, answer)
}
