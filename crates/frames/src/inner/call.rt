// A line to its answer, by the call that its kind asks for. Each function that puts a text says how many characters there are.
ghost use Rattle.std.specs.Prelude.{◌≡◌, [], ◌∷◌, ◌*◌, ◌≤◌, eqb, length};
ghost use Rattle.std.proofs.lemmas.List.Edits.{sets};
ghost use Rattle.frames.specs.Kind.{kind_byte};
ghost use Rattle.frames.specs.Limits.{most_bytes};
ghost use Rattle.frames.specs.Text.{text, Counts};
ghost use Rattle.frames.specs.Answer.{called_bytes, answer_bytes, answer_text};

use crate::inner::answer::{affine_answer, roots_answer};
use crate::inner::character::capital;
use crate::inner::frame::Frame;
use crate::inner::kind::Kind;
use crate::inner::text::AnswerBytes;
use crate::limits::ANSWER_ROOM;
use crate::refused::MALFORMED;

// The first byte of the answer to a malformed line, in place of a kind: a byte that the answer has, and no kind of the code.
const NO_KIND: u32 = 255;

// To a malformed line: FF, which is no kind, and its number. (Put as it stands: by way of a list of answer bytes the program took more than
// four times as long for an empty line.)
pub fn put_malformed(out: &mut [u8; ANSWER_ROOM]) -> usize
    ensures value { result ≡ length (text (255 ∷ 8 ∷ [])) }
    ensures out_after { out.new ≡ sets out.old 0 (text (255 ∷ 8 ∷ [])) }
    ensures upper_bound { result ≤ 2 * most_bytes }
    ensures counts { Counts result out.new }
{
    out[0] = b'F';
    out[1] = b'F';
    out[2] = b'0';
    out[3] = capital(MALFORMED);
    4
}

fn called(kind: Kind, p: u32, coefficients: &[u32]) -> AnswerBytes
    ensures { result ≡ called_bytes (eqb (kind_byte kind) 1) p coefficients.now }
{
    match kind {
        Kind::DegreeUpTo4 => roots_answer(roots::solve(p, coefficients)),
        Kind::Affine => affine_answer(affine::solve(p, coefficients)),
    }
}

// Apart from `put_answered`, so that a malformed line clears no room for answer bytes.
fn put_called(kind: Kind, p: u32, coefficients: &[u32], out: &mut [u8; ANSWER_ROOM]) -> usize
    ensures value { result ≡ length (text (called_bytes (eqb (kind_byte kind) 1) p coefficients.now)) }
    ensures out_after { out.new ≡ sets out.old 0 (text (called_bytes (eqb (kind_byte kind) 1) p coefficients.now)) }
    ensures upper_bound { result ≤ 2 * most_bytes }
    ensures counts { Counts result out.new }
{
    called(kind, p, coefficients).put_text(out)
}

// To any line, malformed or not.
pub fn put_answered(line: &[u8], out: &mut [u8; ANSWER_ROOM]) -> usize
    ensures value { result ≡ length (answer_text line.now) }
    ensures out_after { out.new ≡ sets out.old 0 (answer_text line.now) }
    ensures upper_bound { result ≤ 2 * most_bytes }
    ensures counts { Counts result out.new }
{
    match Frame::of_line(line) {
        Some(frame) => put_called(frame.kind, frame.polynomial, frame.coefficients(), out),
        None => put_malformed(out),
    }
}

// The bytes of the answer to any line, for a caller who goes on with them. (The text that `put_answered` puts is made without them, where
// the line is malformed.)
pub fn answered(line: &[u8]) -> AnswerBytes
    ensures { result ≡ answer_bytes line.now }
{
    match Frame::of_line(line) {
        Some(frame) => called(frame.kind, frame.polynomial, frame.coefficients()),
        None => AnswerBytes::begun(NO_KIND, MALFORMED),
    }
}
