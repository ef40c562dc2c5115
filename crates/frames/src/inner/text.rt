// The bytes of an answer, and their text.
ghost use Rattle.std.specs.Prelude.{◌≡◌, [], ◌∷◌, ◌++◌, ◌+◌, ◌*◌, ◌≤◌, ◌<◌, length};
ghost use Rattle.std.proofs.lemmas.List.Edits.{sets};
ghost use Rattle.frames.specs.Limits.{most_bytes};
ghost use Rattle.frames.specs.Text.{element_bytes, text, Counts};

use crate::inner::character::capital;
use crate::limits::{ANSWER_ROOM, MOST_BYTES};
use std::marker::Model;

// Each function sees them as a list that grows. The calls answer with u32; that each value is below 256 is a theorem (`bytes_fit`).
// (An array and its count, since nothing is taken from the heap.)
#[derive(Drop)]
pub struct AnswerBytes {
    values: [u32; MOST_BYTES],
    count: usize,
}

impl Model for AnswerBytes {
    ghost use Rattle.std.specs.Prelude.{List, ℕ, ◌≤◌, take};
    ghost use Rattle.frames.specs.Limits.{most_bytes};

    ghost Value = { List ℕ };

    ghost view = { λ bytes. take bytes.count bytes.values };

    ghost invariant = { λ bytes. bytes.count ≤ most_bytes };
}

impl AnswerBytes {
    // Every answer begins with two bytes, the kind or FF, and a number, 0 where the line is solved.
    pub fn begun(first: u32, number: u32) -> AnswerBytes
        ensures { result ≡ first ∷ number ∷ [] }
    {
        let mut values = [0; MOST_BYTES];
        values[0] = first;
        values[1] = number;
        AnswerBytes { values, count: 2 }
    }

    pub fn push(&mut self, value: u32)
        requires { length self.old < most_bytes }
        ensures { self.new ≡ self.old ++ value ∷ [] }
    {
        self.values[self.count] = value;
        self.count += 1;
    }

    // Two bytes, high first.
    pub fn push_element(&mut self, x: u32)
        requires { length self.old + 1 < most_bytes }
        ensures { self.new ≡ self.old ++ element_bytes x }
    {
        self.push(x / 256);
        self.push(x % 256);
    }

    // Their text, at the front of the lent array: byte number i has the characters 2i and 2i + 1. Says how many characters there are.
    pub fn put_text(&self, out: &mut [u8; ANSWER_ROOM]) -> usize
        ensures value { result ≡ length (text self.now) }
        ensures out_after { out.new ≡ sets out.old 0 (text self.now) }
        ensures upper_bound { result ≤ 2 * most_bytes }
        ensures counts { Counts result out.new }
    {
        // Each number is read once and fills two places.
        for i in 0..self.count {
            out[2 * i] = capital(self.values[i] / 16 % 16);
            out[2 * i + 1] = capital(self.values[i] % 16);
        }
        2 * self.count
    }
}
