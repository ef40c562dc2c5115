// What a frame line says.
ghost use Rattle.std.specs.Prelude.{◌≡◌, true, ◌+◌, ◌*◌, ◌≤◌, ◌<◌, length, take, replicate, MatchOption, IfSome};
ghost use Rattle.algebra.specs.Lists.{padded};
ghost use Rattle.field.specs.Refusal.{refusal};
ghost use Rattle.frames.specs.Limits.{most_counted};
ghost use Rattle.frames.specs.Frame.{byte_at, polynomial_of, count_of, coefficient_at, coefficients_of, another_character, line_tests};
ghost use Rattle.frames.specs.Digits.{Decoded, Decodes};

use crate::inner::character::digit_value;
use crate::inner::kind::Kind;
use crate::limits::{MOST_COUNTED, MOST_DIGITS};

// The coefficients stand first in their places.
#[derive(Drop)]
pub struct Frame {
    pub kind: Kind,
    pub polynomial: u32,
    count: usize,
    coefficients: [u32; MOST_COUNTED],
    ghost counted: { count ≤ most_counted },
}

// Byte number i: two digits. None where one of them is another character.
fn byte_at(line: &[u8], i: usize) -> Option<u32>
    requires { 2 * i + 1 < length line.now }
    ensures decodes { Decodes line.now (2 * i) (2 * i + 2) (byte_at line.now i) result }
    ensures upper_bound { IfSome result (λ byte. byte < 256) }
{
    Some(digit_value(line[2 * i])? * 16 + digit_value(line[2 * i + 1])?)
}

fn polynomial_of(line: &[u8]) -> Option<u32>
    requires { 10 ≤ length line.now }
    ensures { Decodes line.now 2 8 (polynomial_of line.now) result }
{
    Some(byte_at(line, 1)? * 65536 + byte_at(line, 2)? * 256 + byte_at(line, 3)?)
}

fn coefficient_at(line: &[u8], i: usize) -> Option<u32>
    requires { 13 + 4 * i < length line.now }
    ensures { Decodes line.now (10 + 4 * i) (14 + 4 * i) (coefficient_at line.now i) result }
{
    Some(byte_at(line, 5 + 2 * i)? * 256 + byte_at(line, 6 + 2 * i)?)
}

// The coefficients, into places that hold 0. (Lent, so that nothing is cleared or copied for a line before it is known to have any.)
fn put_coefficients(line: &[u8], count: usize, places: &mut [u32; MOST_COUNTED]) -> Option<()>
    requires count_value { count ≡ count_of line.now }
    requires few { count ≤ most_counted }
    requires long { length line.now ≡ 10 + 4 * count }
    requires clear { places.old ≡ replicate most_counted 0 }
    ensures { MatchOption result (another_character line.now ≡ true) (λ done. Decoded line.now 10 (length line.now) (padded most_counted (coefficients_of line.now)) places.new) }
{
    // The number i of a coefficient says where it is read as well as where it is put.
    for i in 0..count {
        places[i] = coefficient_at(line, i)?;
    }
    Some(())
}

impl Frame {
    ghost use Rattle.frames.specs.Said.{Says};

    // None where the line is malformed. Of a line longer than the most digits nothing is read.
    pub fn of_line(line: &[u8]) -> Option<Frame>
        ensures { MatchOption result (refusal (line_tests line.now) ≡ 8) (Says line.now) }
    {
        if line.len() < 10 || MOST_DIGITS < line.len() {
            return None;
        }
        let kind = Kind::of_byte(byte_at(line, 0)?)?;
        let polynomial = polynomial_of(line)?;
        let count = byte_at(line, 4)? as usize;
        if line.len() != 10 + 4 * count {
            return None;
        }
        let mut coefficients = [0; MOST_COUNTED];
        put_coefficients(line, count, &mut coefficients)?;
        Some(Frame {
            kind,
            polynomial,
            count,
            coefficients,
        })
    }

    pub fn coefficients(&self) -> &[u32]
        ensures { result.now ≡ take self.now.count self.now.coefficients }
    {
        &self.coefficients[..self.count]
    }
}
