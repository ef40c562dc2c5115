// A line read as a frame. Its bytes, two hexadecimal digits of either case each: 0 is the kind, 1 to 3 are the field polynomial, 4 is the
// count of coefficients, and from 5 on a coefficient has two. The high byte is first.
ghost use Rattle.std.specs.Prelude.{◌<◌, IfOk};

use crate::refusal::Refusal;

// How many coefficients a count can announce.
const PLACES: usize = 255;

// The kinds of frame: an equation of degree up to 4, and an affine one.
#[derive(Debug, Clone, Copy, PartialEq, Eq)]
pub enum Kind {
    Equation = 1,
    Affine = 2,
}

impl Kind {
    // A name for its number, as a refusal's.
    pub fn number(self) -> u8 {
        self as u8
    }
}

impl TryFrom<u8> for Kind {
    type Error = Refusal;

    fn try_from(byte: u8) -> Result<Kind, Refusal> {
        match byte {
            1 => Ok(Kind::Equation),
            2 => Ok(Kind::Affine),
            _ => Err(Refusal::Malformed),
        }
    }
}

// A frame: the first `count` places hold its coefficients.
#[derive(Drop)]
pub struct Frame {
    pub kind: Kind,
    pub polynomial: u32,
    count: u8,
    places: [u32; PLACES],
}

impl Frame {
    // A line that is no frame from its first to its last character is malformed.
    pub fn parse(line: &[u8]) -> Result<Frame, Refusal> {
        let mut digits = Digits(line);
        let kind = Kind::try_from(digits.byte()?)?;
        let polynomial = u32::from(digits.byte()?) << 16 | digits.two_bytes()?;
        let count = digits.byte()?;
        let mut places = [0; PLACES];
        for place in &mut places[..usize::from(count)] {
            *place = digits.two_bytes()?;
        }
        digits.end()?;
        Ok(Frame {
            kind,
            polynomial,
            count,
            places,
        })
    }

    pub fn coefficients(&self) -> &[u32] {
        &self.places[..usize::from(self.count)]
    }
}

// The digits of a line that are not read yet.
#[derive(Drop)]
struct Digits<'a>(&'a [u8]);

impl Digits<'_> {
    // The next two digits.
    fn byte(&mut self) -> Result<u8, Refusal> {
        let [high, low, rest @ ..] = self.0 else {
            return Err(Refusal::Malformed);
        };
        self.0 = rest;
        Ok(digit(*high)? * 16 + digit(*low)?)
    }

    // The next four digits.
    fn two_bytes(&mut self) -> Result<u32, Refusal> {
        let high = self.byte()?;
        let low = self.byte()?;
        Ok(u32::from(u16::from_be_bytes([high, low])))
    }

    // No character may be left.
    fn end(self) -> Result<(), Refusal> {
        if self.0.is_empty() {
            Ok(())
        } else {
            Err(Refusal::Malformed)
        }
    }
}

fn digit(c: u8) -> Result<u8, Refusal>
    ensures { IfOk result (λ value. value < 16) }
{
    match char::from(c).to_digit(16) {
        Some(value) => Ok(value as u8),
        None => Err(Refusal::Malformed),
    }
}
