// The square root.
ghost use Rattle.std.specs.Prelude.{◌≡◌, ◌-◌, ◌^◌, ◌<◌};
ghost use Rattle.galois.specs.Power.{power};
ghost use Rattle.arithmetic.specs.EvenDigits.{even_digits};

use crate::inner::field::Field;

// The sixteen digits of x at the places 0, 2, 4, .., side by side. Single digits are moved into pairs, pairs into fours, fours into
// eights and eights into the lower half of the word. (Four lines: a table of shifts and masks is no plainer.)
fn even_digits(x: u32) -> u32
    ensures { result ≡ even_digits 16 x }
{
    let single = x & 0x55555555;
    let pairs = (single ^ single >> 1) & 0x33333333;
    let fours = (pairs ^ pairs >> 2) & 0x0f0f0f0f;
    let eights = (fours ^ fours >> 4) & 0x00ff00ff;
    (eights ^ eights >> 8) & 0x0000ffff
}

impl Field {
    // Any number is E^2 + x·O^2 where E are its even digits and O its odd ones, for squaring moves each digit to twice its place. The
    // field polynomial is 0 in the field, so x is the square of E / O there; and the root of b is E + O times that root of x.
    pub fn square_root(self, b: u32) -> u32
        requires { b < 2 ^ self.degree }
        ensures { result ≡ power self.polynomial b (2 ^ (self.degree - 1)) }
    {
        let p = self.polynomial;
        let root_of_x = self.quotient(even_digits(p), even_digits(p / 2));
        even_digits(b) ^ self.product(root_of_x, even_digits(b / 2))
    }
}
