// Logarithm numbers, by walking through the powers of x: no table is kept, and none that x does not reach is missed or invented.
ghost use Rattle.std.specs.Prelude.{◌≡◌, ◌^◌, ◌<◌};
ghost use Rattle.arithmetic.specs.Number.{number_of, element_of};

use crate::inner::field::Field;
use binary::inner::digit::power_of_two;

impl Field {
    // One more than the first exponent e with x^e = a, and 0 where there is none: a number by its definition, so no Option.
    pub fn number(self, a: u32) -> u32
        requires { a < 2 ^ self.degree }
        ensures { result ≡ number_of self.degree self.polynomial a }
    {
        let order = power_of_two(self.degree) - 1;
        let mut x: u32 = 1;
        for e in 0..order {
            if x == a {
                return e + 1;
            }
            x = self.doubled(x);
        }
        0
    }

    // And back: 0 for the number 0, else x to the power n - 1.
    pub fn element(self, n: u32) -> u32
        ensures { result ≡ element_of self.polynomial n }
    {
        match n.checked_sub(1) {
            Some(e) => self.raised(2, e),
            None => 0,
        }
    }
}
