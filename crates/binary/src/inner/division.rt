// Division of a polynomial by one divisor.
ghost use Rattle.std.specs.Prelude.{◌≡◌};
ghost use Rattle.binary.specs.Remainder.{remainder};
ghost use Rattle.binary.specs.Factor.{Division};
ghost use Rattle.binary.specs.Block.{turn};

use crate::inner::digit::{degree, picked};

// One turn of a division, both numbers at the top of the word: the divisor is taken off where the rest's top digit is 1, and the rest
// moves up.
pub fn turned(rest: u32, divisor: u32) -> u32
    ensures { result ≡ turn divisor rest }
{
    (rest ^ picked(rest >> 31, divisor)) << 1
}

// a, of degree m, modulo d. Both are moved to the top of the word. The turns are as many as the quotient has digits, whatever they are. (a and
// m are two numbers and no Modulus, since a may have degree 1.)
pub fn remainder(a: u32, m: u32, d: u32) -> u32
    requires { Division m a d }
    ensures { result ≡ remainder a d }
{
    let k = degree(d);
    let divisor = d << (31 - k);
    let mut rest = a << (31 - m);
    for _ in 31 - m..32 - k {
        rest = turned(rest, divisor);
    }
    rest >> (32 - k)
}
