// The test of a field polynomial: trial division, to the first divisor.
ghost use Rattle.std.specs.Prelude.{◌≡◌, suc, ◌-◌, ◌≤◌, min};
ghost use Rattle.algebra.specs.Search.{some_below};
ghost use Rattle.binary.specs.Remainder.{divides};
ghost use Rattle.binary.specs.Block.{block};
ghost use Rattle.binary.specs.Factor.{factor_free};

use crate::inner::block::Block;
use crate::inner::digit::power_of_two;
use crate::inner::division::remainder;
use crate::inner::modulo::Modulus;

impl Modulus {
    // Whether one of 2, 3, .., 7 divides the polynomial, as far as they are below the limit.
    fn few_divide(self, limit: u32) -> bool
        requires { limit ≤ self.polynomial }
        ensures { result ≡ some_below (λ i. divides (suc (suc i)) self.polynomial) (min limit block - 2) }
    {
        (2..limit.min(8)).any(|d| remainder(self.polynomial, self.degree, d) == 0)
    }

    // Whether no polynomial of degree 1 to m / 2 divides this one, of degree m. (A proper factor, or its cofactor, has such a degree.) From
    // 8 on divisors are tried in blocks of 8.
    pub fn factor_free(self) -> bool
        ensures { result ≡ factor_free self.degree self.polynomial }
    {
        let limit = power_of_two(self.degree / 2 + 1);
        if self.few_divide(limit) {
            return false;
        }
        let mut candidates = Block::lowest();
        // No index: each block is made of the one before it.
        while candidates.first < limit {
            if self.has_divisor_in(candidates) {
                return false;
            }
            candidates = candidates.following();
        }
        true
    }
}
