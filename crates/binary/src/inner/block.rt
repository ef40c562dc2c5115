// Division by eight divisors at once.
ghost use Rattle.std.specs.Prelude.{◌≡◌, ℕ, ◌<◌, ◌≤◌, ◌^◌, ◌+◌, nat_eq, slice_index};
ghost use Rattle.algebra.specs.Search.{some_below};
ghost use Rattle.binary.specs.Remainder.{divides};
ghost use Rattle.binary.specs.Block.{block, raise, turn, IsBlock, Divisions};

use crate::inner::digit::degree;
use crate::inner::division::turned;
use crate::inner::modulo::Modulus;

pub const BLOCK: usize = 8;

// Eight divisors from a multiple of 8 on. They differ in their last three digits only, so that all have one degree.
#[derive(Clone, Copy, Debug, PartialEq, Eq)]
pub struct Block {
    pub first: u32,
    pub divisors: [u32; BLOCK],
    pub ghost is_block: { IsBlock first divisors },
}

impl Block {
    pub fn lowest() -> Self
        ensures { result.first ≡ block }
    {
        Block {
            first: 8,
            divisors: [8, 9, 10, 11, 12, 13, 14, 15],
        }
    }

    // The next eight.
    pub fn following(self) -> Self
        requires { self.first + block + block ≤ 2 ^ 32 }
        ensures { result.first ≡ self.first + block }
    {
        Block {
            first: self.first + 8,
            divisors: self.divisors.map(|d| d + 8),
        }
    }
}

// Divisors of degree k, moved to the top of the word.
fn raised(divisors: [u32; BLOCK], k: u32) -> [u32; BLOCK]
    requires { k < 32 }
    ensures { (i : ℕ) → i < block → slice_index result i ≡ raise k (slice_index divisors i) }
{
    divisors.map(|d| d << (31 - k))
}

// One turn of every division.
fn turned_each(rests: [u32; BLOCK], divisors: [u32; BLOCK]) -> [u32; BLOCK]
    ensures { (i : ℕ) → i < block → slice_index result i ≡ turn (slice_index divisors i) (slice_index rests i) }
{
    std::array::from_fn(|i| turned(rests[i], divisors[i]))
}

// By a loop: with `contains` or `any` the test of a field polynomial takes a fifth more time.
fn has_zero(rests: [u32; BLOCK]) -> bool
    ensures { result ≡ some_below (λ i. nat_eq (slice_index rests i) 0) block }
{
    for rest in rests {
        if rest == 0 {
            return true;
        }
    }
    false
}

// Whether one of the divisors, all of degree k, divides a, of degree m. The divisions go on side by side, a turn of all before the next, so
// that one vector instruction does several. (a and m are no Modulus, as in `remainder`. `next`: the kit takes an array from a call only into a
// new local.)
pub fn some_divides(a: u32, m: u32, divisors: [u32; BLOCK], k: u32) -> bool
    requires { Divisions m k a divisors }
    ensures { result ≡ some_below (λ i. divides (slice_index divisors i) a) block }
{
    let raised = raised(divisors, k);
    let mut rests = [a << (31 - m); BLOCK];
    for _ in 31 - m..32 - k {
        let next = turned_each(rests, raised);
        rests = next;
    }
    has_zero(rests)
}

impl Modulus {
    // Whether one of the candidates divides the polynomial.
    pub fn has_divisor_in(self, candidates: Block) -> bool
        requires { candidates.first ≤ self.polynomial }
        ensures { result ≡ some_below (λ i. divides (candidates.first + i) self.polynomial) block }
    {
        let k = degree(candidates.first);
        some_divides(self.polynomial, self.degree, candidates.divisors, k)
    }
}
