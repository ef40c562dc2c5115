// A polynomial of degree up to 4 over a field: its division by x + r, and its product with x + a.
ghost use Rattle.std.specs.Prelude.{ℕ, ◌^◌, ◌<◌, get_or};

use crate::limits::MOST_COEFFICIENTS;
use arithmetic::inner::field::Field;

// By its coefficients, constant first.
#[derive(Clone, Copy, Debug, PartialEq, Eq)]
pub struct Polynomial {
    pub field: Field,
    pub coefficients: [u32; MOST_COEFFICIENTS],
    pub ghost small: { (i : ℕ) → get_or coefficients i 0 < 2 ^ field.degree },
}

impl Polynomial {
    ghost use Rattle.std.specs.Prelude.{◌≡◌, [], ◌∷◌, ◌++◌, suc, take, drop};
    ghost use Rattle.galois.specs.Polynomial.{value, without_root, with_root};
    ghost use Rattle.roots.specs.Limits.{most_coefficients};

    // The constant 1.
    pub fn one(field: Field) -> Self
        ensures coefficients { result.coefficients ≡ 1 ∷ 0 ∷ 0 ∷ 0 ∷ 0 ∷ [] }
        ensures field { result.field ≡ field }
    {
        Polynomial {
            field,
            coefficients: [1, 0, 0, 0, 0],
        }
    }

    // Division by x + r, from the highest coefficient down: the value at r, and the quotient (C4).
    pub fn divided(self, r: u32) -> (u32, Self)
        requires { r < 2 ^ self.field.degree }
        ensures value { result.0 ≡ value self.field.polynomial self.coefficients r }
        ensures quotient { result.1.coefficients ≡ without_root self.field.polynomial r self.coefficients ++ 0 ∷ [] }
        ensures field { result.1.field ≡ self.field }
    {
        let f = self.coefficients;
        let mut sums = f;
        // Each sum is made of the one above it.
        for i in (0..MOST_COEFFICIENTS - 1).rev() {
            sums[i] = f[i] ^ self.field.product(r, sums[i + 1]);
        }
        let [remainder, c0, c1, c2, c3] = sums;
        let quotient = Polynomial {
            field: self.field,
            coefficients: [c0, c1, c2, c3, 0],
        };
        (remainder, quotient)
    }

    // (x + a) times the polynomial of the first n coefficients: each one is multiplied by a, and the one below it is added.
    pub fn with_root(self, n: usize, a: u32) -> Self
        requires { (n < most_coefficients) × (a < 2 ^ self.field.degree) }
        ensures coefficients { result.coefficients ≡ with_root self.field.polynomial a (take n self.coefficients) ++ drop (suc n) self.coefficients }
        ensures field { result.field ≡ self.field }
    {
        let mut coefficients = self.coefficients;
        let mut below: u32 = 0;
        for c in &mut coefficients[..n] {
            let here = *c;
            *c = below ^ self.field.product(a, here);
            below = here;
        }
        coefficients[n] = below;
        Polynomial {
            field: self.field,
            coefficients,
        }
    }
}
