// The field of an accepted polynomial: everything that is computed in it is a method of it.
ghost use Rattle.std.specs.Prelude.{◌≡◌, true, ◌^◌, ◌<◌};
ghost use Rattle.binary.specs.Product.{product, times_x};
ghost use Rattle.binary.specs.Factor.{factor_free};
ghost use Rattle.arithmetic.specs.Modulus.{FieldModulus};

use binary::inner::modulo::Modulus;

// A polynomial without a factor, and its degree m. The elements are the numbers below 2^m.
#[derive(Clone, Copy, Debug, PartialEq, Eq)]
pub struct Field {
    pub polynomial: u32,
    pub degree: u32,
    pub ghost is_field: { FieldModulus degree polynomial },
}

impl Field {
    // The field of a polynomial that has passed the test.
    pub fn new(modulus: Modulus) -> Self
        requires { factor_free modulus.degree modulus.polynomial ≡ true }
        ensures { (result.polynomial ≡ modulus.polynomial) × (result.degree ≡ modulus.degree) }
    {
        Field {
            polynomial: modulus.polynomial,
            degree: modulus.degree,
        }
    }

    fn modulus(self) -> Modulus
        ensures { (result.polynomial ≡ self.polynomial) × (result.degree ≡ self.degree) }
    {
        Modulus {
            polynomial: self.polynomial,
            degree: self.degree,
        }
    }

    // x times the polynomial x.
    pub fn doubled(self, x: u32) -> u32
        requires { x < 2 ^ self.degree }
        ensures { result ≡ times_x self.polynomial x }
    {
        self.modulus().doubled(x)
    }

    pub fn product(self, a: u32, b: u32) -> u32
        requires { (a < 2 ^ self.degree) × (b < 2 ^ self.degree) }
        ensures { result ≡ product self.polynomial a b }
    {
        self.modulus().product(a, b)
    }
}
