// Code that asks something of its caller (each `requires` says what). A polynomial and its degree stay two numbers: C has no other way to
// hand them over.
ghost use Rattle.std.specs.Prelude.{◌≡◌, ◌^◌, ◌<◌, length};
ghost use Rattle.binary.specs.Product.{product, Modulus as IsModulus};
ghost use Rattle.binary.specs.Factor.{factor_free};
ghost use Rattle.arithmetic.specs.Modulus.{FieldModulus};
ghost use Rattle.arithmetic.specs.Quotient.{quotient_of};
ghost use Rattle.field.specs.Refusal.{refusal};
ghost use Rattle.field.specs.Answers.{of_value};
ghost use Rattle.roots.specs.Limits.{most_roots};
ghost use Rattle.roots.specs.Calls.{equation_tests, solve_answer};
ghost use Rattle.unguarded.specs.Count.{count_of};

use arithmetic::inner::field::Field;
use binary::inner::modulo::Modulus;
use field::Refusal;
use firmware::inner::lent::put_all;
use roots::inner::solved::solved;

#[unsafe(no_mangle)]
pub extern "C" fn unguarded_factor_free(p: u32, m: u32) -> bool
    requires { IsModulus m p }
    ensures { result ≡ factor_free m p }
{
    let modulus = Modulus {
        polynomial: p,
        degree: m,
    };
    modulus.factor_free()
}

#[unsafe(no_mangle)]
pub extern "C" fn unguarded_product(p: u32, m: u32, a: u32, b: u32) -> u32
    requires { IsModulus m p × (a < 2 ^ m) × (b < 2 ^ m) }
    ensures { result ≡ product p a b }
{
    let modulus = Modulus {
        polynomial: p,
        degree: m,
    };
    modulus.product(a, b)
}

#[unsafe(no_mangle)]
pub extern "C" fn unguarded_quotient(p: u32, m: u32, a: u32, b: u32) -> u32
    requires { FieldModulus m p × (a < 2 ^ m) × (0 < b) × (b < 2 ^ m) }
    ensures { result ≡ quotient_of m p a b }
{
    let field = Field {
        polynomial: p,
        degree: m,
    };
    field.quotient(a, b)
}

// How many roots an answer has.
fn count_of(count: Result<u32, Refusal>) -> u32
    ensures { result ≡ count_of (of_value count) }
{
    count.unwrap_or(0)
}

// The number of roots. The roots and their multiplicities stand in lists of four.
#[unsafe(no_mangle)]
pub extern "C" fn unguarded_solve(
    p: u32,
    coefficients: &[u32],
    roots: &mut [u32],
    multiplicities: &mut [u32],
) -> u32
    requires coefficients_value { refusal (equation_tests p coefficients.now) ≡ 0 }
    requires roots_len { (length roots.old ≡ most_roots) × (length multiplicities.old ≡ most_roots) }
    ensures value { result ≡ count_of (solve_answer p coefficients.now).says }
    ensures roots_after { roots.new ≡ (solve_answer p coefficients.now).roots }
    ensures multiplicities_after { multiplicities.new ≡ (solve_answer p coefficients.now).multiplicities }
{
    let answer = solved(p, coefficients);
    let found = answer.roots;
    let often = answer.multiplicities;
    put_all(&found, roots);
    put_all(&often, multiplicities);
    count_of(answer.count)
}
