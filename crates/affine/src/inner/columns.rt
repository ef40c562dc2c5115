// The columns of an equation's matrix. The term l·x^(2^i) has the value l·(x^(2^i))^j at x^j: from one column to the next it is multiplied
// by x^(2^i), which is 2^i shifts.
ghost use Rattle.std.specs.Prelude.{◌≡◌, ◌^◌, ◌≤◌, ◌<◌, length};
ghost use Rattle.binary.specs.Product.{product};
ghost use Rattle.galois.specs.Power.{power, squares};
ghost use Rattle.galois.specs.Polynomial.{Coeffs};
ghost use Rattle.linear.specs.Limits.{places};
ghost use Rattle.affine.specs.Columns.{IsColumns, PlusTerm};

use arithmetic::inner::field::Field;
use binary::inner::digit::power_of_two;
use linear::inner::elimination::PLACES;

// From this exponent on one product is less work than the shifts.
const MANY_SHIFTS: u32 = 4;

// t times x^n.
fn shifted(field: Field, t: u32, n: u32) -> u32
    requires { t < 2 ^ field.degree }
    ensures { result ≡ product field.polynomial t (power field.polynomial 2 n) }
{
    let mut moved = t;
    for _ in 0..n {
        moved = field.doubled(moved);
    }
    moved
}

// t times x^(2^i), which is `step`: by shifts where they are few.
fn stepped(field: Field, t: u32, i: u32, step: u32) -> u32
    requires { (t < 2 ^ field.degree) × (step ≡ squares field.polynomial i 2) }
    ensures { result ≡ product field.polynomial t step }
{
    if i < MANY_SHIFTS {
        return shifted(field, t, power_of_two(i));
    }
    field.product(t, step)
}

// The term l·x^(2^i) added to every column.
fn with_term(columns: [u32; PLACES], field: Field, l: u32, i: u32, step: u32) -> [u32; PLACES]
    requires { (field.degree ≤ places) × (l < 2 ^ field.degree) × (step ≡ squares field.polynomial i 2) }
    ensures { PlusTerm field.degree field.polynomial l i columns result }
{
    let mut out = columns;
    let mut t = l;
    // The next t depends on the last, so that the columns are no `map` of their own.
    for column in &mut out[..field.degree as usize] {
        *column ^= t;
        t = stepped(field, t, i, step);
    }
    out
}

pub fn columns_of(field: Field, linear: &[u32]) -> [u32; PLACES]
    requires { (field.degree ≤ places) × (length linear.now ≤ field.degree) × Coeffs field.degree linear.now }
    ensures { IsColumns field.degree field.polynomial linear.now result }
{
    let mut columns: [u32; PLACES] = [0; PLACES];
    let mut step: u32 = 2;
    for (i, l) in linear.iter().enumerate() {
        let next = with_term(columns, field, *l, i as u32, step);
        columns = next;
        step = field.product(step, step);
    }
    columns
}
