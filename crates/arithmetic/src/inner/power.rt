// Powers and the trace.
ghost use Rattle.std.specs.Prelude.{◌≡◌, true, ◌^◌, ◌<◌, pos};
ghost use Rattle.std.specs.Int.Signed.{lt_z};
ghost use Rattle.galois.specs.Power.{power};
ghost use Rattle.galois.specs.Trace.{trace};
ghost use Rattle.arithmetic.specs.Power.{power_of};

use crate::inner::field::Field;

impl Field {
    // n factors a, by squaring: one binary digit of n a turn, until none is left. (A `while`, as it counts nothing.)
    pub fn raised(self, a: u32, n: u32) -> u32
        requires { a < 2 ^ self.degree }
        ensures { result ≡ power self.polynomial a n }
    {
        let mut so_far: u32 = 1;
        let mut base = a;
        let mut left = n;
        while left != 0 {
            if left % 2 == 1 {
                so_far = self.product(so_far, base);
            }
            base = self.product(base, base);
            left /= 2;
        }
        so_far
    }

    // A negative exponent raises the inverse. (The lowest i32 has no negative of its own; its size is a u32.)
    pub fn power(self, a: u32, e: i32) -> u32
        requires { (a < 2 ^ self.degree) × (lt_z e (pos 0) ≡ true → 0 < a) }
        ensures { result ≡ power_of self.degree self.polynomial a e }
    {
        let base = if e < 0 { self.inverse(a) } else { a };
        self.raised(base, e.unsigned_abs())
    }

    // The sum of c and its squares, m terms.
    pub fn trace(self, c: u32) -> u32
        requires { c < 2 ^ self.degree }
        ensures { result ≡ trace self.degree self.polynomial c }
    {
        let mut sum: u32 = 0;
        let mut x = c;
        for _ in 0..self.degree {
            sum ^= x;
            x = self.product(x, x);
        }
        sum
    }
}
