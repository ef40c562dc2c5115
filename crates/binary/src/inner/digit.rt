// Single binary digits of a number.
ghost use Rattle.std.specs.Prelude.{◌≡◌, ◌*◌, ◌^◌, ◌<◌};
ghost use Rattle.binary.specs.Bit.{bit};
ghost use Rattle.binary.specs.Xor.{Degree};

// The highest bit.
pub fn degree(x: u32) -> u32
    requires { 0 < x }
    ensures { Degree result x }
{
    x.ilog2()
}

pub fn power_of_two(k: u32) -> u32
    requires { k < 32 }
    ensures { result ≡ 2 ^ k }
{
    1 << k
}

// The digit of x at the power 2^k.
pub fn bit(x: u32, k: u32) -> u32
    requires { k < 32 }
    ensures { result ≡ bit k x }
{
    (x >> k) % 2
}

// x where the digit is 1, else 0: a mask and no branch, for the loops that take most of the time.
pub fn picked(digit: u32, x: u32) -> u32
    requires { digit < 2 }
    ensures { result ≡ digit * x }
{
    x & 0u32.wrapping_sub(digit)
}
