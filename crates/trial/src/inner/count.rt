// What the programs count.
use std::fmt;
use std::ops::{AddAssign, Sub};

// A count. None comes near 2^64, where it would stand still.
#[derive(Debug, Clone, Copy, Default, PartialEq, Eq)]
pub struct Count(u64);

impl AddAssign<u64> for Count {
    fn add_assign(&mut self, n: u64) {
        self.0 = self.0.saturating_add(n);
    }
}

// What was counted after an earlier count.
impl Sub for Count {
    type Output = Count;

    fn sub(self, earlier: Count) -> Count {
        Count(self.0.saturating_sub(earlier.0))
    }
}

impl fmt::Display for Count {
    fn fmt<W: fmt::Write>(&self, f: &mut fmt::Formatter<W>) -> fmt::Result {
        write!(f, "{}", self.0)
    }
}
