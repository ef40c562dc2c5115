// What a system that can be solved has for solutions.
ghost use Rattle.std.specs.Prelude.{◌≡◌, ◌^◌, ◌≤◌};
ghost use Rattle.binary.specs.Xor.{◌⊕◌};
ghost use Rattle.linear.specs.Limits.{places};
ghost use Rattle.linear.specs.Directions.{choose};

use crate::inner::elimination::PLACES;
use binary::inner::digit::{picked, power_of_two};

// The solutions are the base combined by exclusive or with each choice of the count directions, which stand first in their places. (An array
// and its count, since nothing is taken from the heap; unused places are promised to be 0.)
#[derive(Clone, Copy, Debug, PartialEq, Eq)]
pub struct Space {
    pub base: u32,
    pub count: usize,
    pub directions: [u32; PLACES],
    pub ghost few: { count ≤ places },
}

impl Space {
    // How many solutions there are.
    pub fn size(&self) -> u32
        ensures { result ≡ 2 ^ self.now.count }
    {
        power_of_two(self.count as u32)
    }

    // The solution at place n: the base with the directions that the bits of n choose, the lowest bit for the first. (Unused places are 0
    // and add nothing.)
    pub fn place(&self, n: u32) -> u32
        ensures { result ≡ self.now.base ⊕ choose self.now.directions n }
    {
        let mut sum = self.base;
        let mut rest = n;
        for direction in &self.directions {
            sum ^= picked(rest % 2, *direction);
            rest /= 2;
        }
        sum
    }
}
