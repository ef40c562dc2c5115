// What a call is to be turned down for, and how often each was.
use crate::inner::count::Count;
use std::fmt;

// The number of each is that of the library's answers.
#[derive(Debug, Clone, Copy, PartialEq, Eq)]
pub enum Refusal {
    NoDegree = 1,
    Factor = 2,
    Length = 3,
    NoElement = 4,
    AllZero = 5,
    NoPlace = 7,
}

impl Refusal {
    // A name for its number, which `map_err` takes too.
    pub fn number(self) -> u32 {
        self as u32
    }
}

// How often a call was turned down by each of the numbers from 1 to N.
#[derive(Debug, Clone, Copy)]
pub struct Refused<const N: usize> {
    counts: [Count; N],
}

impl<const N: usize> Refused<N> {
    pub fn new() -> Refused<N> {
        Refused {
            counts: [Count::default(); N],
        }
    }

    pub fn count(&mut self, refusal: Refusal) {
        if let Some(count) = self.counts.get_mut(refusal as usize - 1) {
            *count += 1;
        }
    }
}

// "3 by 1, 0 by 2", and so on.
impl<const N: usize> fmt::Display for Refused<N> {
    fn fmt<W: fmt::Write>(&self, f: &mut fmt::Formatter<W>) -> fmt::Result {
        let mut separator = "";
        for (i, count) in self.counts.iter().enumerate() {
            write!(f, "{separator}{count} by {}", i + 1)?;
            separator = ", ";
        }
        Ok(())
    }
}
