// What both programs print of a call.
use crate::inner::count::Count;
use std::{fmt, io};

// Numbers, each after a blank.
#[derive(Clone, Copy)]
struct Numbers<'a>(&'a [u32]);

impl fmt::Display for Numbers<'_> {
    fn fmt<W: fmt::Write>(&self, f: &mut fmt::Formatter<W>) -> fmt::Result {
        for n in self.0 {
            write!(f, " {n}")?;
        }
        Ok(())
    }
}

// Counts a difference, and prints the first one, so that it can be looked into: the call, its polynomial and its list.
pub fn difference(
    rt: &impl Print,
    differences: &mut Count,
    call: &str,
    polynomial: u32,
    list: &[u32],
) -> io::Result<()> {
    if *differences == Count::default() {
        println!(rt; "first difference:{call} {polynomial}{}", Numbers(list))?;
    }
    *differences += 1;
    Ok(())
}
