// What the calls of `roots` answer.
use crate::said::{Said, Unused, say_places};
use field::Refusal;
use roots::RootsAnswer;
use roots::limits::MOST_COEFFICIENTS;
use std::io;
use std::io::Write;

// What is written before the roots, and how many there are.
fn say_count<W: Write>(count: Result<u32, Refusal>, out: &mut W) -> io::Result<usize> {
    match count {
        Ok(n) => {
            if n == 0 {
                write!(out, " no root")?;
            }
            Ok(n as usize)
        }
        Err(refusal) => {
            refusal.say(out)?;
            Ok(0)
        }
    }
}

// Each root with its multiplicity, as 2x1.
impl Said for RootsAnswer {
    fn say<W: Write>(&self, out: &mut W) -> io::Result<()> {
        let used = say_count(self.count, out)?;
        for (i, (root, k)) in self.roots.iter().zip(&self.multiplicities).enumerate() {
            if i < used {
                write!(out, " {root}x{k}")?;
            } else {
                Unused(*root).say(out)?;
                Unused(*k).say(out)?;
            }
        }
        Ok(())
    }
}

// The coefficients of what was built.
impl Said for [u32; MOST_COEFFICIENTS] {
    fn say<W: Write>(&self, out: &mut W) -> io::Result<()> {
        say_places(self, MOST_COEFFICIENTS, out)
    }
}
