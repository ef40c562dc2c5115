// How an answer is written after its row: each word and each number after a space.
use field::{Element, LogNumber, Refusal};
use std::io;
use std::io::Write;

pub trait Said {
    fn say<W: Write>(&self, out: &mut W) -> io::Result<()>;
}

// A row that is no call's.
#[derive(Clone, Copy)]
pub struct Malformed;

impl Said for Malformed {
    fn say<W: Write>(&self, out: &mut W) -> io::Result<()> {
        write!(out, " turned down by 8")
    }
}

impl Said for Refusal {
    fn say<W: Write>(&self, out: &mut W) -> io::Result<()> {
        write!(out, " turned down by {}", self.number())
    }
}

impl Said for u32 {
    fn say<W: Write>(&self, out: &mut W) -> io::Result<()> {
        write!(out, " {self}")
    }
}

impl Said for Element {
    fn say<W: Write>(&self, out: &mut W) -> io::Result<()> {
        self.0.say(out)
    }
}

impl Said for LogNumber {
    fn say<W: Write>(&self, out: &mut W) -> io::Result<()> {
        self.0.say(out)
    }
}

impl<T: Said, E: Said> Said for Result<T, E> {
    fn say<W: Write>(&self, out: &mut W) -> io::Result<()> {
        match self {
            Ok(value) => value.say(out),
            Err(refused) => refused.say(out),
        }
    }
}

// A place that an answer does not use is to hold 0: only another number is written.
#[derive(Clone, Copy)]
pub struct Unused(pub u32);

impl Said for Unused {
    fn say<W: Write>(&self, out: &mut W) -> io::Result<()> {
        match self.0 {
            0 => Ok(()),
            n => write!(out, ", an unused place holds {n}"),
        }
    }
}

// The places of an answer, of which the first `used` are in use.
pub fn say_places<W: Write>(places: &[u32], used: usize, out: &mut W) -> io::Result<()> {
    for (i, n) in places.iter().enumerate() {
        if i < used {
            n.say(out)?;
        } else {
            Unused(*n).say(out)?;
        }
    }
    Ok(())
}
