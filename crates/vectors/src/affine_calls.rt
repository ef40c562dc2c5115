// What the calls of `affine` answer.
use crate::said::{Malformed, Said, say_places};
use affine::RootSpace;
use std::io;
use std::io::Write;

// How many entries a row can lend at most, and what they hold before the call.
const LENT: usize = 20;

const FILLING: u16 = 4242;

impl Said for RootSpace {
    fn say<W: Write>(&self, out: &mut W) -> io::Result<()> {
        let k = self.dimension;
        write!(out, " found, k {k}, base {}", self.base.0)?;
        if k != 0 {
            write!(out, ", directions")?;
        }
        say_places(&self.directions, k as usize, out)
    }
}

impl Said for Option<RootSpace> {
    fn say<W: Write>(&self, out: &mut W) -> io::Result<()> {
        match self {
            Some(space) => space.say(out),
            None => write!(out, " no root"),
        }
    }
}

// A listing into a lent list of `room` entries, which is written whole after the call.
pub fn list<W: Write>(p: u32, room: u32, coefficients: &[u32], out: &mut W) -> io::Result<()> {
    let mut entries = [FILLING; LENT];
    let Some(lent) = entries.get_mut(..room as usize) else {
        return Malformed.say(out);
    };
    match affine::list_roots(p, coefficients, lent) {
        Ok(count) => write!(out, " count {count}")?,
        Err(refusal) => refusal.say(out)?,
    }
    write!(out, ", list")?;
    for entry in lent.iter() {
        write!(out, " {entry}")?;
    }
    Ok(())
}
