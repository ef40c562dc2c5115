// Compares the three calls of `affine` with a search over all elements, and prints what was compared.
#![tactic(auto)]

mod chosen;
mod compare;
mod counts;
mod equation;
mod run;

use crate::run::{Run, SMALL};
use std::io;
use trial::inner::generator::ACCEPTED;

fn main(rt: HostRuntime) -> io::Result<()> {
    let mut run = Run::new(&rt);
    for [house, other] in ACCEPTED[..SMALL].iter().chain(ACCEPTED.last()) {
        run.degree(*house, *other)?;
    }
    run.damaged()?;
    println!(rt; "turned down: {}", run.refused)?;
    println!(rt; "all: {}", run.counts)
}
