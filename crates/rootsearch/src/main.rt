// Compares the two calls of `roots` with a search over all elements, and prints what was compared.
#![tactic(auto)]

mod calls;
mod compare;
mod counts;
mod kinds;
mod polynomial;
mod run;
mod search;

use crate::run::Run;
use std::io;
use trial::inner::generator::ACCEPTED;

fn main(rt: HostRuntime) -> io::Result<()> {
    let mut run = Run::new(&rt);
    for [house, other] in &ACCEPTED {
        run.degree(*house, *other)?;
    }
    run.damaged()?;
    let calls = run.calls;
    println!(rt;
        "solve turned down: {}, {} by none",
        calls.solve_refused, calls.counts.equations
    )?;
    println!(rt;
        "build turned down: {}, {} by none",
        calls.build_refused, calls.counts.builds
    )?;
    println!(rt; "all: {}", calls.counts)
}
