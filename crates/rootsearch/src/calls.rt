// One call after another, compared and counted.
use crate::counts::Counts;
use crate::polynomial::Polynomial;
use crate::{compare, search};
use std::io;
use trial::inner::plain::Field;
use trial::inner::print;
use trial::inner::refusal::{Refusal, Refused};

// Where a difference is printed, and what has been counted: the calls turned down apart.
#[derive(Clone, Copy)]
pub struct Calls<'a> {
    pub rt: &'a HostRuntime,
    pub solve_refused: Refused<5>,
    pub build_refused: Refused<4>,
    pub counts: Counts,
}

// Why `solve` is to turn these coefficients down.
fn solve_check(field: Field, coefficients: &[u32]) -> Result<(), Refusal> {
    field.check(coefficients, 1, 5)?;
    if coefficients.iter().any(|c| *c != 0) {
        Ok(())
    } else {
        Err(Refusal::AllZero)
    }
}

impl<'a> Calls<'a> {
    pub fn new(rt: &'a HostRuntime) -> Calls<'a> {
        Calls {
            rt,
            solve_refused: Refused::new(),
            build_refused: Refused::new(),
            counts: Counts::default(),
        }
    }

    fn difference(&mut self, call: &str, field: Field, list: &[u32]) -> io::Result<()> {
        let differences = &mut self.counts.differences;
        print::difference(self.rt, differences, call, field.polynomial, list)
    }

    // Whether a call of `solve` agrees.
    fn solve_agrees(&mut self, field: Field, coefficients: &[u32]) -> bool {
        if let Err(refusal) = solve_check(field, coefficients) {
            self.solve_refused.count(refusal);
            return compare::solve_agrees(field, coefficients, Err(refusal));
        }
        let found = search::solved(Polynomial::padded(field, coefficients));
        self.counts.equations += 1;
        self.counts.tried += u64::from(field.size());
        self.counts.roots += found.len() as u64;
        self.counts.multiple += found.iter().filter(|root| 1 < root.multiplicity).count() as u64;
        compare::solve_agrees(field, coefficients, Ok(&found))
    }

    // Whether a call of `build` agrees, and the round trip.
    fn build_agrees(&mut self, field: Field, list: &[u32]) -> bool {
        let expected = field.check(list, 0, 4);
        match expected {
            Ok(()) => self.counts.builds += 1,
            Err(refusal) => self.build_refused.count(refusal),
        }
        compare::build_agrees(field, list, expected)
    }

    pub fn solve(&mut self, field: Field, coefficients: &[u32]) -> io::Result<()> {
        if self.solve_agrees(field, coefficients) {
            Ok(())
        } else {
            self.difference(" solve", field, coefficients)
        }
    }

    pub fn build(&mut self, field: Field, list: &[u32]) -> io::Result<()> {
        if self.build_agrees(field, list) {
            Ok(())
        } else {
            self.difference(" build", field, list)
        }
    }

    // Both calls with the same list.
    pub fn both(&mut self, field: Field, list: &[u32]) -> io::Result<()> {
        self.solve(field, list)?;
        self.build(field, list)
    }
}
