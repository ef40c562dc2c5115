// One call after another: drawn, chosen or damaged, searched, compared and counted.
use crate::chosen::EQUATIONS;
use crate::compare::{self, ENTRIES};
use crate::counts::Counts;
use crate::equation::{ELEMENTS, Equation, ROOM};
use arrayvec::ArrayVec;
use std::io;
use trial::inner::generator::{ACCEPTED, Generator, HALF};
use trial::inner::plain::{Field, LARGEST};
use trial::inner::print;
use trial::inner::refusal::{Refusal, Refused};

// How many degrees are searched beside 16: 2 to 8.
pub const SMALL: usize = 7;

// How many equations are drawn for a polynomial, and how many calls are damaged.
const DRAWN: u32 = 400;

const DAMAGED: u32 = 600;

// Where the run prints, what it draws from, and what it has counted: the calls turned down apart. Two long lists are made once and lent to
// each call, for the roots found and for the listings.
#[derive(Drop)]
pub struct Run<'a> {
    rt: &'a HostRuntime,
    generator: Generator,
    roots: ArrayVec<u16, ELEMENTS>,
    list: [u16; ENTRIES],
    pub refused: Refused<4>,
    pub counts: Counts,
}

impl<'a> Run<'a> {
    pub fn new(rt: &'a HostRuntime) -> Run<'a> {
        Run {
            rt,
            generator: Generator::new(),
            roots: ArrayVec::new(),
            list: [0; ENTRIES],
            refused: Refused::new(),
            counts: Counts::default(),
        }
    }

    // A call with these coefficients.
    fn call(&mut self, field: Field, coefficients: &[u32]) -> io::Result<()> {
        let equation = Equation {
            field,
            coefficients,
        };
        match equation.check() {
            Err(refusal) => {
                self.refused.count(refusal);
                self.compare(&equation, Err(refusal))
            }
            Ok(()) => {
                let roots = equation.roots(&mut self.roots);
                self.counts.equations += 1;
                self.counts.tried += u64::from(field.size());
                self.counts.roots += roots.len() as u64;
                self.compare(&equation, Ok(()))
            }
        }
    }

    // A call beside the roots that were found last, or why it is to be turned down.
    fn compare(&mut self, equation: &Equation<'_>, check: Result<(), Refusal>) -> io::Result<()> {
        let expected = check.and(Ok(self.roots.as_slice()));
        match compare::compared(equation, expected, &mut self.list) {
            Some(places) => {
                self.counts.places += u64::from(places);
                Ok(())
            }
            None => print::difference(
                self.rt,
                &mut self.counts.differences,
                "",
                equation.field.polynomial,
                equation.coefficients,
            ),
        }
    }

    // The equation e of a field: 1 to m + 1 coefficients, about half of them 0. Those of the first one are all 0.
    fn drawn(&mut self, e: u32, field: Field) -> io::Result<()> {
        self.generator.advance();
        let count = 1 + self.generator.below(field.degree + 1) as usize;
        let bound = if e == 0 { 1 } else { field.size() };
        let coefficients: [u32; ROOM] = self.generator.elements(bound, HALF);
        self.call(field, &coefficients[..count])
    }

    // A call in which anything may be wrong: the polynomial, the number of coefficients, which is up to m + 3, and one of them. Three times of
    // four it is too large; its place may be just past the end.
    fn damaged_call(&mut self) -> io::Result<()> {
        self.generator.advance();
        let field = Field::of(self.generator.polynomial(&ACCEPTED[..SMALL]));
        self.generator.advance();
        let count = self.generator.below(field.degree + 4);
        let mut coefficients: [u32; ROOM] = self.generator.elements(field.size(), HALF);
        let kind = self.generator.high() / 16384;
        if let Some(x) = self.generator.outside(kind, field.size()) {
            coefficients[self.generator.below(count + 1) as usize] = x;
        }
        self.call(field, &coefficients[..count as usize])
    }

    // The equations of a degree, for two polynomials in turn.
    fn equations(&mut self, fields: [Field; 2]) -> io::Result<()> {
        for e in 0..DRAWN {
            for field in fields {
                self.drawn(e, field)?;
            }
        }
        Ok(())
    }

    // The chosen equations, and a call without coefficients.
    fn chosen(&mut self, fields: [Field; 2]) -> io::Result<()> {
        for chosen in &EQUATIONS {
            for field in fields {
                let coefficients = chosen.coefficients(field);
                self.call(field, &coefficients)?;
            }
        }
        for field in fields {
            self.call(field, &[])?;
        }
        Ok(())
    }

    // The equations of a degree, by its two polynomials: chosen ones at the largest degree.
    pub fn degree(&mut self, house: u32, other: u32) -> io::Result<()> {
        let earlier = self.counts;
        let field = Field::of(house);
        let fields = [field, Field::of(other)];
        if field.degree == LARGEST {
            self.chosen(fields)?;
        } else {
            self.equations(fields)?;
        }
        println!(self.rt; "m {}: {}", field.degree, self.counts.since(earlier))
    }

    pub fn damaged(&mut self) -> io::Result<()> {
        let earlier = self.counts;
        for _ in 0..DAMAGED {
            self.damaged_call()?;
        }
        println!(self.rt; "damaged calls: {}", self.counts.since(earlier))
    }
}
