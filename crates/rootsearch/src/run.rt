// Which calls there are: every list of a small field, what is drawn in the others, and damaged ones.
ghost use Rattle.std.specs.Prelude.{◌≤◌};

use crate::calls::Calls;
use crate::kinds::{Kind, OTHERS, PATTERNS, Pattern, ROOM};
use crate::polynomial::PLACES;
use std::io;
use trial::inner::generator::{ACCEPTED, Generator};
use trial::inner::plain::Field;

// The largest degree of a field whose lists are few enough.
const LARGEST: u32 = 3;

const DAMAGED: u32 = 800;

// What the run draws from, and its calls so far.
#[derive(Drop)]
pub struct Run<'a> {
    generator: Generator,
    pub calls: Calls<'a>,
}

// The list with the number e: its digits to the base `size`.
fn digits(e: u32, size: u32) -> [u32; PLACES]
    requires { 1 ≤ size }
{
    let mut rest = e;
    let mut list = [0; PLACES];
    for digit in &mut list {
        *digit = rest % size;
        rest /= size;
    }
    list
}

// How many equations of each kind are drawn in a field: fewer the more elements are to be tried.
fn rounds(m: u32) -> u32
    ensures { result ≤ 16 }
{
    match m {
        16 => 1,
        15 => 2,
        14 => 4,
        13 => 8,
        _ => 16,
    }
}

impl<'a> Run<'a> {
    pub fn new(rt: &'a HostRuntime) -> Run<'a> {
        Run {
            generator: Generator::new(),
            calls: Calls::new(rt),
        }
    }

    // All lists of up to five elements, as coefficients and as roots. Those of none are too short for `solve`, those of five too long for
    // `build`.
    fn every_list(&mut self, field: Field) -> io::Result<()>
        requires { field.degree ≤ 3 }
    {
        for n in 0..6 {
            for e in 0..1 << (field.degree * n) {
                let list = digits(e, field.size());
                self.calls.both(field, &list[..n as usize])?;
            }
        }
        Ok(())
    }

    // An equation of drawn elements, with zeros above its degree or without, and a list of them to build from.
    fn turn(&mut self, field: Field, kind: Kind, pattern: Pattern) -> io::Result<()> {
        let drawn: [u32; ROOM] = self.generator.elements(field.size(), kind.zeros());
        self.generator.advance();
        let list = pattern.list(&drawn);
        let equation = kind.equation(field, &drawn, &list);
        let least = kind.least(&equation);
        let count = least + self.generator.below(6 - least as u32) as usize;
        self.calls.solve(field, &equation.coefficients[..count])?;
        self.calls.build(field, &list)
    }

    // The drawn calls of a field.
    fn drawn(&mut self, field: Field) -> io::Result<()> {
        for _ in 0..rounds(field.degree) {
            for pattern in PATTERNS {
                self.turn(field, Kind::Listed, pattern)?;
            }
            for (kind, pattern) in OTHERS.iter().zip(&PATTERNS) {
                self.turn(field, *kind, *pattern)?;
            }
        }
        Ok(())
    }

    fn field(&mut self, field: Field) -> io::Result<()> {
        if field.degree <= LARGEST {
            self.every_list(field)
        } else {
            self.drawn(field)
        }
    }

    // The calls of a degree, by its two polynomials, where there is a second one.
    pub fn degree(&mut self, house: u32, other: u32) -> io::Result<()> {
        let earlier = self.calls.counts;
        let field = Field::of(house);
        self.field(field)?;
        if other != house {
            self.field(Field::of(other))?;
        }
        println!(self.calls.rt; "m {}: {}", field.degree, self.calls.counts.since(earlier))
    }

    // Two calls with a list in which anything may be wrong: the polynomial, the number of entries, which is up to 7, and all of them, 0, or one,
    // too large; its place may be just past the end. Half the lists stay as they are.
    fn damaged_calls(&mut self) -> io::Result<()> {
        self.generator.advance();
        let field = Field::of(self.generator.polynomial(&ACCEPTED));
        self.generator.advance();
        let count = self.generator.below(8);
        let mut list: [u32; ROOM] = self.generator.elements(field.size(), 0);
        self.generator.advance();
        let kind = self.generator.high() / 8192;
        if kind == 0 {
            list.fill(0);
        } else if let Some(x) = self.generator.outside(kind, field.size()) {
            list[self.generator.below(count + 1) as usize] = x;
        }
        self.calls.both(field, &list[..count as usize])
    }

    pub fn damaged(&mut self) -> io::Result<()> {
        let earlier = self.calls.counts;
        for _ in 0..DAMAGED {
            self.damaged_calls()?;
        }
        println!(self.calls.rt; "damaged calls: {}", self.calls.counts.since(earlier))
    }
}
