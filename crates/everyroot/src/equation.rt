// Equations of degree up to 4: five coefficients, constant first, not all 0. Every element is tried.
use crate::field::Field;
use std::io;
use std::io::Write;

// How many coefficients a polynomial has.
pub const TERMS: usize = 5;

const LARGEST_DEGREE: u32 = 4;

type Polynomial = [u32; TERMS];

// A polynomial divided by another of degree 1.
#[derive(Debug, Clone, Copy)]
struct Division {
    quotient: Polynomial,
    remainder: u32,
}

#[derive(Debug, Clone, Copy)]
struct Root {
    element: u32,
    multiplicity: u32,
}

#[derive(Debug, Clone, Copy)]
pub struct Equation {
    field: Field,
    polynomial: Polynomial,
}

impl Equation {
    // Coefficients that are not given are 0.
    pub fn new(field: Field, given: &[u32]) -> Equation {
        let mut polynomial = [0; TERMS];
        for (place, &coefficient) in polynomial.iter_mut().zip(given) {
            *place = coefficient;
        }
        Equation { field, polynomial }
    }

    // The polynomial divided by x + r, by Horner's rule from the highest coefficient down. The remainder is its value at r.
    fn divided(&self, [c0, c1, c2, c3, c4]: Polynomial, r: u32) -> Division {
        let times_r = |a| self.field.product(a, r);
        let third = c4;
        let second = c3 ^ times_r(third);
        let first = c2 ^ times_r(second);
        let constant = c1 ^ times_r(first);
        Division {
            quotient: [constant, first, second, third, 0],
            remainder: c0 ^ times_r(constant),
        }
    }

    // How often x + r divides the polynomial: 0 where r is no root, and at most four times, as the degree is at most 4.
    fn multiplicity(&self, r: u32) -> u32 {
        let mut rest = self.polynomial;
        for k in 0..LARGEST_DEGREE {
            let division = self.divided(rest, r);
            if division.remainder != 0 {
                return k;
            }
            rest = division.quotient;
        }
        LARGEST_DEGREE
    }

    fn root(&self, element: u32) -> Option<Root> {
        match self.multiplicity(element) {
            0 => None,
            multiplicity => Some(Root {
                element,
                multiplicity,
            }),
        }
    }

    // What stands after 01, 00: the count of roots and the roots, ascending, each with its multiplicity. Every element is tried for the
    // count; once that many roots are written, there is no other.
    pub fn write_roots(&self, output: &mut impl Write) -> io::Result<()> {
        let elements = self.field.elements();
        let count = elements.filter_map(|x| self.root(x)).count();
        write!(output, "{count:02X}")?;
        let elements = self.field.elements();
        for root in elements.filter_map(|x| self.root(x)).take(count) {
            write!(output, "{:04X}{:02X}", root.element, root.multiplicity)?;
        }
        Ok(())
    }
}
