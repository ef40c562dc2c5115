// Polynomials of degree up to 4 by the program's own product.
ghost use Rattle.std.specs.Prelude.{◌≤◌};

use trial::inner::plain::Field;

// How many coefficients a polynomial has here.
pub const PLACES: usize = 5;

// The coefficients over a field, constant first.
#[derive(Clone, Copy)]
pub struct Polynomial {
    pub field: Field,
    pub coefficients: [u32; PLACES],
}

impl Polynomial {
    // The first five coefficients, 0 where there are fewer.
    pub fn padded(field: Field, list: &[u32]) -> Polynomial {
        let mut coefficients = [0; PLACES];
        for (place, c) in coefficients.iter_mut().zip(list) {
            *place = *c;
        }
        Polynomial {
            field,
            coefficients,
        }
    }

    // The product of x + r over the entries r of a list of up to four, times a leading coefficient.
    pub fn with_roots(field: Field, leading: u32, list: &[u32]) -> Polynomial {
        list.iter()
            .fold(Polynomial::padded(field, &[leading]), |c, r| c.times(*r))
    }

    // The polynomial times x + r, for one of degree below 4.
    fn times(self, r: u32) -> Polynomial {
        let mut product = self;
        let mut lower = 0;
        for place in &mut product.coefficients {
            let c = *place;
            *place = self.field.product(r, c) ^ lower;
            lower = c;
        }
        product
    }

    // The value at x, by Horner's rule from the highest coefficient down.
    fn value(self, x: u32) -> u32 {
        self.coefficients
            .iter()
            .rev()
            .fold(0, |value, c| self.field.product(x, value) ^ *c)
    }

    // The quotient by x + r: the values of Horner's rule at r before the last.
    fn quotient(self, r: u32) -> Polynomial {
        let mut quotient = self;
        let mut value = 0;
        for place in quotient.coefficients.iter_mut().rev() {
            let next = self.field.product(r, value) ^ *place;
            *place = value;
            value = next;
        }
        quotient
    }

    // With its constant changed such that x is a root.
    pub fn rooted(self, x: u32) -> Polynomial {
        let mut rooted = self;
        rooted.coefficients[0] ^= self.value(x);
        rooted
    }

    // How often x + r divides a polynomial other than 0: at most four times, as its degree is at most 4.
    pub fn multiplicity(self, r: u32) -> usize {
        let mut rest = self;
        for k in 0..4 {
            if rest.value(r) != 0 {
                return k;
            }
            rest = rest.quotient(r);
        }
        4
    }

    // The coefficients up to the highest one that is not 0.
    pub fn places(&self) -> usize
        ensures { result ≤ 5 }
    {
        let highest = self.coefficients.iter().rposition(|c| *c != 0);
        highest.map_or(0, |i| i + 1)
    }
}
