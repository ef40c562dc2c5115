// Affine equations c + l0·x + l1·x^2 + l2·x^4 + ..: every element is tried. The frame's first coefficient is c.
use crate::field::Field;
use std::io;
use std::io::Write;
use std::ops::Range;

// How many bits an element has at most: there is at most one direction for each.
const BITS: usize = 16;

#[derive(Clone, Copy)]
pub struct Affine<'a> {
    field: Field,
    constant: u32,
    linear: &'a [u32],
}

impl<'a> Affine<'a> {
    pub fn new(field: Field, constant: u32, linear: &'a [u32]) -> Affine<'a> {
        Affine {
            field,
            constant,
            linear,
        }
    }

    // l0·x + l1·x^2 + l2·x^4 + ..: the equation without c.
    // Compiled on its own, it is a fifth faster.
    #[inline(never)]
    fn linear_part(&self, x: u32) -> u32 {
        let mut sum = 0;
        let mut power = x;
        for &coefficient in self.linear {
            sum ^= self.field.product(coefficient, power);
            power = self.field.product(power, power);
        }
        sum
    }

    // The smallest of these elements whose linear part is `wanted`.
    fn smallest(&self, mut elements: Range<u32>, wanted: u32) -> Option<u32> {
        elements.find(|&x| self.linear_part(x) == wanted)
    }

    // At each place j below m the direction with highest bit j: the smallest such element whose linear part is 0.
    fn directions(&self) -> [Option<u32>; BITS] {
        let mut directions = [None; BITS];
        let m = self.field.degree() as usize;
        for (j, direction) in directions.iter_mut().enumerate().take(m) {
            *direction = self.smallest(1 << j..2 << j, 0);
        }
        directions
    }

    // What stands after 02, 00: found, k, the base, which is the smallest root, and the directions, ascending.
    pub fn write_solutions(&self, output: &mut impl Write) -> io::Result<()> {
        let Some(base) = self.smallest(self.field.elements(), self.constant) else {
            return write!(output, "00000000");
        };
        let directions = self.directions();
        let count = directions.iter().flatten().count();
        write!(output, "01{count:02X}{base:04X}")?;
        for direction in directions.iter().flatten() {
            write!(output, "{direction:04X}")?;
        }
        Ok(())
    }
}
