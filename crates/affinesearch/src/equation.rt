// An equation by the program's own arithmetic: its test, and the search over all elements for its roots and its directions.
ghost use Rattle.std.specs.Prelude.{◌<◌, ◌≤◌, length};

use arrayvec::ArrayVec;
use trial::inner::plain::Field;
use trial::inner::refusal::Refusal;

// Room for a call's coefficients: three more than m + 1 at most.
pub const ROOM: usize = 20;

// No field has more elements, and so no list more roots.
pub const ELEMENTS: usize = 65536;

// How many directions an answer has room for.
pub const PLACES: usize = 16;

// c + l0·x + l1·x^2 + l2·x^4 + .. = 0: the constant c first.
#[derive(Clone, Copy)]
pub struct Equation<'a> {
    pub field: Field,
    pub coefficients: &'a [u32],
}

impl Equation<'_> {
    // Why a call with this equation is to be turned down.
    pub fn check(&self) -> Result<(), Refusal> {
        self.field
            .check(self.coefficients, 1, self.field.degree as usize + 1)
    }

    // l0·x + l1·x^2 + ..: the left side without its constant.
    pub fn linear(&self, x: u32) -> u32 {
        let mut sum = 0;
        let mut power = x;
        if let [_, linear @ ..] = self.coefficients {
            for c in linear {
                sum ^= self.field.product(power, *c);
                power = self.field.product(power, power);
            }
        }
        sum
    }

    // Every element that is a root, ascending, in a lent list.
    pub fn roots<'r>(&self, list: &'r mut ArrayVec<u16, ELEMENTS>) -> &'r [u16]
        ensures { length result.now ≤ 65536 }
    {
        list.clear();
        let constant = self.coefficients.first().copied().unwrap_or(0);
        for x in 0..self.field.size() {
            if self.linear(x) == constant {
                list.push(x as u16);
            }
        }
        list.as_slice()
    }

    // The smallest of the elements with highest bit j at which the linear part is 0.
    fn least_zero(&self, j: u32) -> Option<u32>
        requires { j < 16 }
    {
        (1 << j..2 << j).find(|x| self.linear(*x) == 0)
    }

    // The directions of an answer with a root: the least zero for each bit that has one, in the order of the bits.
    pub fn directions(&self) -> [u32; PLACES] {
        let zeros = (0..self.field.degree).filter_map(|j| self.least_zero(j));
        let mut directions = [0; PLACES];
        for (place, zero) in directions.iter_mut().zip(zeros) {
            *place = zero;
        }
        directions
    }
}
