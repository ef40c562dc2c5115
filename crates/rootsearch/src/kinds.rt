// Equations of every kind, of drawn elements.
ghost use Rattle.std.specs.Prelude.{◌≤◌};

use crate::polynomial::Polynomial;
use arrayvec::ArrayVec;
use trial::inner::generator::HALF;
use trial::inner::plain::Field;

// Room for a call's list: three more than the coefficients of an equation at most.
pub const ROOM: usize = 8;

// Which of the drawn elements each entry of a list is.
#[derive(Clone, Copy)]
pub struct Pattern(&'static [usize]);

// Every way in which some of up to four entries are the same.
pub const PATTERNS: [Pattern; 12] = [
    Pattern(&[]),
    Pattern(&[0]),
    Pattern(&[0, 1]),
    Pattern(&[0, 0]),
    Pattern(&[0, 1, 2]),
    Pattern(&[0, 1, 0]),
    Pattern(&[0, 0, 0]),
    Pattern(&[0, 1, 2, 3]),
    Pattern(&[0, 1, 2, 0]),
    Pattern(&[0, 1, 1, 0]),
    Pattern(&[0, 1, 0, 0]),
    Pattern(&[0, 0, 0, 0]),
];

impl Pattern {
    // Each entry finds room, as no pattern has more than four. Of more than ROOM the last would go, and `build` is to turn down so long a
    // list with or without them.
    pub fn list(self, drawn: &[u32; ROOM]) -> ArrayVec<u32, ROOM> {
        let mut list = ArrayVec::new();
        for i in self.0 {
            let _ = list.try_push(drawn[i % ROOM]);
        }
        list
    }
}

#[derive(Clone, Copy, PartialEq, Eq)]
pub enum Kind {
    // With the roots of a list.
    Listed,
    // With the root a that is the square root s of c1/c3, for which no s + 1/y stands.
    SpecialRoot,
    AffineQuartic,
    Square,
    // With s = 0, a root or not.
    NoLinearTerm,
    Quartic,
    // (x + a)^3 times the leading coefficient with a constant added, any or such that b is a root.
    Cube,
    RootedCube,
    // With the root a, that of the factor x + a which makes it affine.
    AffineFactor,
    Cubic,
    Quadratic,
    // The drawn elements as they are, half of them 0.
    Drawn,
}

// The kinds that are drawn beside those from a list.
pub const OTHERS: [Kind; 12] = [
    Kind::SpecialRoot,
    Kind::AffineQuartic,
    Kind::Square,
    Kind::NoLinearTerm,
    Kind::Quartic,
    Kind::Cube,
    Kind::RootedCube,
    Kind::AffineFactor,
    Kind::Cubic,
    Kind::Quadratic,
    Kind::Drawn,
    Kind::Drawn,
];

impl Kind {
    // Below which generator's number a drawn element is 0.
    pub fn zeros(self) -> u32 {
        if self == Kind::Drawn { HALF } else { 0 }
    }

    // The equation of the drawn elements, or with the roots of the list.
    pub fn equation(self, field: Field, drawn: &[u32; ROOM], list: &[u32]) -> Polynomial {
        let [a, b, c, d, ..] = *drawn;
        let leading = drawn[7].max(1);
        let second = field.product(leading, a);
        let first = field.product(second, a);
        let third = d.max(1);
        let special = field.product(field.product(third, a), a);
        let of = |coefficients| Polynomial {
            field,
            coefficients,
        };
        match self {
            Kind::Listed => Polynomial::with_roots(field, leading, list),
            Kind::SpecialRoot => of([0, special, b, third, leading]).rooted(a),
            Kind::AffineQuartic => of([a, b, c, 0, leading]),
            Kind::Square => of([a, 0, c, 0, leading]),
            Kind::NoLinearTerm => of([a, 0, c, third, leading]),
            Kind::Quartic => of([a, b, c, third, leading]),
            Kind::Cube => of([b, first, second, leading, 0]),
            Kind::RootedCube => of([0, first, second, leading, 0]).rooted(b),
            Kind::AffineFactor => of([0, b, second, leading, 0]).rooted(a),
            Kind::Cubic => of([a, b, c, leading, 0]),
            Kind::Quadratic => of([a, b, leading, 0, 0]),
            Kind::Drawn => Polynomial::padded(field, drawn),
        }
    }

    // How many of an equation's coefficients are to be given at least: all up to its degree, but one where it is as drawn.
    pub fn least(self, equation: &Polynomial) -> usize
        ensures { result ≤ 5 }
    {
        if self == Kind::Drawn {
            1
        } else {
            equation.places()
        }
    }
}
