// What a frame asks to solve, unless it is turned down: by the first test that applies, in the order of the numbers.
use crate::affine::Affine;
use crate::equation::{Equation, TERMS};
use crate::field::Field;
use crate::frame::{Frame, Kind};
use crate::refusal::Refusal;

#[derive(Drop)]
pub enum Problem<'a> {
    Equation(Equation),
    Affine(Affine<'a>),
}

impl<'a> Problem<'a> {
    pub fn new(frame: &'a Frame) -> Result<Problem<'a>, Refusal> {
        let field = Field::new(frame.polynomial)?;
        let given = frame.coefficients();
        let most = match frame.kind {
            Kind::Equation => TERMS,
            Kind::Affine => field.degree() as usize + 1,
        };
        let [constant, linear @ ..] = given else {
            return Err(Refusal::WrongCount);
        };
        if most < given.len() {
            return Err(Refusal::WrongCount);
        }
        if given.iter().any(|c| !field.elements().contains(c)) {
            return Err(Refusal::TooLarge);
        }
        match frame.kind {
            Kind::Equation if given.iter().all(|&c| c == 0) => Err(Refusal::AllZero),
            Kind::Equation => Ok(Problem::Equation(Equation::new(field, given))),
            Kind::Affine => Ok(Problem::Affine(Affine::new(field, *constant, linear))),
        }
    }
}
