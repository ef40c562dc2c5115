// Chosen equations of the fields of degree 16, and some calls there that are to be turned down.
use crate::equation::{Equation, ROOM};
use arrayvec::ArrayVec;
use trial::inner::plain::Field;

// The constant, none for one with which ROOT is a root, and l0, l1 and so on.
pub struct Chosen(Option<u32>, &'static [u32]);

const ROOT: u32 = 51966;

pub const EQUATIONS: [Chosen; 16] = [
    // Every element is a root, twice; none; one, twice.
    Chosen(None, &[]),
    Chosen(None, &[0; 16]),
    Chosen(Some(40000), &[]),
    Chosen(Some(12345), &[54321]),
    Chosen(Some(12345), &[0, 1]),
    // x^2 + x with two roots, and with none, as the trace of 8192 is 1; two.
    Chosen(None, &[1, 1]),
    Chosen(Some(8192), &[1, 1]),
    Chosen(None, &[4660, 22136]),
    // x^16 + x, with sixteen; x^(2^15) + x, with two.
    Chosen(None, &[7, 0, 0, 0, 7]),
    Chosen(None, &[1, 0, 0, 0, 0, 0, 0, 0, 0, 0, 0, 0, 0, 0, 0, 1]),
    // The trace, with half the elements, and with none; what comes of many terms.
    Chosen(None, &[1; 16]),
    Chosen(Some(2), &[1; 16]),
    Chosen(
        None,
        &[
            3333, 777, 777, 777, 777, 777, 777, 777, 3333, 777, 777, 777, 777, 777, 777, 777,
        ],
    ),
    // Calls to be turned down.
    Chosen(
        Some(65536),
        &[1, 0, 0, 0, 0, 0, 0, 0, 0, 0, 0, 0, 0, 0, 0, 0, 0],
    ),
    Chosen(Some(65536), &[1, 1]),
    Chosen(None, &[4294967295]),
];

impl Chosen {
    // They find room: no equation has more than eighteen. Of one with too many only the constant would be left, and the counts would show it.
    pub fn coefficients(&self, field: Field) -> ArrayVec<u32, ROOM> {
        let mut list = ArrayVec::new();
        list.push(0);
        let _ = list.try_extend_from_slice(self.1);
        let linear = Equation {
            field,
            coefficients: &list,
        };
        list[0] = self.0.unwrap_or(linear.linear(ROOT));
        list
    }
}
