// How far an equation goes (specs/Limits says the same of the definitions).
pub const MOST_COEFFICIENTS: usize = 5;

pub const MOST_ROOTS: usize = 4;
