// How far the library goes (specs/Limits says the same of the definitions).
pub const SMALLEST_DEGREE: u32 = 2;

pub const LARGEST_DEGREE: u32 = 16;

// A field polynomial is not below the floor, and below the ceiling.
pub const POLYNOMIAL_FLOOR: u32 = 4;

pub const POLYNOMIAL_CEILING: u32 = 131072;
