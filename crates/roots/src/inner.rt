// Code that asks something of its caller (each `requires` says what).
pub mod building;
pub mod equation;
pub mod finding;
pub mod multiplicity;
pub mod polynomial;
pub mod short_list;
pub mod solved;
