// Code that asks something of its caller (each `requires` says what).
pub mod field;
pub mod inverse;
pub mod logarithm;
pub mod power;
pub mod root;
