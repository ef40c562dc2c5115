// Code that asks something of its caller (each `requires` says what).
pub mod columns;
pub mod equation;
