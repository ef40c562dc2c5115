// Code that asks something of its caller (each `requires` says what).
pub mod block;
pub mod digit;
pub mod division;
pub mod factor;
pub mod modulo;
