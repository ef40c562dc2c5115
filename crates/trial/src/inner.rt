// Code that may ask something of its caller (a `requires` says what).
pub mod count;
pub mod generator;
pub mod plain;
pub mod print;
pub mod refusal;
