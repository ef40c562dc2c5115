// Code that asks something of its caller (each `requires` says what).
pub mod elimination;
pub mod listing;
pub mod reduced;
pub mod solution;
pub mod space;
pub mod system;
