// Code that asks something of its caller (each `requires` says what).
pub mod answer;
pub mod call;
pub mod character;
pub mod frame;
pub mod kind;
pub mod stream;
pub mod text;
