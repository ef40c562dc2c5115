// Polynomials over GF(2) as numbers: bit i is the coefficient of x^i. There is no public call here: the code leaves it to its callers
// to have tested the polynomial, so all of it is inner.
#![tactic(auto)]

pub mod inner;
