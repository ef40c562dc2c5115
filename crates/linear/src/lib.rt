// Linear systems over GF(2), as rows of bits. Bits 0 to m - 1 of a row are the coefficients of the unknowns, bit m is its right-hand
// side. There is no public call here: the code leaves the number of unknowns to its callers, so all of it is inner.
#![tactic(auto)]

pub mod inner;
