// The arithmetic of GF(2^m) beyond sum and product, for a polynomial that has been accepted and its degree. There is no public call
// here: the calls of `field` test their input and come here with it.
#![tactic(auto)]

pub mod inner;
