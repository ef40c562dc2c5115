// The library for programs that are not written in Rattle: each public call under a C name, on numbers and lent lists only. A call returns
// the number that it is turned down by, or 0 with its values at the front of the lists that the caller lends; turned down, it writes
// nothing. A lent list with no room for its values is turned down by 7, after every other number. include/gfroots.h declares the calls.
#![tactic(auto)]

pub mod elements;
pub mod equations;
pub mod inner;
pub mod lines;
pub mod spaces;
