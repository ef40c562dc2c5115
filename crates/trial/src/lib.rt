// What the programs that try every element share: arithmetic and tests of their own, from the definitions alone, and a generator. Nothing here
// is the library's, and the library uses nothing of it.
#![tactic(auto)]

pub mod inner;
