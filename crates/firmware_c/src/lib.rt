// The archive for programs that are not written in Rattle: each call of `firmware` under its C name, with the same promise. It holds
// nothing of its own. include/gfroots.h declares the calls.
#![tactic(auto)]

pub mod elements;
pub mod equations;
pub mod lines;
pub mod spaces;
