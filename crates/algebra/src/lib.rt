// No code: what the crates above share of lists, searches and rings (specs/ and proofs/).
#![tactic(auto)]
