// No code: the laws of GF(2^m) over the numbers below 2^m (specs/ and proofs/).
#![tactic(auto)]
