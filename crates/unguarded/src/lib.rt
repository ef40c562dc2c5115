// The inner code under C names, for the benchmark alone: each function asks its caller for what a public call tests, and nothing tests it
// here. Firmware links `firmware`, never this.
#![tactic(auto)]

pub mod inner;
