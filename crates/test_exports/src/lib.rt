// The proved functions under C names, for the tests and the benchmark from Rust.

#![tactic(auto)]

// ---- functions
pub mod asking;
pub mod changing;
pub mod closings;
pub mod lookups;
pub mod performing;
pub mod reading;
pub mod rights;
