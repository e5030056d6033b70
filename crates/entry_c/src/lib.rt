// The four entry points under the names that C calls (crate entry), as a static library.

#![tactic(auto)]

// ---- functions
pub mod exports;
