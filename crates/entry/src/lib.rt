// The two entry points, for any words and any bytes: open and call, and both as C calls them (crate entry_c).
// ---- functions

#![tactic(auto)]

pub mod calling;
pub mod exports;
pub mod opening;
