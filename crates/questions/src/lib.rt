// What goes back along the sources of a row: does it come from a request (of one pair, and of many in one pass), is it
// lent; its first chain. And whether an end is on loan.

#![tactic(auto)]

// ---- functions
pub mod chain;
pub mod pairs;
pub mod question;
