// Sound tables, on words of any length and content: how rows and requests are laid, the clauses of process records and
// of the next number, one function a clause, and all clauses together.

#![tactic(auto)]

// ---- functions
pub mod laid;
pub mod record_clauses;
pub mod sound;
