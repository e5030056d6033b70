// Sound tables: the clauses of rows, one function a clause, and all of them over the lent words.

#![tactic(auto)]

// ---- functions
pub mod packed;
pub mod row_clauses;
pub mod rows_sound;
