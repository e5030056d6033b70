// Sound tables: the clauses of requests and of who holds what they list, one function a clause, over the lent words.

#![tactic(auto)]

// ---- functions
pub mod holder_clauses;
pub mod request_clauses;
