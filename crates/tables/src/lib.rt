// Theorems about the tables' definitions: what sound tables tell, what is marked, what the words represent.
// It has no functions.

#![tactic(auto)]
