// Theorems: every change of state, and so every call, keeps the tables sound. It has no functions.

#![tactic(auto)]
