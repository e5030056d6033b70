// No function: the security theorems stand in specs/, their proofs in proofs/.

#![tactic(auto)]
