// No function: the history, demand 3 and the starred cases stand in specs/, their proofs in proofs/.

#![tactic(auto)]
