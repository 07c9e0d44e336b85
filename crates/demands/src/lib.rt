// What was asked for, as theorems about the calls of `tracker`. There is no code here: the statements stand in specs/, their proofs in proofs/.
#![tactic(auto)]
