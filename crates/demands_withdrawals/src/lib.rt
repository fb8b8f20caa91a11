// A lot withdrawn between two runs, as theorems about the definitions: see proofs/.
#![tactic(auto)]
