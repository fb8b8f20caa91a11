// Document 01's third demand, as theorems about the definitions: see proofs/.
#![tactic(auto)]
