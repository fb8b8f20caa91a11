// The index made from tokens, as theorems about the definitions: see proofs/.
#![tactic(auto)]
