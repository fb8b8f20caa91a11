// Runs of postings packed into words, and read back: theorems about the definitions, see proofs/.
#![tactic(auto)]
