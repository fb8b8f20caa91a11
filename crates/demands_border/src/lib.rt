// Document 01's third demand for callers in C and Rust, as theorems about the contracts of lot_search, lot_page and
// lot_pick: see proofs/.
#![tactic(auto)]
