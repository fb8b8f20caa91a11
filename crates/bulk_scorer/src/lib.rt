// What a bulk scorer asks and gives: the loops from a root to the collector have one contract. This crate has no code.
#![tactic(auto)]
