// Document 01 as definitions, in specs/; this crate has no code.
#![tactic(auto)]
