// The faults of a text, line by line: their definition and laws. This crate has no code.
#![tactic(auto)]
