// What an accepted merge means, and which headers are merges of each other. This crate has no code.
#![tactic(auto)]
