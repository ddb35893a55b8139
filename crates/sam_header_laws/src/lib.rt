// Laws of the calls as a caller sees them: which catalogues are fresh, and which numbers are refusals. This crate has no code.
#![tactic(auto)]
