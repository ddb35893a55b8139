// Laws of the faults of a text (see the crate `faults`). This crate has no code.
#![tactic(auto)]
