// Laws of accepted lines and texts, for every call that works on what reading accepted. This crate has no code.
#![tactic(auto)]
