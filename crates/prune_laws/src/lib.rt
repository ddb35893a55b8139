// Laws of pruning: what is left is whole, its leaves were in use, and nothing else is changed; pruning it again changes nothing; with all programs in
// use pruning is tidying, and it never needs more room. This crate has no code.
#![tactic(auto)]
