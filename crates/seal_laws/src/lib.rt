// Laws of seals: a seal belongs to the header and not to its spelling, and whoever gets another header past a seal has a collision of SHA-256. This
// crate has no code.
#![tactic(auto)]
