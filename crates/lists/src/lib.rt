// Laws of tests and of lists that know nothing of SAM; no code.
#![tactic(auto)]
