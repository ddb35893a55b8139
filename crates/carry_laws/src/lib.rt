// Carrying on after refused lines: which lines are kept and which are skipped, and laws about this. This crate has no code.
#![tactic(auto)]
