// The binary header of the SAM specification: what is written, what is read, and that reading undoes writing. This crate has no code.
#![tactic(auto)]
