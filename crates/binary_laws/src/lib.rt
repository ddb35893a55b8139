// Laws of the binary header: which bytes are one, that `binary_in` answers 28 exactly for bytes that are not, and that it tidies the text if the
// lists agree. This crate has no code.
#![tactic(auto)]
