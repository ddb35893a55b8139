// Laws of adding programs: the text that is written reads back as the old records and the new programs, and how this changes the chains. This crate
// has no code.
#![tactic(auto)]
