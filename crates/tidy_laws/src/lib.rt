// Laws of the tidy text: it reads back, tidying it again changes nothing, and different headers have different tidy texts. This crate has no code.
#![tactic(auto)]
