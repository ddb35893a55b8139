// By which rule for repeated tags an accepted text may be read again: its own, or the strict one where no tag is repeated. There is no code here.
#![tactic(auto)]
