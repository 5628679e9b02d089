// Nothing runs here: that every call keeps the invariant of the store is proved in proofs/.
#![tactic(auto)]
