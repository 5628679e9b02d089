// No code: what is proved of the walks stands in proofs/.
#![tactic(auto)]
