// Nothing runs here: that a running state meets what the calls require is proved in proofs/.
#![tactic(auto)]
