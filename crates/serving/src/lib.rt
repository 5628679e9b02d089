// Nothing runs here: that a served frame answers what the plain table answers is proved in proofs/.
#![tactic(auto)]
