// Nothing runs here: that no party's calls reach another's answers is proved in proofs/.
#![tactic(auto)]
