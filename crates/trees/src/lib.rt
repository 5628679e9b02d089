// Nothing runs here: the laws of shapes, contents and path copying stand in proofs/.
#![tactic(auto)]
