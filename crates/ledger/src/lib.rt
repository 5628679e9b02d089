// Nothing runs here: what is proved of the node store stands in proofs/, over the definitions of specs/.
#![tactic(auto)]
