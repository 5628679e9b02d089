// Nothing to run: what document 01 means stands in specs/, what is proved of it in proofs/.
#![tactic(auto)]
