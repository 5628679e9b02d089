// Nothing to run: proofs that the code of a turn is the model of a frame.
#![tactic(auto)]
