// Nothing runs here: what opening, taking and closing make of a running state is proved in proofs/.
#![tactic(auto)]
