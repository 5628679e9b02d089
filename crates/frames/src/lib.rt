// Nothing runs here yet: the model of serving a frame stands in specs/.
#![tactic(auto)]
