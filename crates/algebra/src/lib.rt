// Nothing runs here: the crate is the mathematics of specs/, laws that know nothing of experiments.
#![tactic(auto)]
