// Nothing runs here: the crate is the mathematics of specs/, the theorems over any list of factors.
#![tactic(auto)]
