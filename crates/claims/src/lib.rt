// No code: the demands on the calls, as theorems about the calls' own definitions. What is claimed is in specs/, its proofs are in proofs/.
#![tactic(auto)]
