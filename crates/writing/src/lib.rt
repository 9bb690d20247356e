// No code: the sheet that a plan, readings and marks make, and the law that both calls on sheets give them back. The sheet is in specs/, the law in proofs/.
#![tactic(auto)]
