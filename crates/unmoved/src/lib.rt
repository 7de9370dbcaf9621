// No code: that a caller's data moves no layout (Wish 14) is a theorem over the rules. What is said stands in specs/, the theorem in proofs/.
#![tactic(auto)]
