// No code: what mending a sheet gives (Wish 10) is a theorem over the rules. What is said stands in specs/, the theorem in proofs/.
#![tactic(auto)]
