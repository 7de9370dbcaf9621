// No code: what converting a sheet gives (Wish 12) is a theorem over the rules. What is said stands in specs/, the theorem in proofs/.
#![tactic(auto)]
