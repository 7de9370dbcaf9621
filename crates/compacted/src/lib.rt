// No code: what compacting a sheet gives (Wish 6) is a theorem over the rules, in proofs/.
#![tactic(auto)]
