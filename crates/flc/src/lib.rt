// The logic: definitions in specs/, lemmas in proofs/. No code.
#![tactic(auto)]
