// Definitions in specs/, theorems in proofs/: no code.
#![tactic(auto)]
