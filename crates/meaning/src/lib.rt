// No code: what shapes and their bytes mean stands in specs/, and what follows from that in proofs/.
#![tactic(auto)]
