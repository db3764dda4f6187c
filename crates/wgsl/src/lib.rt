// No code: what a reader must believe stands in specs/, the laws about it in proofs/.
#![tactic(auto)]
