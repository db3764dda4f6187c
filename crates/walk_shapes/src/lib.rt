// No code: the shapes that the table of an accepted file describes (specs/), and the laws of them (proofs/).
#![tactic(auto)]
