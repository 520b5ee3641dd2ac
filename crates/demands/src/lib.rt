// The calls of a whole walk, the plain walk that they are held to, and the three demands with their proofs.

#![tactic(auto)]
