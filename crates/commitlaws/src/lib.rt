// The table of commits has the commits of the serial order: claims and their proofs, and no code.

#![tactic(auto)]
