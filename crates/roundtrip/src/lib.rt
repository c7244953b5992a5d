// Reading and writing undo each other, of whole recordings and whole verdict lines: claims and their proofs, and no code.

#![tactic(auto)]
