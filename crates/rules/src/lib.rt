// The verdict is that of the rules of the paper's figures, and inferred guards are some choice: claims and their proofs, and no code.

#![tactic(auto)]
