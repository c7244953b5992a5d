// The second term of docs/FORMAT.md, over what is handed in (texts of guard lists and of recordings): claims and their proofs, and no code.

#![tactic(auto)]
