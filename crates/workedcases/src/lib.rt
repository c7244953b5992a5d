// The cases of docs/FORMAT.md that are marked *, proved of the definitions: a claim and its proof, and no code.

#![tactic(auto)]
