// The third term of docs/FORMAT.md, over what the calls for equality and the serial order answer: a claim and its proof, and no code.

#![tactic(auto)]
