// No answer in words has more than 4,096 bytes: a claim and its proof, and no code.

#![tactic(auto)]
