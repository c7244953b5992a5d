// Independence and exchanges: definitions and their laws, and no code.

#![tactic(auto)]
