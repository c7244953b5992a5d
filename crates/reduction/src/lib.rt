// Lipton's reduction on recordings: theorems, and no code.

#![tactic(auto)]
