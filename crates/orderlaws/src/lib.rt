// The reduction carried over to the words of a recording, and to the walk that writes the serial order: theorems, and no code.

#![tactic(auto)]
