// Laws of numbers, tests and lists that have nothing to do with recordings. There is no code.

#![tactic(auto)]
