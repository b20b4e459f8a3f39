// Laws of numbers in groups, of keys and of plan bytes: what is written is read back, and nothing else is. No code.
#![tactic(auto)]
