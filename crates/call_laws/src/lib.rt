// Laws of the solver's call: what it answers for each key, and how large an answer can be. No code.
#![tactic(auto)]
