// Laws of the solver's call: it answers a number exactly when its condition, and none tested earlier, gives it. No code.
#![tactic(auto)]
