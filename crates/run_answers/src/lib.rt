// Laws of a run's refusals: it answers a number exactly when its condition, and none tested earlier, gives it. No code.
#![tactic(auto)]
