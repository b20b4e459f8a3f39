// Laws of refusals: a call answers a number exactly when its condition, and none tested earlier, gives it. No code.
#![tactic(auto)]
