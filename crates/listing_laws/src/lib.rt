// Laws of what the listing program prints: how long its lines are, and that any listing fits its slice. No code.
#![tactic(auto)]
