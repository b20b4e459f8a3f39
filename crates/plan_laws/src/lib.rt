// Laws of plans: what passes the check is sound, and what is written passes. No code.
#![tactic(auto)]
