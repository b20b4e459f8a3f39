// Laws of the run: a plan that passes the check runs in its declared peak. No code.
#![tactic(auto)]
