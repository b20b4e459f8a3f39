// Laws of a job's tests: what a job that passes them is, and what its key is. No code.
#![tactic(auto)]
