// Laws of the job text and of what is printed: a line reads as numbers exactly when it is those numbers printed. No code.
#![tactic(auto)]
