// Laws of a job text's refusals: the program prints a refusal exactly when its condition, and none tested earlier, gives it; and the job
// of a text is the one that its lines name. No code.
#![tactic(auto)]
