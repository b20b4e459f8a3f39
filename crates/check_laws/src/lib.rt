// Laws of the check's refusals: bytes and plans are refused exactly by their conditions. No code.
#![tactic(auto)]
