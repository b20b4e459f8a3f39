// Laws of fill: R(j) contains exactly the filled rows, and comes from the children's lists. No code.
#![tactic(auto)]
