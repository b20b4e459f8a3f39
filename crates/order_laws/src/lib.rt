// Laws of the tree, the orders and the room in use. No code.
#![tactic(auto)]
