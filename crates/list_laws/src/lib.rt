// Laws of the words about lists that papers defines, and of the two sides of a test. No code.
#![tactic(auto)]
