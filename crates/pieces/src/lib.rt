// The rules' worked pieces, computed from the definitions: one claim over a list of them. No code.
#![tactic(auto)]
