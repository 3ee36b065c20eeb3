// Words of k bits: definitions and laws, and no code.
#![tactic(auto)]
