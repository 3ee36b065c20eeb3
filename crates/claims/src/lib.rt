// The claims, on one page: theorems about the calls, and no code.
#![tactic(auto)]
