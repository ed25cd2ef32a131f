// No code: laws for an exported function that lends a struct to a function by value, in proofs/.
#![tactic(auto)]
