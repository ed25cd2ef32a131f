// What proofs by hand share: laws about walks of a function's code, with no code of its own (proofs/).
#![tactic(auto)]
