// What an accepted parse yields: laws about the definitions, with no code (proofs/).
#![tactic(auto)]
