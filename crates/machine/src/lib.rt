// The run machine and demand 3 (01, The run machine): definitions and a theorem, no code.
#![tactic(auto)]
