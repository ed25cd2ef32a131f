// What always holds of a run on a sheet that passes the check: definitions and a theorem, no code.
#![tactic(auto)]
