// The ledger machine and demand 3: definitions and theorems only.
#![tactic(auto)]
