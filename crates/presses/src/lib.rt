// Double presses in lists of calls: definitions and theorems only.
#![tactic(auto)]
