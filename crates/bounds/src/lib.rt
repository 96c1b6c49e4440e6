// Theorems on the float conversions of `seconds`: how far each is off, and what comes back. It has no code of its own.
#![tactic(auto)]
