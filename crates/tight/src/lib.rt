// Theorems on the contracts of the other crates: each leaves one answer to each call. It has no code of its own.
#![tactic(auto)]
