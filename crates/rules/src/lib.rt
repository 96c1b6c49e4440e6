// Document 01's refusal table and order of checks as theorems, and its proved samples. It has no code of its own.
#![tactic(auto)]
