// One home for names, definitions and laws that several crates cite. It has no code of its own.
#![tactic(auto)]
