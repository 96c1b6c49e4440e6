// The static library for C: each function of `saltribbon` under its name there, with its clauses. Nothing is decided here.
#![tactic(auto)]

mod constructors;
mod floats_in;
mod floats_out;
mod integers;
mod parts;
mod printed;
mod sum;
