// The C functions: numbers and byte slices in, a number out, and the answer in the lent buffer. Nothing is decided here. C has a
// function for each name of the header and hands over numbers, so they stay as many, with a pair's two numbers side by side.
#![tactic(auto)]

pub mod constructors;
pub mod floats_in;
pub mod floats_out;
pub mod integers;
pub mod parts;
pub mod printed;
pub mod sum;
