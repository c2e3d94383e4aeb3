// What lines of vectors spell, and how the answers to them are printed: the programs that are driven by such lines share it.
#![tactic(auto)]

pub mod bytes;
pub mod numbers;
pub mod parts;
pub mod show;
