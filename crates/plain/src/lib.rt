// The plain engine: rows in place, a new key in the lowest free one. Every function is total on any bytes; what it means
// on a sound table is in specs/Claims.antt.
#![tactic(auto)]

pub mod lookup;
