// The calls for C. A slice is a pointer and a length there, what a call answers is a number, and include/siphonpear.h has them all.
#![tactic(auto)]

pub mod passing; // passing a packet, and its answer as eight words
pub mod edits; // the table calls
