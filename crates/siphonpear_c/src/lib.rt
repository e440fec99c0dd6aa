// The calls for C as a static library: each hands its arguments to the call of the same name in siphonpear, and promises the same.
#![tactic(auto)]

pub mod passing; // passing a packet, and its answer as eight words
pub mod edits; // the table calls
