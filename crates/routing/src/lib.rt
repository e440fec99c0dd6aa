// The decision: which way a packet goes, or which refusal stops it. It only reads.
#![tactic(auto)]

pub mod refusal; // the refusals that a packet can get, by the list's numbers
pub mod rule; // the gate, what packet and numbers say, one question to the windows, and what follows
