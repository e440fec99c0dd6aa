// What the programs over the exam sheet share.
#![tactic(auto)]

pub mod hex; // a word as eight digits
mod line; // an outcome as one line
pub mod passing; // a packet passed over the sheet, and whether it could be read
