// The table of numbers: 64 mapping entries, four a partition, and sixteen bus words.
#![tactic(auto)]

pub mod entries; // free or held, the lowest slot that holds an ID; set, free
pub mod buses; // active or not; set, make inactive
