// Passing a packet: the decision, then what is written, then what is logged. The tables are lent by the caller.
#![tactic(auto)]

pub mod answer; // what comes back: outcome and record, for each way
pub mod after; // Out and logs, as the outcome says
pub mod pass; // the one call
