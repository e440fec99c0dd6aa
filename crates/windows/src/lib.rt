// The calls that edit the table of windows: sixteen rows a partition, each a base, a target and a control word.
#![tactic(auto)]

mod span; // the addresses of a window, and whether they overlap those of another
pub mod edit; // set a window, empty it
