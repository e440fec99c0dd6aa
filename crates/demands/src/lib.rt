// The demands, and what change requests add to them, as theorems over the passing rule. There is no code here: proofs/Laws holds a file
// for each.
#![tactic(auto)]
