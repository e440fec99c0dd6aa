// The packet layer, over header words: what a packet is, or the first rule of form that it breaks. It knows no table, partition or
// log. header, wire and count belong to the layer too.
#![tactic(auto)]

pub mod form; // reading a packet
