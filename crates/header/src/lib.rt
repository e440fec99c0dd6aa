// The header of a packet: its words, its kind, its fields by name, and the fields that crossing rewrites.
// A file for each chapter; specs/ has the same chapters.
#![tactic(auto)]

pub mod field; // a field of a word, and replacing one
pub mod kind; // the six kinds
pub mod words; // bytes of a packet, and the header words, read once
pub mod fields; // every field of a header by its name
pub mod rewrite; // requester, completer, and the address with the header that fits
