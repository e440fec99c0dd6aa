// What every crate stands on: in specs/ choices, fields of a word and scans, with their laws; in code the words of a lent table, and what a table call is refused for.
#![tactic(auto)]

pub mod table; // a word of a table, read and put; what every table call refuses first; and the refusals of table calls
