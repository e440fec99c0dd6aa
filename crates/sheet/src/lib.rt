// The exam sheet: its tables and its packets as data (specs/), its cases as one proved table (proofs/Laws), and the tables for programs.
#![tactic(auto)]

pub mod lent; // the three tables, each proved equal to its definition
